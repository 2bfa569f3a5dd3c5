use super::{Literal, TypedName};
use idl_lex::Span;

/// `[length]` after a member's name. `at` is where the `[` stands.
#[derive(Clone, Copy, PartialEq, Eq)]
pub struct ArrayLen {
    pub at: u32,
    pub length: Span,
}

/// Whether a member must be there.
#[derive(Clone, Copy, PartialEq, Eq)]
pub enum Requirement {
    Require,
    Optional,
}

/// A member of a struct.
#[derive(Drop)]
pub struct MemberTree {
    pub tag: Span,
    pub requirement: Requirement,
    pub typed: TypedName,
    pub array: Option<ArrayLen>,
    pub default: Option<Literal>,
}
