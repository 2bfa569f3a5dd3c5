/// What is wrong where two versions do not agree.
#[derive(Clone, Copy, PartialEq, Eq)]
pub enum ReasonKind {
    /// A required new member whose tag no old member has.
    Missing,
    /// Old values that the new type refuses, or may refuse.
    Mismatch,
}
