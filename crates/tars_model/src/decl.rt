/// A declaration, by its number among those of its kind.
#[derive(Clone, Copy, PartialEq, Eq)]
pub enum Decl {
    Struct(u32),
    Enum(u32),
    Const(u32),
    Key(u32),
    Interface(u32),
}
