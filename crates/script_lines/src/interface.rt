/// An interface of a module.
#[derive(Clone, Copy)]
pub struct InterfaceLine<'a> {
    /// The offset of the line in the text.
    pub at: u32,
    pub module: &'a [u8],
    pub name: &'a [u8],
}
