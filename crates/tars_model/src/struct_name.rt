/// The name of a struct, with its module.
#[derive(Clone, Copy)]
pub struct StructName<'a> {
    pub module: &'a [u8],
    pub name: &'a [u8],
}
