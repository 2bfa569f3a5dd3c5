ghost use Rattle.std.specs.Prelude.{IfSome};
ghost use Rattle.codec_bench.specs.Bench.{DeclaresLast};

use idl_check::check;
use idl_load::read_tree;
use std::alloc::Global;
use std::slice;
use tars_model::Schema;

/// What is declared, and the number of the struct that is declared last.
#[derive(Drop)]
pub struct Opened {
    pub schema: Schema,
    pub number: u32,
}

/// What an interface file declares that includes no other.
pub fn open(alloc: Global, interface: &[u8]) -> Option<Opened>
    ensures { IfSome result (λ opened. DeclaresLast interface.now opened.schema opened.number) }
{
    let Ok(file) = read_tree(alloc, "", interface) else {
        return None;
    };
    // The entries are those of the text.
    let _entries = file.entries();
    let Ok(schema) = check(alloc, slice::from_ref(&file)) else {
        return None;
    };
    let Ok(count) = u32::try_from(schema.structs().len()) else {
        return None;
    };
    let number = count.checked_sub(1)?;
    Some(Opened { schema, number })
}
