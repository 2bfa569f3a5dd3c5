//! A schema that is built, one declaration after the other.

ghost use Rattle.std.specs.Prelude.{◌≡◌};
ghost use Rattle.tars_model.specs.Declarations.{nothing_declared};
ghost use Rattle.idl_schema.specs.Naming.{IsNamed};

use crate::name_table::NameTable;
use std::alloc::Global;
use tars_model::Schema;

/// What is declared so far, and the names of its structs and of its enums, each by its number.
#[derive(Drop)]
pub(crate) struct Building<'a> {
    pub schema: Schema,
    pub structs: NameTable<'a>,
    pub enums: NameTable<'a>,
}

impl<'a> Building<'a> {
    pub fn new(alloc: Global) -> Building<'a>
        ensures empty { result.schema ≡ nothing_declared }
        ensures named { IsNamed result }
    {
        Building {
            schema: Schema::empty(alloc),
            structs: NameTable::new(alloc),
            enums: NameTable::new(alloc),
        }
    }
}
