//! Where a declaration stands, and what the names there mean.

ghost use Rattle.std.specs.Prelude.{◌≡◌};
ghost use Rattle.idl_parse.specs.TreeSpans.{IfThere, NameIn, ScopedIn};
ghost use Rattle.idl_scene.specs.Items.{word};
ghost use Rattle.idl_schema.specs.SchemaOf.{struct_number, enum_number, type_named, module_of, named_type};

use crate::building::Building;
use idl_lex::Span;
use idl_parse::tree::ScopedName;
use std::marker::Model;
use tars_model::Ty;

/// What is declared so far, the text of the file, and the name of the module.
#[derive(Drop)]
pub(crate) struct Place<'s, 'a> {
    pub building: &'s Building<'a>,
    pub text: &'a [u8],
    pub home: &'a [u8],
}

impl<'s, 'a> Model for Place<'s, 'a> {
    ghost use Rattle.std.specs.Prelude.{◌≤◌, length};
    ghost use Rattle.std.specs.Coded.{codes};
    ghost use Rattle.tars_model.specs.contracts.ty.Ty as ty;
    ghost use Rattle.tars_model.specs.contracts.value.Value as value;
    ghost use Rattle.idl_schema.specs.Naming.{IsNamed};
    ghost use Rattle.idl_schema.specs.SchemaOf.{Place as Seen};

    ghost Value = { Seen };

    ghost coded = { Prim.hlevel (codes, ty.the_row.coded, value.the_row.coded) };

    ghost view = { λ p. record { so_far = p.building.now.schema; text = p.text.now; home = p.home.now } };

    ghost invariant = { λ p. (length p.building.now.schema.structs ≤ 1024) × (length p.building.now.schema.enums ≤ 1024) × IsNamed p.building.now };
}

impl<'s, 'a> Place<'s, 'a> {
    /// The bytes of a name.
    pub fn word(&self, span: Span) -> &'a [u8]
        requires { NameIn self.now.text span }
        ensures { result.now ≡ word self.now.text span }
    {
        span.slice(self.text)
    }

    /// The number of the struct of that module and name.
    pub fn struct_number(&self, home: &'a [u8], name: &'a [u8]) -> Option<u32>
        ensures { result ≡ struct_number self.now.so_far home.now name.now }
    {
        match self.building.structs.number(home, name) {
            Some(number) => Some(number as u32),
            None => None,
        }
    }

    /// The number of the enum of that module and name.
    fn enum_number(&self, home: &'a [u8], name: &'a [u8]) -> Option<u32>
        ensures { result ≡ enum_number self.now.so_far home.now name.now }
    {
        match self.building.enums.number(home, name) {
            Some(number) => Some(number as u32),
            None => None,
        }
    }

    /// The module of a type's name: its own where none is written.
    fn module_of(&self, scope: Option<Span>) -> &'a [u8]
        requires { IfThere (NameIn self.now.text) scope }
        ensures { result.now ≡ module_of self.now scope }
    {
        match scope {
            Some(scope) => self.word(scope),
            None => self.home,
        }
    }

    /// The struct or enum that a name means; any type where it means none.
    pub fn named_type(&self, name: ScopedName) -> Ty
        requires { ScopedIn self.now.text name }
        ensures { result ≡ named_type self.now name }
    {
        let home = self.module_of(name.scope);
        let word = self.word(name.name);
        match self.struct_number(home, word) {
            Some(number) => Ty::Struct(number),
            None => match self.enum_number(home, word) {
                Some(number) => Ty::Enum(number),
                None => Ty::Struct(0),
            },
        }
    }
}
