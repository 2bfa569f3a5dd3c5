ghost use Rattle.std.specs.Prelude.{◌≡◌, ◌<◌, ◌^◌, [], ◌∷◌, ◌++◌, length, IfOk, OnOk, OnErr};
ghost use Rattle.tars_model.specs.Declarations.{nothing_declared, members_at, items_at, with_struct, with_enum, with_const, with_key, with_interface};
ghost use Rattle.tars_model.specs.Schemas.{IsSchema, StructFits, EnumFits, ConstFits, KeyFits, InterfaceFits};

use crate::copied::all_copied;
use crate::{ConstDesc, Decl, EnumDesc, InterfaceDesc, Item, KeyDesc, List, Member, StructDesc};
use std::alloc::{AllocError, Global};
use std::marker::Model;

/// What interface files declare, each kind in the order of the text. It keeps the rules of docs/IDL.md ("Rules").
#[derive(Drop)]
pub struct Schema {
    structs: List<StructDesc>,
    enums: List<EnumDesc>,
    consts: List<ConstDesc>,
    keys: List<KeyDesc>,
    interfaces: List<InterfaceDesc>,
    /// All declarations in the order of the text.
    order: List<Decl>,
}

impl Model for Schema {
    ghost use Rattle.std.specs.Coded.{codes};
    ghost use Rattle.tars_model.specs.Declarations.{Declared, declared_by};
    ghost use Rattle.tars_model.specs.Schemas.{IsSchema};
    ghost use Rattle.tars_model.specs.contracts.ty.Ty as ty;
    ghost use Rattle.tars_model.specs.contracts.value.Value as value;

    ghost Value = { Declared };

    ghost coded = { Prim.hlevel (codes, ty.the_row.coded, value.the_row.coded) };

    ghost view = { λ s. declared_by s.structs s.enums s.consts s.keys s.interfaces s.order };

    ghost invariant = { λ s. IsSchema (declared_by s.structs s.enums s.consts s.keys s.interfaces s.order) };
}

/// Adds a declaration to those of its kind and to all; after an `Err` both are as they were.
fn declare<T: Drop>(
    kind: &mut List<T>,
    order: &mut List<Decl>,
    item: T,
    decl: Decl,
) -> Result<(), AllocError>
    ensures kind { OnOk result (kind.new ≡ kind.old ++ item ∷ []) }
    ensures order { OnOk result (order.new ≡ order.old ++ decl ∷ []) }
    ensures kind_kept { OnErr result (kind.new ≡ kind.old) }
    ensures order_kept { OnErr result (order.new ≡ order.old) }
{
    order.push(decl)?;
    match kind.push(item) {
        Ok(()) => Ok(()),
        Err(e) => {
            let _ = order.pop();
            Err(e)
        }
    }
}

impl Schema {
    pub fn empty(alloc: Global) -> Schema
        ensures { result ≡ nothing_declared }
    {
        Schema {
            structs: List::new(alloc),
            enums: List::new(alloc),
            consts: List::new(alloc),
            keys: List::new(alloc),
            interfaces: List::new(alloc),
            order: List::new(alloc),
        }
    }

    /// The same schema once more.
    pub fn copy(&self, alloc: Global) -> Result<Schema, AllocError>
        ensures { IfOk result (λ copy. copy ≡ self.now) }
    {
        Ok(Schema {
            structs: all_copied(alloc, &self.structs)?,
            enums: all_copied(alloc, &self.enums)?,
            consts: all_copied(alloc, &self.consts)?,
            keys: all_copied(alloc, &self.keys)?,
            interfaces: all_copied(alloc, &self.interfaces)?,
            order: all_copied(alloc, &self.order)?,
        })
    }

    pub fn structs(&self) -> &[StructDesc]
        ensures { result.now ≡ self.now.structs }
    {
        self.structs.as_slice()
    }

    pub fn enums(&self) -> &[EnumDesc]
        ensures { result.now ≡ self.now.enums }
    {
        self.enums.as_slice()
    }

    pub fn consts(&self) -> &[ConstDesc]
        ensures { result.now ≡ self.now.consts }
    {
        self.consts.as_slice()
    }

    pub fn keys(&self) -> &[KeyDesc]
        ensures { result.now ≡ self.now.keys }
    {
        self.keys.as_slice()
    }

    pub fn interfaces(&self) -> &[InterfaceDesc]
        ensures { result.now ≡ self.now.interfaces }
    {
        self.interfaces.as_slice()
    }

    /// The members of the struct of a number.
    pub fn members_at(&self, number: u32) -> &[Member]
        ensures { result.now ≡ members_at self.now number }
    {
        match self.structs.get(number as usize) {
            Some(s) => s.members.as_slice(),
            None => &[],
        }
    }

    /// The enumerators of the enum of a number.
    pub fn items_at(&self, number: u32) -> &[Item]
        ensures { result.now ≡ items_at self.now number }
    {
        match self.enums.get(number as usize) {
            Some(e) => e.items.as_slice(),
            None => &[],
        }
    }

    /// All declarations in the order of the text.
    pub fn order(&self) -> &[Decl]
        ensures order { result.now ≡ self.now.order }
        // Each was made by the rules.
        ensures rules { IsSchema self.now }
    {
        self.order.as_slice()
    }

    /// Adds a struct and returns its number. After an `Err` the schema is as it was.
    pub fn add_struct(&mut self, s: StructDesc) -> Result<u32, AllocError>
        requires { StructFits self.old s }
        ensures number { IfOk result (λ number. number ≡ length self.old.structs) }
        ensures added { OnOk result (self.new ≡ with_struct self.old s) }
        ensures kept { OnErr result (self.new ≡ self.old) }
    {
        let number = self.structs.len() as u32;
        declare(&mut self.structs, &mut self.order, s, Decl::Struct(number))?;
        Ok(number)
    }

    /// Adds an enum and returns its number. After an `Err` the schema is as it was.
    pub fn add_enum(&mut self, e: EnumDesc) -> Result<u32, AllocError>
        requires { EnumFits self.old e }
        ensures number { IfOk result (λ number. number ≡ length self.old.enums) }
        ensures added { OnOk result (self.new ≡ with_enum self.old e) }
        ensures kept { OnErr result (self.new ≡ self.old) }
    {
        let number = self.enums.len() as u32;
        declare(&mut self.enums, &mut self.order, e, Decl::Enum(number))?;
        Ok(number)
    }

    /// Adds a constant and returns its number. After an `Err` the schema is as it was.
    pub fn add_const(&mut self, c: ConstDesc) -> Result<u32, AllocError>
        requires { ConstFits self.old c }
        ensures number { IfOk result (λ number. number ≡ length self.old.consts) }
        ensures added { OnOk result (self.new ≡ with_const self.old c) }
        ensures kept { OnErr result (self.new ≡ self.old) }
    {
        let number = self.consts.len() as u32;
        declare(&mut self.consts, &mut self.order, c, Decl::Const(number))?;
        Ok(number)
    }

    /// Adds a key and returns its number. After an `Err` the schema is as it was.
    pub fn add_key(&mut self, k: KeyDesc) -> Result<u32, AllocError>
        requires { KeyFits self.old k }
        ensures number { IfOk result (λ number. number ≡ length self.old.keys) }
        ensures added { OnOk result (self.new ≡ with_key self.old k) }
        ensures kept { OnErr result (self.new ≡ self.old) }
    {
        let number = self.keys.len() as u32;
        declare(&mut self.keys, &mut self.order, k, Decl::Key(number))?;
        Ok(number)
    }

    /// Adds an interface and returns its number. After an `Err` the schema is as it was.
    pub fn add_interface(&mut self, i: InterfaceDesc) -> Result<u32, AllocError>
        requires { InterfaceFits self.old i }
        ensures number { IfOk result (λ number. number ≡ length self.old.interfaces) }
        ensures added { OnOk result (self.new ≡ with_interface self.old i) }
        ensures kept { OnErr result (self.new ≡ self.old) }
    {
        let number = self.interfaces.len() as u32;
        declare(
            &mut self.interfaces,
            &mut self.order,
            i,
            Decl::Interface(number),
        )?;
        Ok(number)
    }
}
