//! What is declared, once more.

ghost use Rattle.std.specs.Prelude.{◌≡◌, IfOk};

use crate::{
    ConstDesc, Decl, EnumDesc, FuncDesc, InterfaceDesc, Item, KeyDesc, List, Member, Name, Param,
    StructDesc, Ty, copy_value,
};
use std::alloc::{AllocError, Global};

/// What can be made once more, where there is memory for it.
pub(crate) trait Copied {
    fn copied(&self, alloc: Global) -> Result<Self, AllocError>
        ensures { IfOk result (λ copy. copy ≡ self.now) };
}

/// All of these, in their order.
pub(crate) fn all_copied<T: Copied + Drop>(
    alloc: Global,
    items: &List<T>,
) -> Result<List<T>, AllocError>
    ensures { IfOk result (λ copies. copies ≡ items.now) }
{
    let mut copies = List::new(alloc);
    for item in items.as_slice() {
        copies.push(item.copied(alloc)?)?;
    }
    Ok(copies)
}

impl Copied for Name {
    fn copied(&self, alloc: Global) -> Result<Name, AllocError> {
        self.copy(alloc)
    }
}

impl Copied for Decl {
    fn copied(&self, _: Global) -> Result<Decl, AllocError> {
        Ok(*self)
    }
}

impl Copied for Member {
    fn copied(&self, alloc: Global) -> Result<Member, AllocError> {
        Ok(Member {
            tag: self.tag,
            require: self.require,
            ty: self.ty.copy(alloc)?,
            name: self.name.copy(alloc)?,
            default: copy_value(alloc, &self.default)?,
        })
    }
}

impl Copied for StructDesc {
    fn copied(&self, alloc: Global) -> Result<StructDesc, AllocError> {
        Ok(StructDesc {
            module: self.module.copy(alloc)?,
            name: self.name.copy(alloc)?,
            members: all_copied(alloc, &self.members)?,
        })
    }
}

impl Copied for Item {
    fn copied(&self, alloc: Global) -> Result<Item, AllocError> {
        Ok(Item {
            name: self.name.copy(alloc)?,
            number: self.number,
        })
    }
}

impl Copied for EnumDesc {
    fn copied(&self, alloc: Global) -> Result<EnumDesc, AllocError> {
        Ok(EnumDesc {
            module: self.module.copy(alloc)?,
            name: self.name.copy(alloc)?,
            items: all_copied(alloc, &self.items)?,
        })
    }
}

impl Copied for ConstDesc {
    fn copied(&self, alloc: Global) -> Result<ConstDesc, AllocError> {
        Ok(ConstDesc {
            module: self.module.copy(alloc)?,
            name: self.name.copy(alloc)?,
            ty: self.ty.copy(alloc)?,
            value: copy_value(alloc, &self.value)?,
        })
    }
}

impl Copied for KeyDesc {
    fn copied(&self, alloc: Global) -> Result<KeyDesc, AllocError> {
        Ok(KeyDesc {
            of: self.of,
            members: all_copied(alloc, &self.members)?,
        })
    }
}

impl Copied for Param {
    fn copied(&self, alloc: Global) -> Result<Param, AllocError> {
        Ok(Param {
            name: self.name.copy(alloc)?,
            ty: self.ty.copy(alloc)?,
            out: self.out,
        })
    }
}

/// What is returned, once more.
fn returned_copied(alloc: Global, ret: &Option<Ty>) -> Result<Option<Ty>, AllocError>
    ensures { IfOk result (λ copy. copy ≡ ret.now) }
{
    match ret {
        Some(ty) => Ok(Some(ty.copy(alloc)?)),
        None => Ok(None),
    }
}

impl Copied for FuncDesc {
    fn copied(&self, alloc: Global) -> Result<FuncDesc, AllocError> {
        Ok(FuncDesc {
            name: self.name.copy(alloc)?,
            ret: returned_copied(alloc, &self.ret)?,
            params: all_copied(alloc, &self.params)?,
        })
    }
}

impl Copied for InterfaceDesc {
    fn copied(&self, alloc: Global) -> Result<InterfaceDesc, AllocError> {
        Ok(InterfaceDesc {
            module: self.module.copy(alloc)?,
            name: self.name.copy(alloc)?,
            funcs: all_copied(alloc, &self.funcs)?,
        })
    }
}
