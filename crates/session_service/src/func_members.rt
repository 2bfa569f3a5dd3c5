ghost use Rattle.std.specs.Prelude.{◌≡◌, ◌≤◌, length, All, IfOk};
ghost use Rattle.tars_model.specs.Members.{MAX_PARAMS};
ghost use Rattle.tars_model.specs.declared.func_desc.FuncDesc.{FuncDesc as AFunc};
ghost use Rattle.session_service.specs.Made.{members_of, all_members};

use std::alloc::{AllocError, Global};
use tars_model::{FuncDesc, List, Member, args_of, reply_of};

/// The members that stand in the bodies of a function's requests and replies.
#[derive(Drop)]
pub(crate) struct FuncMembers {
    pub arguments: List<Member>,
    pub reply: List<Member>,
}

impl FuncMembers {
    fn of(alloc: Global, func: &FuncDesc) -> Result<FuncMembers, AllocError>
        requires { length func.now.params ≤ MAX_PARAMS }
        ensures { IfOk result (λ members. members ≡ members_of func.now) }
    {
        Ok(FuncMembers {
            arguments: args_of(alloc, func)?,
            reply: reply_of(alloc, func)?,
        })
    }
}

/// Those of each function.
pub(crate) fn members_of_all(
    alloc: Global,
    funcs: &[FuncDesc],
) -> Result<Vec<FuncMembers>, AllocError>
    requires { All (λ (func : AFunc). length func.params ≤ MAX_PARAMS) funcs.now }
    ensures { IfOk result (λ members. members.items ≡ all_members funcs.now) }
{
    let mut members = Vec::new(alloc);
    for func in funcs {
        members.push(FuncMembers::of(alloc, func)?)?;
    }
    Ok(members)
}
