ghost use Rattle.std.specs.Prelude.{◌≡◌, ◌≤◌, ◌++◌, length, IfOk, OnOk};
ghost use Rattle.tars_model.specs.Members.{MAX_PARAMS, required, goes, params_from, arguments_of, reply_members_of};

use crate::{List, Member, Name, Ty, Value};
use std::alloc::{AllocError, Global};

/// Whether parameters go with the call, or come back with the reply.
#[derive(Clone, Copy)]
enum Direction {
    In,
    Out,
}

impl Direction {
    /// Whether a parameter goes this way.
    fn is_of(self, param: &Param) -> bool
        ensures { result ≡ goes self param.now }
    {
        match self {
            Direction::In => !param.out,
            Direction::Out => param.out,
        }
    }
}

/// A parameter of a function.
#[derive(Drop)]
pub struct Param {
    pub name: Name,
    pub ty: Ty,
    /// Whether it comes back with the reply.
    pub out: bool,
}

impl Param {
    /// The member that stands for this parameter.
    fn member(&self, alloc: Global, tag: u8) -> Result<Member, AllocError>
        ensures { IfOk result (λ m. m ≡ required tag self.now.ty self.now.name) }
    {
        Ok(Member {
            tag,
            require: true,
            ty: self.ty.copy(alloc)?,
            name: self.name.copy(alloc)?,
            default: Value::Num(0),
        })
    }
}

/// A function of an interface.
#[derive(Drop)]
pub struct FuncDesc {
    pub name: Name,
    /// None for `void`.
    pub ret: Option<Ty>,
    pub params: List<Param>,
}

/// Adds the members that stand for the parameters of a direction.
fn add_params(
    alloc: Global,
    members: &mut List<Member>,
    params: &[Param],
    direction: Direction,
) -> Result<(), AllocError>
    requires { length params.now ≤ MAX_PARAMS }
    ensures { OnOk result (members.new ≡ members.old ++ params_from 1 direction params.now) }
{
    for (k, param) in params.iter().enumerate() {
        if direction.is_of(param) {
            members.push(param.member(alloc, k as u8 + 1)?)?;
        }
    }
    Ok(())
}

/// The members of a call's arguments: each parameter that is not `out`, under its number from 1.
pub fn args_of(alloc: Global, f: &FuncDesc) -> Result<List<Member>, AllocError>
    requires { length f.now.params ≤ MAX_PARAMS }
    ensures { IfOk result (λ members. members ≡ arguments_of f.now) }
{
    let mut members = List::new(alloc);
    add_params(alloc, &mut members, f.params.as_slice(), Direction::In)?;
    Ok(members)
}

/// The members of a call's reply: what is returned under 0, and each `out` parameter under its number.
pub fn reply_of(alloc: Global, f: &FuncDesc) -> Result<List<Member>, AllocError>
    requires { length f.now.params ≤ MAX_PARAMS }
    ensures { IfOk result (λ members. members ≡ reply_members_of f.now) }
{
    let mut members = List::new(alloc);
    if let Some(ty) = &f.ret {
        members.push(Member {
            tag: 0,
            require: true,
            ty: ty.copy(alloc)?,
            name: Name::from_slice(alloc, b"")?,
            default: Value::Num(0),
        })?;
    }
    add_params(alloc, &mut members, f.params.as_slice(), Direction::Out)?;
    Ok(members)
}
