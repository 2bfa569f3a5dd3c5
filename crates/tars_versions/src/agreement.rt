//! Whether a new version can refuse values of an old one.

ghost use Rattle.std.specs.Prelude.{◌≡◌, ◌≤◌, ◌<◌, ◌↔◌, true, false, List, length, IfErr, IsOk};
ghost use Rattle.tars_model.specs.Declarations.{members_at};
ghost use Rattle.tars_model.specs.Members.{HaveRisingTags};
ghost use Rattle.tars_model.specs.Values.{fit_members};
ghost use Rattle.tars_model.specs.declared.ty.Ty.{out-Ty};
ghost use Rattle.tars_model.specs.declared.value.Value.{Value};
ghost use Rattle.tars_versions.specs.Agreement.{Agreement, agree, differ, at_step, agree_within, agree_by, elements_agree, entries_agree, member_agrees, members_agree, versions_agree, IsVersion};
ghost use Rattle.tars_versions.specs.AgreementSteps.{Tells, from_tag, first_with};
ghost use Rattle.tars_versions.specs.Projected.{project_members};

use crate::numbers::takes_numbers;
use crate::path::Path;
use crate::reason_kind::ReasonKind;
use tars_model::{Member, Schema, Ty};

/// One more than the greatest depth of a type.
const MAX_LEVELS: u8 = 33;

/// What the two versions declare.
#[derive(Clone, Copy)]
struct Versions<'s> {
    old: &'s Schema,
    new: &'s Schema,
}

/// The members from the first one on whose tag is not below this one.
#[tactic(auto, unfolding(crate::specs::AgreementSteps::from_tag))]
fn from_tag(members: &[Member], tag: u8) -> &[Member]
    ensures { result.now ≡ from_tag tag members.now }
{
    let mut left = members;
    while let [first, rest @ ..] = left {
        if first.tag >= tag {
            return left;
        }
        left = rest;
    }
    left
}

/// The same, seen from one step further out.
fn in_step(step: u32, agreed: Result<(), Path>) -> Result<(), Path>
    requires { IfErr agreed (λ path. length path.steps < 40) }
    ensures { (agreement : Agreement) → Tells agreed agreement → Tells result (at_step step agreement) }
{
    match agreed {
        Ok(()) => Ok(()),
        Err(path) => Err(path.under(step)),
    }
}

/// Whether an old type and a new one agree, of at most so many levels.
#[cycle(agree)]
fn types_agree(versions: &Versions, levels: u8, old: &Ty, new: &Ty) -> Result<(), Path>
    requires { levels ≤ 33 }
    ensures { Tells result (agree_within levels versions.now.old.now versions.now.new.now old.now new.now) }
{
    if levels == 0 {
        return Err(Path::here(ReasonKind::Mismatch));
    }
    kinds_agree(versions, levels - 1, old, new)
}

#[cycle(agree)]
fn kinds_agree(versions: &Versions, levels: u8, old: &Ty, new: &Ty) -> Result<(), Path>
    requires { levels < 33 }
    ensures { Tells result (agree_by (agree_within levels versions.now.old.now versions.now.new.now) versions.now.old.now versions.now.new.now (out-Ty old.now) (out-Ty new.now)) }
{
    match (old, new) {
        (Ty::Text, Ty::Text) => Ok(()),
        (Ty::Vector(old), Ty::Vector(new)) => elements_agree(
            versions,
            levels,
            old.get(),
            new.get(),
        ),
        (Ty::Map(old_key, old_value), Ty::Map(new_key, new_value)) => {
            let keys = types_agree(versions, levels, old_key.get(), new_key.get());
            in_step(0, keys)?;
            let values = types_agree(versions, levels, old_value.get(), new_value.get());
            in_step(1, values)
        }
        (Ty::Struct(old), Ty::Struct(new)) => structs_agree(versions, levels, *old, *new),
        _ => {
            if takes_numbers(old, new) {
                Ok(())
            } else {
                Err(Path::here(ReasonKind::Mismatch))
            }
        }
    }
}

/// Whether the types of elements agree.
#[cycle(agree)]
fn elements_agree(versions: &Versions, levels: u8, old: &Ty, new: &Ty) -> Result<(), Path>
    requires { levels < 33 }
    ensures { Tells result (elements_agree (agree_within levels versions.now.old.now versions.now.new.now) old.now new.now) }
{
    if matches!(old, Ty::Byte) && !matches!(new, Ty::Byte) {
        return Err(Path::here(ReasonKind::Mismatch));
    }
    in_step(0, types_agree(versions, levels, old, new))
}

/// Whether the structs of two numbers agree.
#[cycle(agree)]
fn structs_agree(versions: &Versions, levels: u8, old: u32, new: u32) -> Result<(), Path>
    requires { levels < 33 }
    ensures { Tells result (members_agree (agree_within levels versions.now.old.now versions.now.new.now) (members_at versions.now.old.now old) (members_at versions.now.new.now new)) }
{
    // In a schema the tags of members rise.
    let _old_order = versions.old.order();
    let _new_order = versions.new.order();
    members_agree(
        versions,
        levels,
        versions.old.members_at(old),
        versions.new.members_at(new),
    )
}

/// Whether each new member agrees with the old one of its tag.
#[cycle(agree)]
fn members_agree(
    versions: &Versions,
    levels: u8,
    old: &[Member],
    new: &[Member],
) -> Result<(), Path>
    requires levels { levels ≤ 33 }
    requires old { HaveRisingTags old.now }
    requires new { HaveRisingTags new.now }
    ensures { Tells result (members_agree (agree_within levels versions.now.old.now versions.now.new.now) old.now new.now) }
{
    let mut left = old;
    for member in new {
        left = from_tag(left, member.tag);
        member_agrees(versions, levels, left, member)?;
    }
    Ok(())
}

/// Whether a new member agrees with the first of the old ones, where that has its tag.
#[cycle(agree)]
fn member_agrees(versions: &Versions, levels: u8, old: &[Member], new: &Member) -> Result<(), Path>
    requires { levels ≤ 33 }
    ensures { Tells result (member_agrees (agree_within levels versions.now.old.now versions.now.new.now) (first_with new.now.tag old.now) new.now) }
{
    let tag = u32::from(new.tag);
    match old {
        [old, ..] if old.tag == new.tag => {
            in_step(tag, types_agree(versions, levels, &old.ty, &new.ty))
        }
        _ if new.require => Err(Path::here(ReasonKind::Missing).under(tag)),
        _ => Ok(()),
    }
}

/// Whether a new version agrees with an old one: then it refuses no value of the old one. Else `reason` becomes the
/// first reason, in the order of the tags and the reasons inside a member before those of the next.
#[tactic(auto, using(crate::proofs::Accepting::Values::no_value_is_refused))]
pub fn compatible(
    old: &Schema,
    old_members: &[Member],
    new: &Schema,
    new_members: &[Member],
    reason: &mut Path,
) -> bool
    requires old { IsVersion old.now old_members.now }
    requires new { IsVersion new.now new_members.now }
    // True exactly where the versions agree.
    ensures agree { (result ≡ true) ↔ (versions_agree old.now old_members.now new.now new_members.now ≡ agree) }
    // Where they do not, the first reason is told.
    ensures reason { result ≡ false → versions_agree old.now old_members.now new.now new_members.now ≡ differ reason.new }
    ensures kept { result ≡ true → reason.new ≡ reason.old }
    // Where they do, a reader of the new version refuses no values of the old one.
    ensures accepts { result ≡ true → (values : List Value) → fit_members old.now old_members.now values ≡ true → IsOk (project_members old.now old_members.now values new.now new_members.now) }
{
    // What a schema declares keeps the rules.
    let _old_order = old.order();
    let _new_order = new.order();
    let versions = Versions { old, new };
    match members_agree(&versions, MAX_LEVELS, old_members, new_members) {
        Ok(()) => true,
        Err(path) => {
            *reason = path;
            false
        }
    }
}
