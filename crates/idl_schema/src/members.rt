//! Members of structs.

ghost use Rattle.std.specs.Prelude.{◌≡◌, true, map, fold, IfOk, OnOk};
ghost use Rattle.std.specs.List.{All, insert, position_or_len};
ghost use Rattle.std.specs.Prelude.{nat_lt};
ghost use Rattle.tars_model.specs.Values.{is_unsigned};
ghost use Rattle.tars_model.specs.declared.member.Member.{Member as Made};
ghost use Rattle.idl_lex.specs.Meanings.{whole_number};
ghost use Rattle.idl_parse.specs.TreeSpans.{NumberIn};
ghost use Rattle.idl_scene.specs.Items.{word};
ghost use Rattle.idl_schema.specs.Reading.{MemberReads};
ghost use Rattle.idl_schema.specs.SchemaOf as spec;

use crate::literals::{default_value, number};
use crate::place::Place;
use crate::types::resolved;
use idl_lex::Span;
use idl_parse::tree::{MemberTree, Requirement};
use std::alloc::{AllocError, Global};
use tars_model::{List, Member, Name};

/// The tag at a span.
fn tag(text: &[u8], span: Span) -> u8
    requires at { NumberIn text.now span }
    requires byte { is_unsigned 8 (whole_number (word text.now span)) ≡ true }
    ensures { result ≡ spec.as_tag (whole_number (word text.now span)) }
{
    number(text, span) as u8
}

fn is_required(requirement: Requirement) -> bool
    ensures { result ≡ spec.is_required requirement }
{
    match requirement {
        Requirement::Require => true,
        Requirement::Optional => false,
    }
}

fn member(alloc: Global, place: &Place<'_, '_>, member: &MemberTree) -> Result<Member, AllocError>
    requires { MemberReads place.now.text member.now }
    ensures { IfOk result (λ m. m ≡ spec.member_of place.now member.now) }
{
    let name = Name::from_slice(alloc, place.word(member.typed.name))?;
    let ty = resolved(alloc, place, &member.typed.ty)?;
    let default = default_value(alloc, place, &ty, member.default)?;
    Ok(Member {
        tag: tag(place.text, member.tag),
        require: is_required(member.requirement),
        ty,
        name,
        default,
    })
}

/// How many members stand before the first of a greater tag.
fn place_of(members: &[Member], tag: u8) -> usize
    ensures { result ≡ position_or_len (λ (m : Made). nat_lt tag m.tag) members.now }
{
    let mut at = 0;
    for m in members {
        if tag < m.tag {
            return at;
        }
        at += 1;
    }
    at
}

/// Puts a member before the first of a greater tag.
fn put(members: &mut Vec<Member>, m: Member) -> Result<(), AllocError>
    ensures { OnOk result (members.new.items ≡ spec.put_member m members.old.items) }
{
    let at = place_of(members.as_slice(), m.tag);
    members.insert(at, m)?;
    Ok(())
}

/// The members of a struct, in rising tag order.
pub(crate) fn members_of(
    alloc: Global,
    place: &Place<'_, '_>,
    trees: &[MemberTree],
) -> Result<List<Member>, AllocError>
    requires { All (MemberReads place.now.text) trees.now }
    ensures { IfOk result (λ ms. ms ≡ spec.in_tag_order (map (spec.member_of place.now) trees.now)) }
{
    let mut members = Vec::new(alloc);
    for tree in trees {
        let m = member(alloc, place, tree)?;
        put(&mut members, m)?;
    }
    Ok(List::from_vec(members))
}
