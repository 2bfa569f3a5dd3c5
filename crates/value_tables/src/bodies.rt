//! Values under members as the bytes of a body, and back.

ghost use Rattle.std.specs.Prelude.{◌≡◌, true, IsTrue};
ghost use Rattle.std.specs.List.{All};
ghost use Rattle.tars_model.specs.Members.{IsBelowNext, HaveRisingTags};
ghost use Rattle.tars_model.specs.Values.{fit_members};
ghost use Rattle.tars_decode.specs.Decoding.{DefaultFits, MembersFit};

use crate::structs::{MOST, put_refuse};
use crate::values::{put_hex, put_values};
use bytes::BytesMut;
use row_pages::Page;
use tars_codec::{decode, encode};
use tars_model::{Member, Schema, Value, fits};

/// Whether a tag is below those of members.
fn is_below(tag: u8, members: &[Member]) -> bool
    ensures { IsTrue result → IsBelowNext tag members.now }
{
    match members {
        [] => true,
        [first, ..] => tag < first.tag,
    }
}

pub fn tags_rise(members: &[Member]) -> bool
    ensures { IsTrue result → HaveRisingTags members.now }
{
    match members {
        [] => true,
        [first, rest @ ..] => is_below(first.tag, rest) && tags_rise(rest),
    }
}

/// Whether a member is required, or its default is one of its type.
fn default_fits(schema: &Schema, member: &Member) -> bool
    ensures { IsTrue result → DefaultFits schema.now member.now }
{
    member.require || fits(schema, &member.ty, &member.default)
}

pub fn defaults_fit(schema: &Schema, members: &[Member]) -> bool
    ensures { IsTrue result → All (DefaultFits schema.now) members.now }
{
    match members {
        [] => true,
        [first, rest @ ..] => default_fits(schema, first) && defaults_fit(schema, rest),
    }
}

/// Whether there are as many values as members, each of its member's type.
fn members_fit(schema: &Schema, members: &[Member], values: &[Value]) -> bool
    ensures { result ≡ fit_members schema.now members.now values.now }
{
    match (members, values) {
        ([], []) => true,
        ([member, members @ ..], [value, values @ ..]) => {
            fits(schema, &member.ty, value) && members_fit(schema, members, values)
        }
        ([_first, _rest @ ..], []) => false,
        ([], [_first, _rest @ ..]) => false,
    }
}

/// Adds the bytes, and the values that are read from them.
fn put_read(page: &mut Page, schema: &Schema, members: &[Member], bytes: &[u8])
    requires { MembersFit schema.now members.now }
{
    put_hex(page, bytes);
    page.add(" is ");
    if bytes.len() > MOST {
        return page.add("too long");
    }
    match decode(page.alloc(), schema, members, bytes) {
        Ok(values) => put_values(page, values.as_slice()),
        Err(refuse) => put_refuse(page, &refuse),
    }
}

/// Adds the bytes that spell the values, and the values that are read from them.
fn put_body(page: &mut Page, schema: &Schema, members: &[Member], values: &[Value])
    requires members { MembersFit schema.now members.now }
    requires fits { fit_members schema.now members.now values.now ≡ true }
{
    let mut bytes = BytesMut::new(page.alloc());
    match encode(schema, members, values, &mut bytes) {
        Ok(()) => put_read(page, schema, members, bytes.as_slice()),
        Err(_) => page.fail(),
    }
}

/// The bytes that spell values under members. Where there are none, that is added.
pub fn body_of(
    page: &mut Page,
    schema: &Schema,
    members: &[Member],
    values: &[Value],
) -> Option<BytesMut> {
    if !tags_rise(members) || !members_fit(schema, members, values) {
        page.add("no values of the members");
        return None;
    }
    let mut bytes = BytesMut::new(page.alloc());
    if encode(schema, members, values, &mut bytes).is_err() {
        page.fail();
        return None;
    }
    Some(bytes)
}

fn put_under(page: &mut Page, schema: &Schema, members: &[Member], values: &[Value]) {
    if tags_rise(members) && defaults_fit(schema, members) && members_fit(schema, members, values) {
        put_body(page, schema, members, values);
    } else {
        page.add("no values of the members");
    }
}

/// Adds what comes of values under members: the bytes that spell them, and the values that are read from these.
pub fn put_coded(page: &mut Page, members: &[Member], values: &[Value]) {
    let schema = Schema::empty(page.alloc());
    put_under(page, &schema, members, values);
}
