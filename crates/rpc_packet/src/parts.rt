//! The parts of a request's frame around its id and its timeout.

ghost use Rattle.std.specs.Prelude.{◌≡◌, true, length, min, take, drop};
ghost use Rattle.tars_model.specs.Declarations.{nothing_declared};
ghost use Rattle.tars_model.specs.Values.{fit_members};
ghost use Rattle.tars_codec.specs.Written.{written};
ghost use Rattle.rpc_packet.specs.Packets.{request_members};
ghost use Rattle.rpc_packet.specs.Prepared.{said_by};
ghost use Rattle.rpc_packet.specs.FrameParts.{IsOpen, front_of, middle_of, tail_of};

use std::alloc::Global;
use tars_codec::encoded_len;
use tars_model::{Member, Schema, Value};

/// How many bytes the length of a packet takes.
pub(crate) const LENGTH_BYTES: usize = 4;

/// How many bytes the longest id takes, and the longest timeout.
pub(crate) const OPEN_BYTES: usize = 5;

/// How many bytes stand before the id and between the id and the timeout, or 2^64 - 1 where they are more.
pub(crate) fn lengths(alloc: Global, members: &[Member], values: &[Value]) -> (u64, u64)
    requires members { members.now ≡ request_members }
    requires fits { fit_members nothing_declared request_members values.now ≡ true }
    ensures front { result.0 ≡ min (length (written nothing_declared (take 3 request_members) (take 3 values.now))) u64.MAX }
    ensures middle { result.1 ≡ min (length (written nothing_declared (take 3 (drop 4 request_members)) (take 3 (drop 4 values.now)))) u64.MAX }
{
    let schema = Schema::empty(alloc);
    let front = encoded_len(&schema, &members[..3], &values[..3]);
    let middle = encoded_len(&schema, &members[4..7], &values[4..7]);
    (front, middle)
}

/// What stands before the id, between the id and the timeout, and after the timeout.
pub(crate) fn parts(longest: &[u8], id_at: usize, timeout_at: usize) -> (&[u8], &[u8], &[u8])
    requires { IsOpen longest.now id_at timeout_at }
    ensures front { result.0.now ≡ front_of (said_by longest.now) }
    ensures middle { result.1.now ≡ middle_of (said_by longest.now) }
    ensures tail { result.2.now ≡ tail_of (said_by longest.now) }
{
    let front = &longest[LENGTH_BYTES..id_at];
    let middle = &longest[id_at + OPEN_BYTES..timeout_at];
    let tail = &longest[timeout_at + OPEN_BYTES..];
    (front, middle, tail)
}
