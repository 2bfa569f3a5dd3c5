//! Room for a frame, filled.

ghost use Rattle.std.specs.Prelude.{◌≡◌, ◌≤◌, ◌+◌, ◌++◌, length, vec_len, vec_capacity};
ghost use Rattle.tars_frames.specs.Streams.{framed};
ghost use Rattle.rpc_packet.specs.FrameParts.{IsRoomFor};

use crate::parts::LENGTH_BYTES;
use tars_model::Bytes8;

/// Adds bytes for which there is room.
fn put(out: &mut Vec<u8>, bytes: &[u8])
    requires { vec_len out.old + length bytes.now ≤ vec_capacity out.old }
    ensures items { out.new.items ≡ out.old.items ++ bytes.now }
    ensures len { vec_len out.new ≡ vec_len out.old + length bytes.now }
    ensures capacity { vec_capacity out.old ≤ vec_capacity out.new }
{
    match out.extend_from_slice(bytes) {
        Ok(()) => (),
        Err(_) => unreachable!(),
    }
}

/// The frame of a body in five pieces, in room that is there.
pub(crate) fn filled(
    mut room: Vec<u8>,
    front: &[u8],
    id: &[u8],
    middle: &[u8],
    timeout: &[u8],
    tail: &[u8],
) -> Bytes8
    requires { IsRoomFor room (front.now ++ (id.now ++ (middle.now ++ (timeout.now ++ tail.now)))) }
    ensures { result ≡ framed (front.now ++ (id.now ++ (middle.now ++ (timeout.now ++ tail.now)))) }
{
    let body = front.len() + id.len() + middle.len() + timeout.len() + tail.len();
    put(&mut room, &((body + LENGTH_BYTES) as u32).to_be_bytes());
    put(&mut room, front);
    put(&mut room, id);
    put(&mut room, middle);
    put(&mut room, timeout);
    put(&mut room, tail);
    Bytes8::from_vec(room)
}
