ghost use Rattle.std.specs.Prelude.{◌≤◌, length};
ghost use Rattle.tars_codec.specs.Rooms.{Adds};

use bytes::BytesMut;

/// Adds bytes for which the buffer has room.
pub fn put(out: &mut BytesMut, bytes: &[u8])
    requires { length bytes.now ≤ out.old.spare }
    ensures { Adds out.old out.new bytes.now }
{
    out.extend_reserved(bytes);
}
