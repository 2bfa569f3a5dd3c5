ghost use Rattle.std.specs.Prelude.{◌≡◌, ◌≤◌, ◌⊎◌, length, take};

/// Leaves bytes in a slice and returns their number, or 0 where it is too short for them.
pub fn leave(out: &mut [u8], bytes: &[u8]) -> usize
    ensures some { (result ≡ 0) ⊎ (take result out.new ≡ bytes.now) }
    ensures all { length bytes.now ≤ length out.old → take result out.new ≡ bytes.now }
{
    if bytes.len() > out.len() {
        return 0;
    }
    out[..bytes.len()].copy_from_slice(bytes);
    bytes.len()
}
