//! Bytes that are written into the caller's buffer.
ghost use Rattle.std.specs.Prelude.{◌≡◌, ◌≢◌, ◌↔◌, ◌≤◌, ◌++◌, take, drop, length};
ghost use Rattle.deluge_c.specs.Answers.{done};

use crate::answers::{DONE, ROOM};

/// Writes bytes to the beginning of the buffer, and how many they are, if they fit.
pub(crate) fn put_bytes(bytes: &[u8], into: &mut [u8], count: &mut usize) -> u32
    ensures answer { (result ≡ done) ↔ (length bytes.now ≤ length into.old) }
    ensures counted { result ≡ done → count.new ≡ length bytes.now }
    ensures written { result ≡ done → take count.new into.new ≡ bytes.now }
    ensures refused { result ≢ done → (into.new ≡ into.old) × (count.new ≡ count.old) }
    ensures one { result ≢ done → result ≡ ROOM }
{
    if bytes.len() > into.len() {
        return ROOM;
    }
    into[..bytes.len()].copy_from_slice(bytes);
    *count = bytes.len();
    DONE
}
