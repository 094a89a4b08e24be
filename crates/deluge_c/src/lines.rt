//! Frames on a serial line, in the caller's buffers.
ghost use Rattle.std.specs.Prelude.{◌≡◌, ◌≢◌, ◌↔◌, ◌⊎◌, ◌+◌, ◌<◌, ◌≤◌, ◌++◌, [], ◌∷◌, List, ℕ, take, length};
ghost use Rattle.arrayvec.specs.ArrayVec.{array_vec_len};
ghost use Rattle.dg_base.specs.Sizes.{longest_frame};
ghost use Rattle.dg_serial.specs.Line.{items, stuffed, escaped, stuffed_byte, HasNoFlag};
ghost use Rattle.dg_serial.specs.Line.{SerialItem, Frame, Escape, Long};
ghost use Rattle.dg_serial.specs.Reading.{reading_behind};
ghost use Rattle.dg_serial.specs.Sizes.{flag_byte};
ghost use Rattle.deluge_c.specs.Answers.{done};

use crate::answers::{ESCAPE_FAULT, FLAG_FAULT, LENGTH, LONG, SHORT};
use crate::rooms::put_bytes;
use arrayvec::ArrayVec;
use dg_base::LONGEST_FRAME;
use dg_serial::{ESCAPE, ESCAPED_ESCAPE, ESCAPED_FLAG, FLAG, Fed, Unstuff};

/// The most bytes of a frame on the line: each escaped, and the flag.
const LINE_BYTES: usize = 2 * LONGEST_FRAME + 1;

/// A frame as it is on the line.
type Line = ArrayVec<u8, LINE_BYTES>;

/// Writes a frame of 1 to 64 bytes as it is on the line, with the flag after it: at most 129 bytes.
#[unsafe(no_mangle)]
pub extern "C" fn deluge_stuff(frame: &[u8], into: &mut [u8], count: &mut usize) -> u32
    ensures answer { (result ≡ done) ↔ ((1 ≤ length frame.now) × (length frame.now ≤ longest_frame)
        × (length (stuffed frame.now) ≤ length into.old)) }
    ensures written { result ≡ done → take count.new into.new ≡ stuffed frame.now }
    ensures refused { result ≢ done → (into.new ≡ into.old) × (count.new ≡ 0) }
{
    *count = 0;
    if frame.is_empty() || frame.len() > LONGEST_FRAME {
        return LENGTH;
    }
    put_bytes(&stuffed(frame), into, count)
}

/// The frame on the line.
fn stuffed(frame: &[u8]) -> Line
    requires { length frame.now ≤ longest_frame }
    ensures { result.items ≡ stuffed frame.now }
{
    let mut line = Line::new();
    for byte in frame {
        push_byte(&mut line, *byte);
    }
    line.push(FLAG);
    line
}

/// Appends a byte of a frame.
fn push_byte(line: &mut Line, byte: u8)
    requires { array_vec_len line.old + 2 ≤ LINE_BYTES }
    ensures items { line.new.items ≡ line.old.items ++ stuffed_byte byte }
    ensures count { array_vec_len line.new ≤ array_vec_len line.old + 2 }
{
    match byte {
        FLAG => {
            line.push(ESCAPE);
            line.push(ESCAPED_FLAG);
        }
        ESCAPE => {
            line.push(ESCAPE);
            line.push(ESCAPED_ESCAPE);
        }
        _ => line.push(byte),
    }
}

/// Reads a piece of the line, the bytes between two flags, as the frame for which it stands: at most 64 bytes. An empty piece is
/// `SHORT`.
#[unsafe(no_mangle)]
pub extern "C" fn deluge_unstuff(piece: &[u8], into: &mut [u8], count: &mut usize) -> u32
    ensures read { result ≡ done → items (piece.now ++ flag_byte ∷ []) ≡ Frame (take count.new into.new) ∷ [] }
    ensures refused { result ≢ done → (into.new ≡ into.old) × (count.new ≡ 0) }
    ensures escape { result ≡ ESCAPE_FAULT → items (piece.now ++ flag_byte ∷ []) ≡ Escape ∷ [] }
    ensures long { result ≡ LONG → items (piece.now ++ flag_byte ∷ []) ≡ Long ∷ [] }
    ensures short { result ≡ SHORT → items (piece.now ++ flag_byte ∷ []) ≡ [] }
    ensures flag { result ≡ FLAG_FAULT → HasNoFlag piece.now → ⊥ }
{
    *count = 0;
    let mut reading = Unstuff::new();
    for byte in piece {
        if *byte == FLAG {
            return FLAG_FAULT;
        }
        reading.feed(*byte);
    }
    match reading.feed(FLAG) {
        Fed::More => SHORT,
        Fed::Escape => ESCAPE_FAULT,
        Fed::Long => LONG,
        Fed::Frame(frame) => put_bytes(frame.as_slice(), into, count),
    }
}
