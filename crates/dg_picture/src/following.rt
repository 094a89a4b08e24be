//! The call that shows the picture of a report while the report comes.
ghost use Rattle.std.specs.Prelude.{◌≡◌, ◌≢◌, ◌⊎◌, ◌+◌, ◌<◌, ◌≤◌, ◌++◌, List, ℕ, length, vec_len, Ok, Err, IfOk, OnOk};
ghost use Rattle.dg_words.specs.Counts.{Rose};
ghost use Rattle.dg_base.specs.Outside.{Takes, AtEnd};
ghost use Rattle.dg_script.specs.Sizes.{most_used_bytes};
ghost use Rattle.dg_picture.specs.Followed.{Followed, Follows, ShowsSome};

use crate::call::{PictureFault, draw, draw_whole};
use crate::screen::{Screen, ShowFailed};
use dg_base::{ReadFailed, Source};
use dg_input::read_piece;
use dg_script::USED;
use dg_story::LinesFault;
use memchr::memrchr;
use std::alloc::{AllocError, Global};

/// Bytes that are asked for at once.
const PIECE: usize = 65_536;

/// Why a report is not followed to its end.
#[derive(Clone, Copy, Debug, PartialEq, Eq)]
enum FollowStop {
    Memory,
    ReadFault,
    ShowFault,
}

// How many bytes there are up to the last LF, with it.
fn length_of_lines(bytes: &[u8]) -> usize
    ensures { result ≤ length bytes.now }
{
    match memrchr(b'\n', bytes) {
        None => 0,
        Some(at) => at + 1,
    }
}

// Shows the picture of the lines that have come so far. If they are refused, that is reported at the end of the report.
fn show_so_far<W: Screen>(alloc: Global, bytes: &[u8], screen: &mut W) -> Result<(), FollowStop>
    ensures shown { ShowsSome bytes.now (W.shown screen.old) (W.shown screen.new) }
    ensures failed { result ≡ Err FollowStop.ShowFault → Rose (W.faults screen.old) (W.faults screen.new) }
    ensures unfailed { OnOk result (W.faults screen.new ≡ W.faults screen.old) }
    ensures read { result ≢ Err FollowStop.ReadFault }
{
    match draw(alloc, &bytes[..length_of_lines(bytes)]) {
        Ok(text) => match screen.show(&text) {
            Ok(()) => Ok(()),
            Err(ShowFailed) => Err(FollowStop::ShowFault),
        },
        Err(LinesFault::Memory) => Err(FollowStop::Memory),
        Err(LinesFault::TooMany | LinesFault::NoReport { .. }) => Ok(()),
    }
}

// Reads a piece after the bytes, up to one byte past those that are used, and answers how many bytes came.
fn keep_piece<S: Source>(
    source: &mut S,
    piece: &mut [u8],
    bytes: &mut Vec<u8>,
) -> Result<usize, FollowStop>
    requires piece { 0 < length piece.old }
    requires bound { vec_len bytes.old ≤ most_used_bytes }
    ensures taken { (more : List ℕ) × Takes (S.left source.old) (S.left source.new) more
        × (vec_len bytes.old + length more ≤ most_used_bytes + 1)
        × IfOk result (λ n. (n ≡ length more) × (bytes.new.items ≡ bytes.old.items ++ more)) }
    ensures ended { result ≡ Ok 0 → AtEnd (S.left source.new) }
    ensures failed { result ≡ Err FollowStop.ReadFault → Rose (S.faults source.old) (S.faults source.new) }
    ensures unfailed { OnOk result (S.faults source.new ≡ S.faults source.old) }
    ensures shown { result ≢ Err FollowStop.ShowFault }
{
    match read_piece(source, piece, USED + 1 - bytes.len()) {
        Ok(count) => match bytes.extend_from_slice(&piece[..count]) {
            Ok(()) => Ok(count),
            Err(AllocError) => Err(FollowStop::Memory),
        },
        Err(ReadFailed) => Err(FollowStop::ReadFault),
    }
}

// Reads the next piece, and shows the picture of what has come so far, where it is due. Answers how many bytes came.
fn follow_piece<S: Source, W: Screen>(
    alloc: Global,
    source: &mut S,
    screen: &mut W,
    piece: &mut [u8],
    bytes: &mut Vec<u8>,
) -> Result<usize, FollowStop>
    requires piece { 0 < length piece.old }
    requires bound { vec_len bytes.old ≤ most_used_bytes }
    ensures piece { length piece.new ≡ length piece.old }
    ensures taken { (more : List ℕ) × Takes (S.left source.old) (S.left source.new) more
        × (vec_len bytes.old + length more ≤ most_used_bytes + 1)
        × ShowsSome (bytes.old.items ++ more) (W.shown screen.old) (W.shown screen.new)
        × IfOk result (λ n. (n ≡ length more) × (bytes.new.items ≡ bytes.old.items ++ more)) }
    ensures ended { result ≡ Ok 0 → AtEnd (S.left source.new) }
    ensures read_failed { result ≡ Err FollowStop.ReadFault → Rose (S.faults source.old) (S.faults source.new) }
    ensures read { OnOk result (S.faults source.new ≡ S.faults source.old) }
    ensures show_failed { result ≡ Err FollowStop.ShowFault → Rose (W.faults screen.old) (W.faults screen.new) }
    ensures unfailed { OnOk result (W.faults screen.new ≡ W.faults screen.old) }
{
    let count = keep_piece(source, piece, bytes)?;
    let more = count == piece.len();
    if count > 0 && screen.is_due(more) {
        show_so_far(alloc, bytes, screen)?;
    }
    Ok(count)
}

// Reads a report to its end, or one byte past those that are used, and shows what has come so far.
fn follow_pieces<S: Source, W: Screen>(
    alloc: Global,
    source: &mut S,
    screen: &mut W,
    piece: &mut [u8],
) -> Result<Vec<u8>, FollowStop>
    requires { 0 < length piece.old }
    ensures taken { (bytes : List ℕ)
        × Follows (S.left source.old) (S.left source.new) (W.shown screen.old) (W.shown screen.new) bytes
        × IfOk result (λ v. v.items ≡ bytes) }
    ensures ended { IfOk result (λ v. AtEnd (S.left source.new) ⊎ (most_used_bytes < length v.items)) }
    ensures read_failed { result ≡ Err FollowStop.ReadFault → Rose (S.faults source.old) (S.faults source.new) }
    ensures show_failed { result ≡ Err FollowStop.ShowFault → Rose (W.faults screen.old) (W.faults screen.new) }
    ensures unfailed { OnOk result (W.faults screen.new ≡ W.faults screen.old) }
{
    let mut bytes = Vec::new(alloc);
    show_so_far(alloc, &bytes, screen)?;
    while bytes.len() <= USED {
        if follow_piece(alloc, source, screen, piece, &mut bytes)? == 0 {
            break;
        }
    }
    Ok(bytes)
}

/// Reads the report of a replay as it comes, plain or timed. It shows the picture of an empty report first, that of the
/// lines that have come whenever the screen says so, and that of the whole report at its end.
///
/// It answers as [`crate::picture`] does. A line that is refused is reported at the end of the input; what is shown then is the
/// last picture before it.
pub fn follow<S: Source, W: Screen>(
    alloc: Global,
    source: &mut S,
    screen: &mut W,
) -> Result<(), PictureFault>
    ensures followed { Followed result (S.left source.old) (S.left source.new) (W.shown screen.old) (W.shown screen.new) }
    ensures read_failed { result ≡ Err PictureFault.ReadFault → Rose (S.faults source.old) (S.faults source.new) }
    ensures write_failed { result ≡ Err PictureFault.WriteFault → Rose (W.faults screen.old) (W.faults screen.new) }
{
    let bytes = match follow_pieces(alloc, source, screen, &mut [0; PIECE]) {
        Ok(bytes) => bytes,
        Err(FollowStop::Memory) => return Err(PictureFault::Memory),
        Err(FollowStop::ReadFault) => return Err(PictureFault::ReadFault),
        Err(FollowStop::ShowFault) => return Err(PictureFault::WriteFault),
    };
    if bytes.len() > USED {
        return Err(PictureFault::TooLong);
    }
    let text = draw_whole(alloc, &bytes)?;
    if screen.show(&text).is_err() {
        return Err(PictureFault::WriteFault);
    }
    Ok(())
}
