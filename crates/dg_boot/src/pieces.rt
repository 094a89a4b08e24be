//! Pages that are copied piece by piece, with their checksums.
ghost use Rattle.std.specs.Prelude.{◌≡◌, ◌≢◌, ℕ, ◌+◌, ◌-◌, ◌*◌, ◌<◌, ◌≤◌, ⊤, min, IfOk, OnOk, OnErr};
ghost use Rattle.dg_words.specs.Cells.{part};
ghost use Rattle.dg_base.specs.Crc.{crc_more};
ghost use Rattle.dg_nor.specs.Sizes.{sectors};
ghost use Rattle.dg_nor.specs.Chip.{sector, programmed, Touches};
ghost use Rattle.dg_nor.specs.Device.{Ran, Halts, Halted};
ghost use Rattle.dg_slot.specs.Layout.{page_size};
ghost use Rattle.dg_slot.specs.Pages.{page_in};
ghost use Rattle.dg_volume.specs.Sizes.{copy_operations};
ghost use Rattle.dg_boot.specs.Sizes.{copy_piece_size};

use dg_base::crc16_more;
use dg_nor::{Nor, Stopped, erase_sector, program_in, read_in};
use std::mem::size_of;

/// The bytes of a page that are read and programmed at once.
pub const COPY_PIECE: u32 = 138;

/// A piece of a page that is copied.
pub type CopyPiece = [u8; COPY_PIECE as usize];

/// The bytes that the array of a copied piece takes, by its type.
pub const SIZE_OF_COPY_PIECE: usize = size_of::<CopyPiece>();

/// The pieces of a page, each of which is one program.
pub const COPY_PIECES: u32 = 8;

/// Copies a piece of one sector into erased cells of another, through `piece`. Returns the checksum, continued from `before`,
/// of its bytes that are among the first `count` of the sector. 1 operation.
fn copy_piece<N: Nor>(
    nor: &mut N,
    from: u32,
    to: u32,
    at: u32,
    count: u32,
    before: u16,
    piece: &mut CopyPiece,
) -> Result<u16, Stopped>
    requires from_in { from < sectors }
    requires to_in { to < sectors }
    requires apart { from ≢ to }
    requires in_page { at + copy_piece_size ≤ page_size }
    ensures cells { OnOk result (sector (N.device nor.new).image to
        ≡ programmed (sector (N.device nor.old).image to) at (part (sector (N.device nor.old).image from) at copy_piece_size)) }
    ensures crc { IfOk result (λ crc. crc ≡ crc_more before
        (part (sector (N.device nor.old).image from) at (min (count - at) copy_piece_size))) }
    ensures touches { Touches to (to + 1) (N.device nor.old).image (N.device nor.new).image }
    ensures ran { OnOk result (Ran 1 (N.device nor.old) (N.device nor.new)) }
    ensures stopped { OnErr result (Halts 1 0 (N.device nor.old) (N.device nor.new)) }
{
    read_in(nor, from, at, piece)?;
    program_in(nor, to, at, piece)?;
    let summed = count.saturating_sub(at).min(COPY_PIECE);
    Ok(crc16_more(before, &piece[..summed as usize]))
}

/// Copies the page in one sector into another, which is erased first. Returns the checksum of its first `count` bytes,
/// continued from `before`. 9 operations.
pub(crate) fn copy_page<N: Nor>(
    nor: &mut N,
    from: u32,
    to: u32,
    count: u32,
    before: u16,
) -> Result<u16, Stopped>
    requires from_in { from < sectors }
    requires to_in { to < sectors }
    requires apart { from ≢ to }
    requires in_page { count ≤ page_size }
    ensures page { OnOk result (page_in (N.device nor.new).image to ≡ page_in (N.device nor.old).image from) }
    ensures crc { IfOk result (λ crc. crc ≡ crc_more before (part (sector (N.device nor.old).image from) 0 count)) }
    ensures touches { Touches to (to + 1) (N.device nor.old).image (N.device nor.new).image }
    ensures ran { OnOk result (Ran copy_operations (N.device nor.old) (N.device nor.new)) }
    ensures stopped { OnErr result (Halted copy_operations (λ _ _. ⊤) (N.device nor.old) (N.device nor.new)) }
{
    let mut piece = [0; COPY_PIECE as usize];
    erase_sector(nor, to)?;
    let mut crc = before;
    for k in 0..COPY_PIECES {
        crc = copy_piece(nor, from, to, COPY_PIECE * k, count, crc, &mut piece)?;
    }
    Ok(crc)
}
