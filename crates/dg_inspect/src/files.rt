//! The bytes of a file as those of a chip.
ghost use Rattle.std.specs.Prelude.{◌≡◌, ◌↔◌, IfOk, IsTrue, length, replicate};
ghost use Rattle.dg_inspect.specs.Files.{IsChipLength, ShowsFile};

use crate::chip::StillChip;
use crate::looking::look;
use crate::seen::{FileSeen, LookFault};
use dg_nor::{CHIP_SIZE, OLD_CHIP_SIZE};
use std::alloc::Global;

/// Whether all bytes are 0xFF.
fn is_blank(bytes: &[u8]) -> bool
    ensures { IsTrue result ↔ (bytes.now ≡ replicate (length bytes.now) 255) }
{
    bytes.iter().all(|byte| *byte == 0xFF)
}

/// Whether a file of this many bytes may be a chip's.
pub fn is_chip_length(length: usize) -> bool
    ensures { IsTrue result ↔ IsChipLength length }
{
    OLD_CHIP_SIZE as usize <= length && length <= CHIP_SIZE as usize
}

/// What the bytes of a file are, and all that they show if they are a chip.
pub fn inspect(alloc: Global, bytes: &[u8]) -> Result<FileSeen, LookFault>
    ensures shows { IfOk result (ShowsFile bytes.now) }
{
    if !is_chip_length(bytes.len()) {
        return Ok(FileSeen::Other);
    }
    if is_blank(bytes) {
        return Ok(FileSeen::Blank);
    }
    let mut still = StillChip::new(alloc, bytes)?;
    let chip = look(alloc, &mut still)?;
    Ok(FileSeen::Chip {
        older: bytes.len() < CHIP_SIZE as usize,
        chip,
    })
}
