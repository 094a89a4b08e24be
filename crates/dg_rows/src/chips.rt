//! Chips in memory, each under a name.

use dg_nor::{Board, Nor, SECTOR_SIZE, SECTORS, Stopped, erase_sector, program_in, read_in};
use std::alloc::{AllocError, Global};

/// The bytes of a sector.
pub(crate) const CELLS: usize = SECTOR_SIZE as usize;

/// A chip and its name.
#[derive(Drop)]
pub(crate) struct Chip {
    pub(crate) name: String,
    pub(crate) board: Board,
}

/// A chip of this name whose bytes are all FF.
pub(crate) fn blank_chip(alloc: Global, name: &str) -> Result<Chip, AllocError> {
    Ok(Chip {
        name: String::from_str(alloc, name)?,
        board: Board::memory(alloc)?,
    })
}

/// Where the chip of a name stands.
fn place_of(chips: &[Chip], name: &str) -> Option<usize> {
    for (index, chip) in chips.iter().enumerate() {
        if chip.name.as_str() == name {
            return Some(index);
        }
    }
    None
}

/// Takes out the chip of a name.
pub(crate) fn take(chips: &mut Vec<Chip>, name: &str) -> Option<Chip> {
    let place = place_of(chips, name)?;
    if place >= chips.len() {
        return None;
    }
    Some(chips.remove(place))
}

/// The first chip that words name.
pub(crate) fn chip_named<'a>(chips: &'a [Chip], words: &[String]) -> Option<&'a Chip> {
    for word in words {
        if let Some(place) = place_of(chips, word.as_str()) {
            return chips.get(place);
        }
    }
    None
}

/// Takes out the chips that words name, in the order of these.
pub(crate) fn take_named(
    alloc: Global,
    chips: &mut Vec<Chip>,
    words: &[String],
) -> Result<Vec<Chip>, AllocError> {
    let mut taken = Vec::new(alloc);
    for word in words {
        if let Some(chip) = take(chips, word.as_str()) {
            taken.push(chip)?;
        }
    }
    Ok(taken)
}

/// Chips without a name whose bytes are all FF.
pub(crate) fn blank_chips(alloc: Global, count: u32) -> Result<Vec<Chip>, AllocError> {
    let mut chips = Vec::new(alloc);
    for _ in 0..count {
        chips.push(blank_chip(alloc, "")?)?;
    }
    Ok(chips)
}

/// Puts chips back that have a name.
pub(crate) fn put_back(chips: &mut Vec<Chip>, taken: Vec<Chip>) -> Result<(), AllocError> {
    for chip in taken {
        if !chip.name.is_empty() {
            chips.push(chip)?;
        }
    }
    Ok(())
}

/// A copy of the chip of a name.
pub(crate) fn copy_of(
    alloc: Global,
    chips: &[Chip],
    name: &str,
) -> Result<Option<Board>, AllocError> {
    for chip in chips {
        if chip.name.as_str() == name {
            return Ok(Some(chip.board.copy(alloc)?));
        }
    }
    Ok(None)
}

/// Whether two chips hold the same bytes.
pub(crate) fn are_same(one: &mut Board, other: &mut Board) -> Result<bool, Stopped> {
    let mut cells = [0; CELLS];
    let mut others = [0; CELLS];
    for sector in 0..SECTORS {
        read_in(one, sector, 0, &mut cells)?;
        read_in(other, sector, 0, &mut others)?;
        if cells.as_slice() != others.as_slice() {
            return Ok(false);
        }
    }
    Ok(true)
}

/// Has a chip hold these bytes from a place of a sector on, whatever its bits were. It answers whether the sector has room.
pub(crate) fn patch(
    board: &mut Board,
    sector: u32,
    at: u32,
    bytes: &[u8],
) -> Result<bool, Stopped> {
    let mut cells = [0; CELLS];
    if sector >= SECTORS {
        return Ok(false);
    }
    read_in(board, sector, 0, &mut cells)?;
    for (k, byte) in bytes.iter().enumerate() {
        let Some(cell) = cells.get_mut((at as usize).saturating_add(k)) else {
            return Ok(false);
        };
        *cell = *byte;
    }
    erase_sector(board, sector)?;
    program_in(board, sector, 0, &cells)?;
    Ok(true)
}
