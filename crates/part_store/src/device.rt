//! A chip of one's own: bytes in memory that never stop. Over a real chip, `read`, `program` and `erase` are the commands of its
//! data sheet, and each answers `Stopped` if the chip does not respond.
ghost use Rattle.std.specs.Prelude.{◌≡◌, ◌+◌, ◌-◌, ◌*◌, ◌<◌, ◌≤◌, length, IfOk};
ghost use Rattle.dg_words.specs.Cells.{overwritten, AreBytes};
ghost use Rattle.dg_nor.specs.Sizes.{sector_size, chip_size};
ghost use Rattle.dg_nor.specs.Chip.{IsChip, programmed, blank, and_each};

use dg_nor::{CHIP_SIZE, Nor, SECTOR_SIZE, Stopped};
use std::alloc::{AllocError, Global};

/// An erased byte.
const ERASED: u8 = 0xFF;

/// The bytes of the chip.
#[derive(Drop)]
pub struct RamChip {
    cells: Vec<u8>,
    ghost chip: { IsChip cells.items },
}

impl RamChip {
    /// A chip whose bytes are all erased.
    pub fn new(alloc: Global) -> Result<RamChip, AllocError> {
        let mut cells = Vec::with_capacity(alloc, CHIP_SIZE as usize)?;
        cells.resize(CHIP_SIZE as usize, ERASED)?;
        Ok(RamChip { cells })
    }
}

impl Nor for RamChip {
    ghost use Rattle.part_store.specs.Ram.{ram_device};

    ghost device = { ram_device };

    fn is_stopped(&self) -> bool {
        false
    }

    fn read(&mut self, at: u32, into: &mut [u8]) -> Result<(), Stopped> {
        let at = at as usize;
        into.copy_from_slice(&self.cells[at..at + into.len()]);
        Ok(())
    }

    fn program(&mut self, at: u32, bytes: &[u8]) -> Result<(), Stopped> {
        let at = at as usize;
        program_cells(&mut self.cells, at, bytes);
        Ok(())
    }

    fn erase(&mut self, sector: u32) -> Result<(), Stopped> {
        let from = SECTOR_SIZE as usize * sector as usize;
        erase_cells(&mut self.cells, from, from + SECTOR_SIZE as usize);
        Ok(())
    }

    ghost is_chip = { λ d. d.chip };
}

/// Each of the cells becomes old AND new.
fn and_bytes(cells: &mut [u8], bytes: &[u8])
    requires { length cells.old ≡ length bytes.now }
    ensures { cells.new ≡ and_each cells.old bytes.now }
{
    for i in 0..cells.len() {
        cells[i] &= bytes[i];
    }
}

/// Programs the cells from `at` on.
fn program_cells(cells: &mut [u8], at: usize, bytes: &[u8])
    requires { at + length bytes.now ≤ length cells.old }
    ensures cells { cells.new ≡ programmed cells.old at bytes.now }
    ensures bytes { AreBytes cells.new }
{
    and_bytes(&mut cells[at..at + bytes.len()], bytes);
}

/// Erases the cells from `from` to `to`.
fn erase_cells(cells: &mut [u8], from: usize, to: usize)
    requires order { from ≤ to }
    requires within { to ≤ length cells.old }
    ensures cells { cells.new ≡ overwritten cells.old from (blank (to - from)) }
    ensures bytes { AreBytes cells.new }
{
    cells[from..to].fill(ERASED);
}
