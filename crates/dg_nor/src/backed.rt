//! The cells of a chip, and the file that mirrors them.
ghost use Rattle.std.specs.Prelude.{◌≡◌, ◌+◌, ◌<◌, ◌≤◌, false, not, length, IfOk, IfSome};
ghost use Rattle.dg_words.specs.Cells.{part};
ghost use Rattle.dg_nor.specs.Sizes.{sectors, sector_size, chip_size};
ghost use Rattle.dg_nor.specs.Chip.{programmed, erased};
ghost use Rattle.dg_nor.specs.Backing.{cells_image, is_gone, is_memory, mirrored_bytes, fault_of, Mirrors, Mirrors-prop};

use crate::SECTOR_SIZE;
use crate::backing::Backing;
use crate::cells::Cells;
use crate::files::FileFault;
use std::alloc::{AllocError, Global};

/// The cells of a chip, and what backs them besides memory. If that is a file, it has their bytes until it fails.
#[derive(Drop)]
pub(crate) struct BackedCells {
    cells: Cells,
    backing: Backing,
    ghost mirrored: { Mirrors backing (cells_image cells) } by { Mirrors-prop backing (cells_image cells) },
}

impl BackedCells {
    /// These cells. A file that backs them has their bytes.
    pub(crate) fn of(cells: Cells, backing: Backing) -> BackedCells
        requires { IfSome (mirrored_bytes backing) (λ bytes. bytes ≡ cells_image cells) }
        ensures cells { result.cells ≡ cells }
        ensures backing { result.backing ≡ backing }
    {
        BackedCells { cells, backing }
    }

    /// Cells with the same bytes.
    pub(crate) fn copy(&self, alloc: Global) -> Result<Cells, AllocError>
        ensures { IfOk result (λ cells. cells_image cells ≡ cells_image self.now.cells) }
    {
        self.cells.copy(alloc)
    }

    /// Whether the file failed.
    pub(crate) fn is_gone(&self) -> bool
        ensures { result ≡ is_gone self.now.backing }
    {
        self.backing.is_gone()
    }

    /// Why its file is gone.
    pub(crate) fn file_fault(&self) -> Option<FileFault>
        ensures { result ≡ fault_of self.now.backing }
    {
        self.backing.file_fault()
    }

    /// The bytes from `at` on.
    pub(crate) fn read(&self, at: u32, into: &mut [u8])
        requires { at + length into.old ≤ chip_size }
        ensures { into.new ≡ part (cells_image self.now.cells) at (length into.old) }
    {
        self.cells.read(at, into);
    }

    /// Each byte from `at` on becomes old AND new, and then is written to the file, if there is one. False if that fails.
    pub(crate) fn program(&mut self, at: u32, bytes: &[u8]) -> bool
        requires in_chip { at + length bytes.now ≤ chip_size }
        requires in_sector { length bytes.now ≤ sector_size }
        requires awake { is_gone self.old.backing ≡ false }
        ensures cells { cells_image self.new.cells ≡ programmed (cells_image self.old.cells) at bytes.now }
        ensures gone { is_gone self.new.backing ≡ not result }
        ensures memory { is_memory self.new.backing ≡ is_memory self.old.backing }
    {
        self.cells.program(at, bytes);
        self.backing.save(&self.cells, at, bytes.len())
    }

    /// The bytes of a sector become 0xFF, and then are written to the file, if there is one. False if that fails.
    pub(crate) fn erase(&mut self, sector: u32) -> bool
        requires in_chip { sector < sectors }
        requires awake { is_gone self.old.backing ≡ false }
        ensures cells { cells_image self.new.cells ≡ erased (cells_image self.old.cells) sector }
        ensures gone { is_gone self.new.backing ≡ not result }
        ensures memory { is_memory self.new.backing ≡ is_memory self.old.backing }
    {
        self.cells.erase(sector);
        self.backing
            .save(&self.cells, SECTOR_SIZE * sector, SECTOR_SIZE as usize)
    }
}
