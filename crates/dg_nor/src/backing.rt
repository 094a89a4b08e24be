//! What backs a board besides memory.
ghost use Rattle.std.specs.Prelude.{◌≡◌, ◌+◌, ◌≤◌, false, not, length, IfSome, OnOk};
ghost use Rattle.std.specs.Option.{option_map};
ghost use Rattle.std.specs.Bool.{OnTrue};
ghost use Rattle.dg_words.specs.Cells.{part, overwritten};
ghost use Rattle.dg_nor.specs.Sizes.{sector_size, chip_size};
ghost use Rattle.dg_nor.specs.Backing.{cells_image, file_bytes, is_gone, is_memory, mirrored_bytes, fault_of};

use crate::cells::Cells;
use crate::files::{ChipFile, FileFault};
use crate::sectors::sector_buffer;

/// Where the bytes of a board are kept besides memory.
#[derive(Drop)]
pub(crate) enum Backing {
    /// Nowhere.
    Memory,
    /// In this file too.
    Mirrored(ChipFile),
    /// In a file that failed, for this reason.
    Gone(FileFault),
}

impl Backing {
    pub(crate) fn is_gone(&self) -> bool
        ensures { result ≡ is_gone self.now }
    {
        match self {
            Backing::Memory => false,
            Backing::Mirrored(_) => false,
            Backing::Gone(_) => true,
        }
    }

    /// Why its file is gone.
    pub(crate) fn file_fault(&self) -> Option<FileFault>
        ensures { result ≡ fault_of self.now }
    {
        match self {
            Backing::Memory => None,
            Backing::Mirrored(_) => None,
            Backing::Gone(fault) => Some(*fault),
        }
    }

    /// Writes a range of cells at their place in the file, if there is one. If that fails, the file is gone, and the
    /// result is false.
    pub(crate) fn save(&mut self, cells: &Cells, at: u32, count: usize) -> bool
        requires in_chip { at + count ≤ chip_size }
        requires in_sector { count ≤ sector_size }
        requires awake { is_gone self.old ≡ false }
        requires whole { IfSome (mirrored_bytes self.old) (λ bytes. length bytes ≡ chip_size) }
        ensures written { OnTrue result (mirrored_bytes self.new
            ≡ option_map (λ bytes. overwritten bytes at (part (cells_image cells.now) at count)) (mirrored_bytes self.old)) }
        ensures gone { is_gone self.new ≡ not result }
        ensures memory { is_memory self.new ≡ is_memory self.old }
    {
        match self {
            Backing::Mirrored(_) => self.save_in_file(cells, at, count),
            Backing::Memory | Backing::Gone(_) => true,
        }
    }

    /// The same, if there is a file.
    #[inline(never)]
    fn save_in_file(&mut self, cells: &Cells, at: u32, count: usize) -> bool
        requires in_chip { at + count ≤ chip_size }
        requires in_sector { count ≤ sector_size }
        requires awake { is_gone self.old ≡ false }
        requires whole { IfSome (mirrored_bytes self.old) (λ bytes. length bytes ≡ chip_size) }
        ensures written { OnTrue result (mirrored_bytes self.new
            ≡ option_map (λ bytes. overwritten bytes at (part (cells_image cells.now) at count)) (mirrored_bytes self.old)) }
        ensures gone { is_gone self.new ≡ not result }
        ensures memory { is_memory self.new ≡ is_memory self.old }
    {
        if let Backing::Mirrored(file) = self {
            if let Err(fault) = write_range(file, cells, at, count) {
                *self = Backing::Gone(fault);
                return false;
            }
        }
        true
    }
}

/// Writes a range of cells at their place in the file.
#[inline(never)]
fn write_range(file: &mut ChipFile, cells: &Cells, at: u32, count: usize) -> Result<(), FileFault>
    requires in_chip { at + count ≤ chip_size }
    requires in_sector { count ≤ sector_size }
    requires within { at ≤ length (file_bytes file.old) }
    ensures { OnOk result
        (file_bytes file.new ≡ overwritten (file_bytes file.old) at (part (cells_image cells.now) at count)) }
{
    let mut buffer = sector_buffer();
    let range = &mut buffer[..count];
    cells.read(at, range);
    file.write(at, range)
}
