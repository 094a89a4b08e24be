//! The bytes of a chip as a device that is only read.
ghost use Rattle.std.specs.Prelude.{◌≡◌, ◌+◌, ◌%◌, ◌<◌, ◌≤◌, ◌++◌, ◌-◌, false, true, length, IfOk, OnOk, OnErr};
ghost use Rattle.dg_words.specs.Cells.{part};
ghost use Rattle.dg_nor.specs.Sizes.{sectors, sector_size, chip_size};
ghost use Rattle.dg_nor.specs.Chip.{IsChip, blank, programmed, erased, CutProgram, CutErase};
ghost use Rattle.dg_nor.specs.Device.{Ran, Halts};
ghost use Rattle.dg_slot.specs.Pages.{page_in};

use dg_nor::{CHIP_SIZE, Nor, SECTOR_SIZE, Stopped};
use dg_object::PAGE_SIZE;
use std::alloc::{AllocError, Global};

/// A chip that is only read: no call changes a byte of it. A program or an erase stops it.
#[derive(Drop)]
pub struct StillChip {
    cells: Vec<u8>,
    stopped: bool,
    faults: u64,
    ghost chip: { IsChip cells.items },
}

impl StillChip {
    ghost use Rattle.dg_inspect.specs.Chip.{still_device};

    /// The chip of these bytes. Those that an older chip lacks are 0xFF.
    pub fn new(alloc: Global, bytes: &[u8]) -> Result<StillChip, AllocError>
        requires { length bytes.now ≤ chip_size }
        ensures image { IfOk result (λ c. (still_device c).image ≡ bytes.now ++ blank (chip_size - length bytes.now)) }
        ensures awake { IfOk result (λ c. (still_device c).stopped ≡ false) }
    {
        let mut cells = Vec::with_capacity(alloc, CHIP_SIZE as usize)?;
        cells.extend_from_slice(bytes)?;
        cells.resize(CHIP_SIZE as usize, 0xFF)?;
        Ok(StillChip {
            cells,
            stopped: false,
            faults: 0,
        })
    }

    /// The page in a sector.
    pub fn page(&self, index: u32) -> &[u8]
        requires { index < sectors }
        ensures { result.now ≡ page_in (still_device self.now).image index }
    {
        let from = (SECTOR_SIZE * index) as usize;
        &self.cells[from..from + PAGE_SIZE]
    }

    /// Stops the chip.
    fn stop(&mut self)
        ensures image { (still_device self.new).image ≡ (still_device self.old).image }
        ensures halts { Halts 1 0 (still_device self.old) (still_device self.new) }
    {
        if !self.stopped {
            self.stopped = true;
            self.faults = self.faults.saturating_add(1);
        }
    }
}

impl Nor for StillChip {
    ghost use Rattle.dg_inspect.specs.Chip.{still_device};

    ghost device = { still_device };

    fn is_stopped(&self) -> bool {
        self.stopped
    }

    fn read(&mut self, at: u32, into: &mut [u8]) -> Result<(), Stopped>
        requires { at + length into.old ≤ chip_size }
        ensures bytes { OnOk result (into.new ≡ part (still_device self.old).image at (length into.old)) }
        ensures same { still_device self.new ≡ still_device self.old }
        ensures cause { OnErr result ((still_device self.old).stopped ≡ true) }
        ensures awake { OnOk result ((still_device self.old).stopped ≡ false) }
    {
        if self.stopped {
            return Err(Stopped);
        }
        let from = at as usize;
        into.copy_from_slice(&self.cells[from..from + into.len()]);
        Ok(())
    }

    fn program(&mut self, at: u32, bytes: &[u8]) -> Result<(), Stopped>
        requires some { 0 < length bytes.now }
        requires in_chip { at < chip_size }
        requires in_sector { at % sector_size + length bytes.now ≤ sector_size }
        ensures never { OnOk result ⊥ }
        ensures same_image { (still_device self.new).image ≡ (still_device self.old).image }
        ensures stopped { OnErr result (Halts 1 0 (still_device self.old) (still_device self.new)) }
        ensures cut { OnErr result (CutProgram (still_device self.old).image at bytes.now (still_device self.new).image) }
    {
        self.stop();
        Err(Stopped)
    }

    fn erase(&mut self, sector: u32) -> Result<(), Stopped>
        requires { sector < sectors }
        ensures never { OnOk result ⊥ }
        ensures same_image { (still_device self.new).image ≡ (still_device self.old).image }
        ensures stopped { OnErr result (Halts 1 0 (still_device self.old) (still_device self.new)) }
        ensures cut { OnErr result (CutErase (still_device self.old).image sector (still_device self.new).image) }
    {
        self.stop();
        Err(Stopped)
    }

    ghost is_chip = { λ c. c.chip };
}
