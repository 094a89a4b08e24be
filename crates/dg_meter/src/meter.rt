//! A chip whose programs and erases are counted.
ghost use Rattle.std.specs.Prelude.{◌≡◌, ◌+◌, ◌%◌, ◌<◌, ◌≤◌, ℕ, true, false, Some, length, OnOk, OnErr};
ghost use Rattle.dg_words.specs.Cells.{part};
ghost use Rattle.dg_nor.specs.Sizes.{sectors, sector_size, chip_size};
ghost use Rattle.dg_nor.specs.Chip.{programmed, erased, CutProgram, CutErase};
ghost use Rattle.dg_nor.specs.Device.{Ran, Halts, Refilled, RefillHalts, Took, taken_more};
ghost use Rattle.dg_meter.specs.Pages.{slots, ArePages};

use crate::known::{note_erase, note_program, read_pages};
use crate::tally::{SLOTS, Tally};
use dg_nor::{Nor, Stopped};

/// A device over another one, to which it passes every call. It counts the programs and erases that are made, and knows how many
/// pages slots have.
#[derive(Drop)]
pub struct Metered<N: Nor> {
    inner: N,
    tally: Tally,
    /// How many pages each slot has by its header, unless the chip is stopped.
    known: [u8; SLOTS],
    ghost right: { (N.device inner).stopped ≡ false → ArePages known (N.device inner).image },
}

impl<N: Nor> Metered<N> {
    ghost use Rattle.std.specs.Prelude.{◌⊎◌, slice_index};
    ghost use Rattle.dg_nor.specs.Reads.{Looked, ReadStopped};
    ghost use Rattle.dg_meter.specs.Meters.{chip_of, tally_of};
    ghost use Rattle.dg_meter.specs.Tallies.{NoOperations};
    ghost use Rattle.dg_meter.specs.Pages.{pages_at};

    /// Counts from now on. It reads from the chip how many pages each slot has.
    pub fn new(mut inner: N) -> Metered<N>
        ensures reads { Looked (N.device inner) (N.device (chip_of result))
            ⊎ ReadStopped (N.device inner) (N.device (chip_of result)) }
        ensures took { Took slots (N.device inner) (N.device (chip_of result)) }
        ensures none { NoOperations (tally_of result) }
    {
        let known = match read_pages(&mut inner) {
            Ok(known) => known,
            Err(Stopped) => [0; SLOTS],
        };
        Metered {
            inner,
            tally: Tally::none(),
            known,
        }
    }

    /// The operations that were made since then.
    pub fn tally(&self) -> &Tally
        ensures { result.now ≡ tally_of self.now }
    {
        &self.tally
    }

    /// How many pages a slot has by its header, unless the chip is stopped.
    pub fn pages(&self, slot: usize) -> u8
        ensures { slot < slots → (N.device (chip_of self.now)).stopped ≡ false
            → slice_index (N.device (chip_of self.now)).image (pages_at slot) ≡ result }
    {
        if SLOTS <= slot {
            return 0;
        }
        self.known[slot]
    }
}

impl<N: Nor> Nor for Metered<N> {
    ghost use Rattle.dg_meter.specs.Meters.{metered_device, tally_of};
    ghost use Rattle.dg_meter.specs.Tallies.{Erased, Programmed};

    ghost device = { metered_device N.device };

    fn is_stopped(&self) -> bool {
        self.inner.is_stopped()
    }

    fn read(&mut self, at: u32, into: &mut [u8]) -> Result<(), Stopped>
        requires { at + length into.old ≤ chip_size }
        ensures bytes { OnOk result (into.new ≡ part (metered_device N.device self.old).image at (length into.old)) }
        ensures ran { OnOk result (Ran 0 (metered_device N.device self.old) (metered_device N.device self.new)) }
        ensures awake { OnOk result ((metered_device N.device self.old).stopped ≡ false) }
        ensures stopped { OnErr result (Halts 0 0 (metered_device N.device self.old) (metered_device N.device self.new)) }
        ensures same_image { (metered_device N.device self.new).image ≡ (metered_device N.device self.old).image }
        ensures gave { OnOk result ((metered_device N.device self.new).taken
            ≡ taken_more (length into.old) (metered_device N.device self.old).taken) }
        ensures took { Took (length into.old) (metered_device N.device self.old) (metered_device N.device self.new) }
        // a read is not an operation
        ensures same_tally { tally_of self.new ≡ tally_of self.old }
    {
        self.inner.read(at, into)
    }

    #[inline(always)]
    fn program(&mut self, at: u32, bytes: &[u8]) -> Result<(), Stopped>
        requires some { 0 < length bytes.now }
        requires in_chip { at < chip_size }
        requires in_sector { at % sector_size + length bytes.now ≤ sector_size }
        ensures image { OnOk result ((metered_device N.device self.new).image
            ≡ programmed (metered_device N.device self.old).image at bytes.now) }
        ensures ran { length bytes.now < sector_size
            → OnOk result (Ran 1 (metered_device N.device self.old) (metered_device N.device self.new)) }
        ensures refilled { length bytes.now ≡ sector_size
            → OnOk result (Refilled (metered_device N.device self.old) (metered_device N.device self.new)) }
        ensures awake { OnOk result ((metered_device N.device self.old).stopped ≡ false) }
        ensures stopped { length bytes.now < sector_size
            → OnErr result (Halts 1 0 (metered_device N.device self.old) (metered_device N.device self.new)) }
        ensures unfilled { length bytes.now ≡ sector_size
            → OnErr result (RefillHalts (metered_device N.device self.old) (metered_device N.device self.new)) }
        ensures cut { OnErr result (CutProgram (metered_device N.device self.old).image at bytes.now
            (metered_device N.device self.new).image) }
        ensures same_taken { (metered_device N.device self.new).taken ≡ (metered_device N.device self.old).taken }
        ensures blows { (metered_device N.device self.old).stopped ≡ false
            → (metered_device N.device self.old).left ≡ Some 0 → (metered_device N.device self.new).blown ≡ true }
        // it is counted if it was made, and only then
        ensures counted { OnOk result (Programmed at (length bytes.now) (tally_of self.old) (tally_of self.new)) }
        ensures uncounted { OnErr result (tally_of self.new ≡ tally_of self.old) }
    {
        self.inner.program(at, bytes)?;
        note_program(&mut self.known, at, bytes);
        self.tally.program(at, bytes);
        Ok(())
    }

    fn erase(&mut self, sector: u32) -> Result<(), Stopped>
        requires { sector < sectors }
        ensures image { OnOk result ((metered_device N.device self.new).image
            ≡ erased (metered_device N.device self.old).image sector) }
        ensures ran { OnOk result (Ran 1 (metered_device N.device self.old) (metered_device N.device self.new)) }
        ensures awake { OnOk result ((metered_device N.device self.old).stopped ≡ false) }
        ensures stopped { OnErr result (Halts 1 0 (metered_device N.device self.old) (metered_device N.device self.new)) }
        ensures cut { OnErr result (CutErase (metered_device N.device self.old).image sector
            (metered_device N.device self.new).image) }
        ensures same_taken { (metered_device N.device self.new).taken ≡ (metered_device N.device self.old).taken }
        ensures blows { (metered_device N.device self.old).stopped ≡ false
            → (metered_device N.device self.old).left ≡ Some 0 → (metered_device N.device self.new).blown ≡ true }
        ensures counted { OnOk result (Erased sector (tally_of self.old) (tally_of self.new)) }
        ensures uncounted { OnErr result (tally_of self.new ≡ tally_of self.old) }
    {
        self.inner.erase(sector)?;
        note_erase(&mut self.known, sector);
        self.tally.erase(sector);
        Ok(())
    }

    ghost is_chip = { λ m. N.is_chip m.inner };
}
