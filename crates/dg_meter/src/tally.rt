//! The operations that were made on a chip.
ghost use Rattle.std.specs.Prelude.{◌≡◌, ◌≢◌, length, Some};
ghost use Rattle.dg_nor.specs.Sizes.{sector_size};
ghost use Rattle.dg_nor.specs.Device.{PartsRise};
ghost use Rattle.dg_meter.specs.Shares.{capped_sum};
ghost use Rattle.dg_meter.specs.declared.tally.Kind.TheVariants.{Program};
ghost use Rattle.dg_meter.specs.Tallies.{Erased, Programmed, NoOperations, shares_of, counts_of};

use crate::region::Region;
use crate::shares::Shares;
use dg_nor::SECTOR_SIZE;
use dg_slot::HEADER_SIZE;

/// How many slots a chip has.
pub const SLOTS: usize = dg_object::SLOTS as usize;

/// The kind of an operation.
#[derive(Clone, Copy, Debug, PartialEq, Eq)]
pub enum Kind {
    Program,
    Erase,
}

/// An operation.
#[derive(Clone, Copy, Debug, PartialEq, Eq)]
pub struct Operation {
    pub kind: Kind,
    pub region: Region,
    pub sector: u32,
    pub bytes: usize,
}

/// The operations that were made on a chip since its meter was made.
#[derive(Clone, Copy, Debug, PartialEq, Eq)]
pub struct Tally {
    /// How many there were, of both kinds together.
    pub operations: u64,
    pub programs: Shares,
    pub erases: Shares,
    /// The last one.
    pub last: Option<Operation>,
    /// The headers that were written when slots were taken.
    pub headers: u64,
}

impl Tally {
    /// No operation was made.
    pub fn none() -> Tally
        ensures { NoOperations result }
    {
        Tally {
            operations: 0,
            programs: Shares::none(),
            erases: Shares::none(),
            last: None,
            headers: 0,
        }
    }

    /// The operations of a kind.
    pub fn of(&self, kind: Kind) -> &Shares
        ensures { result.now ≡ shares_of self.now kind }
    {
        match kind {
            Kind::Program => &self.programs,
            Kind::Erase => &self.erases,
        }
    }

    /// An erase was made.
    pub fn erase(&mut self, sector: u32)
        ensures is { Erased sector self.old self.new }
        ensures rises { PartsRise 1 (counts_of self.old) (counts_of self.new) }
    {
        let region = Region::of(sector);
        self.operations = self.operations.saturating_add(1);
        self.erases.note(region, SECTOR_SIZE as usize);
        self.last = Some(Operation {
            kind: Kind::Erase,
            region,
            sector,
            bytes: SECTOR_SIZE as usize,
        });
    }

    /// A program was made. One of a whole sector is not counted: it is what a fuse leaves of an erase that it interrupts,
    /// and that erase was counted.
    #[inline(never)]
    pub fn program(&mut self, at: u32, bytes: &[u8])
        ensures is { Programmed at (length bytes.now) self.old self.new }
        ensures rises { length bytes.now ≢ sector_size → PartsRise 1 (counts_of self.old) (counts_of self.new) }
    {
        if bytes.len() == SECTOR_SIZE as usize {
            return;
        }
        let sector = at / SECTOR_SIZE;
        let region = Region::of(sector);
        if region != Region::Page {
            self.program_outside_pages(at, bytes.len());
            return;
        }
        self.programs.note(Region::Page, bytes.len());
        self.note_program(region, sector, bytes.len());
    }

    /// A program was made outside the pages of slots, where few are made.
    #[inline(never)]
    fn program_outside_pages(&mut self, at: u32, bytes: usize)
        requires { bytes ≢ sector_size }
        ensures is { Programmed at bytes self.old self.new }
        ensures rises { PartsRise 1 (counts_of self.old) (counts_of self.new) }
    {
        let sector = at / SECTOR_SIZE;
        let region = Region::of(sector);
        self.programs.note(region, bytes);
        self.note_program(region, sector, bytes);
        if region == Region::Head && bytes == HEADER_SIZE {
            self.headers = self.headers.saturating_add(1);
        }
    }

    /// The last operation was a program.
    #[inline(always)]
    fn note_program(&mut self, region: Region, sector: u32, bytes: usize)
        ensures operations { self.new.operations ≡ capped_sum self.old.operations 1 }
        ensures last { self.new.last ≡ Some (record { kind = Program; region = region; sector = sector; bytes = bytes }) }
        ensures programs { self.new.programs ≡ self.old.programs }
        ensures erases { self.new.erases ≡ self.old.erases }
        ensures headers { self.new.headers ≡ self.old.headers }
    {
        self.operations = self.operations.saturating_add(1);
        self.last = Some(Operation {
            kind: Kind::Program,
            region,
            sector,
            bytes,
        });
    }
}
