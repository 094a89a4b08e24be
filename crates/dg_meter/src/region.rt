//! Where on a chip an operation is made.
ghost use Rattle.std.specs.Prelude.{◌≡◌};
ghost use Rattle.dg_meter.specs.Regions.{region_of, slot_part};

use dg_slot::{FIRST_SLOT, PROGRAM_SECTOR, SLOT_SECTORS};

/// A part of a chip.
#[derive(Clone, Copy, Debug, PartialEq, Eq)]
pub enum Region {
    Ledger,
    Control,
    /// Program memory.
    Program,
    /// The headers of slots.
    Head,
    /// The pages of slots.
    Page,
}

/// How many parts there are.
pub const REGIONS: usize = 5;

impl Region {
    /// The part that a sector belongs to.
    #[inline(always)]
    pub fn of(sector: u32) -> Region
        ensures { result ≡ region_of sector }
    {
        if FIRST_SLOT <= sector {
            slot_part(sector - FIRST_SLOT)
        } else if sector == 0 {
            Region::Ledger
        } else if sector < PROGRAM_SECTOR {
            Region::Control
        } else {
            Region::Program
        }
    }
}

/// The part of a sector of slots, counted from the first of them.
fn slot_part(sector: u32) -> Region
    ensures { result ≡ slot_part sector }
{
    if sector % SLOT_SECTORS == 0 {
        Region::Head
    } else {
        Region::Page
    }
}
