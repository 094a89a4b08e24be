//! How many of something there were, and their bytes, in each part of a chip.
ghost use Rattle.std.specs.Prelude.{◌≡◌};
ghost use Rattle.dg_nor.specs.Device.{PartsRise};
ghost use Rattle.dg_meter.specs.Shares.{no_share, no_shares, share_at, share_noted, counts_in};

use crate::region::Region;
use crate::share::Share;

/// How many of something there were, and their bytes, in each part of a chip.
#[derive(Clone, Copy, Debug, PartialEq, Eq)]
pub struct Shares {
    pub ledger: Share,
    pub control: Share,
    pub program: Share,
    pub head: Share,
    pub page: Share,
}

impl Shares {
    /// Nothing was counted.
    pub fn none() -> Shares
        ensures { result ≡ no_shares }
    {
        let none = Share::none();
        Shares {
            ledger: none,
            control: none,
            program: none,
            head: none,
            page: none,
        }
    }

    /// How many there were in a part, and their bytes.
    pub fn at(&self, region: Region) -> Share
        ensures { result ≡ share_at self.now region }
    {
        match region {
            Region::Ledger => self.ledger,
            Region::Control => self.control,
            Region::Program => self.program,
            Region::Head => self.head,
            Region::Page => self.page,
        }
    }

    /// One more in a part, of this many bytes.
    pub fn note(&mut self, region: Region, bytes: usize)
        ensures noted { self.new ≡ share_noted self.old region bytes }
        ensures rises { PartsRise 1 (counts_in self.old) (counts_in self.new) }
    {
        match region {
            Region::Ledger => self.ledger = self.ledger.and(bytes),
            Region::Control => self.control = self.control.and(bytes),
            Region::Program => self.program = self.program.and(bytes),
            Region::Head => self.head = self.head.and(bytes),
            Region::Page => self.page = self.page.and(bytes),
        }
    }
}
