//! The work of an event on a chip, by the operations that it makes.

use crate::costs::Costs;
use dg_events::add_one;
use dg_meter::{Kind, Operation, Region, Tally};
use dg_mote_cost::{NO_WORK, ONE_PUT, Work, add};
use dg_script::Report;

/// The image, its version and its complete pages, as the last `have` line reports them.
fn pages_told(reports: &[Report]) -> Option<(u8, u32, u8)> {
    let mut told = None;
    for report in reports {
        if let Report::Have {
            image,
            version,
            pages,
            ..
        } = report
        {
            told = Some((*image, *version, *pages));
        }
    }
    told
}

impl Costs {
    /// How many pages became complete in an event: the gates that were finished, and an interrupted one that took effect.
    fn sealed(
        &self,
        mote: u8,
        taken: bool,
        gates: u64,
        cut: Option<Operation>,
        reports: &[Report],
    ) -> u64 {
        let Some(last) = cut else {
            return gates;
        };
        if last.region != Region::Head || last.kind != Kind::Program || last.bytes != 1 {
            return gates;
        }
        let Some((image, version, pages)) = pages_told(reports) else {
            return gates;
        };
        let before = match self.pages.kept(mote, image) {
            Some(have) if !taken && have.version == version => u64::from(have.done),
            _ => 0,
        };
        u64::from(pages).saturating_sub(before).max(gates)
    }

    /// Counts an event of this kind at the mote with this index, if it made just one operation, which put a packet into a page.
    /// Answers whether it did.
    #[inline(always)]
    pub fn note_one_put(&mut self, index: usize, kind: usize, after: &Tally) -> bool {
        if self.operations.len() <= index
            || after.operations.wrapping_sub(self.operations[index]) != 1
            || after.programs.page.count == self.page_programs[index]
        {
            return false;
        }
        self.note_made(index, after);
        add_one(&mut self.hot[index].flash_events, kind);
        true
    }

    /// Counts the work of an event on a mote's chip.
    pub fn note_work(
        &mut self,
        mote: u8,
        kind: usize,
        after: &Tally,
        off: bool,
        reports: &[Report],
    ) -> Work {
        let index = usize::from(mote);
        if self.operations.len() <= index || self.operations[index] == after.operations {
            return NO_WORK;
        }
        if !off && self.note_one_put(index, kind, after) {
            return ONE_PUT;
        }
        self.note_all_work(mote, kind, after, off, reports)
    }

    /// The same, where the work is not just one packet.
    #[inline(never)]
    fn note_all_work(
        &mut self,
        mote: u8,
        kind: usize,
        after: &Tally,
        off: bool,
        reports: &[Report],
    ) -> Work {
        let index = usize::from(mote);
        self.settle_puts(index, kind, after);
        if self.motes.len() <= index {
            return NO_WORK;
        }
        let cut = if off { after.last } else { None };
        let taken = self.motes[index].tally.headers < after.headers;
        let mut work = self.motes[index].all_work(after, cut);
        work.sealed = self.sealed(mote, taken, work.sealed, cut, reports);
        let cost = &mut self.motes[index];
        cost.sealed = cost.sealed.saturating_add(work.sealed);
        work
    }

    /// Takes over the operations that were noted since those of the tally, and counts those of an event of this kind.
    fn settle_puts(&mut self, index: usize, kind: usize, after: &Tally) {
        if self.motes.len() <= index || self.operations.len() <= index {
            return;
        }
        let made = after.operations.saturating_sub(self.operations[index]);
        add(&mut self.hot[index].flash_events, kind, made);
        self.motes[index].tally.programs.page.count = self.page_programs[index];
        self.note_made(index, after);
    }
}
