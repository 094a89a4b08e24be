//! The work of an event on a chip, by the operations that it makes.

use crate::mote::MoteCost;
use dg_events::add_one;
use dg_meter::{Kind, Operation, Region, Tally};

/// The programs by which a page is copied.
const COPY_PROGRAMS: u64 = 8;

/// The programs of a control sector by which a commit is made.
const COMMIT_PROGRAMS: u64 = 2;

/// The work of an event on a chip.
#[derive(Clone, Copy)]
pub struct Work {
    pub puts: u64,
    pub sealed: u64,
    pub begun: bool,
    pub copied: bool,
    pub any: bool,
}

/// No operation was made.
pub const NO_WORK: Work = Work {
    puts: 0,
    sealed: 0,
    begun: false,
    copied: false,
    any: false,
};

/// A packet was put into a page.
pub const ONE_PUT: Work = Work {
    puts: 1,
    sealed: 0,
    begun: false,
    copied: false,
    any: true,
};

/// How many operations of a kind were made in a region and not interrupted.
fn finished(
    kind: Kind,
    region: Region,
    before: &Tally,
    after: &Tally,
    cut: Option<Operation>,
) -> u64 {
    let made = after
        .of(kind)
        .at(region)
        .since(before.of(kind).at(region))
        .count;
    match cut {
        Some(last) if last.kind == kind && last.region == region => made.saturating_sub(1),
        _ => made,
    }
}

/// Whether an operation belongs to a commit.
fn in_commit(operation: Operation) -> bool {
    operation.region == Region::Ledger || operation.region == Region::Control
}

/// Whether an operation programs the header of a slot that is taken, and not a gate.
fn is_header(operation: Operation) -> bool {
    operation.region == Region::Head && operation.kind == Kind::Program && operation.bytes != 1
}

/// How many of the headers were finished.
fn finished_headers(headers: u64, cut: Option<Operation>) -> u64 {
    match cut {
        Some(last) => {
            if is_header(last) {
                return headers.saturating_sub(1);
            }
            headers
        }
        None => headers,
    }
}

/// How many takes were finished, the last commit of which may be interrupted.
fn finished_takes(headers: u64, cut: Option<Operation>) -> u64 {
    match cut {
        Some(last) => {
            if is_header(last) || in_commit(last) {
                return 0;
            }
            headers
        }
        None => headers,
    }
}

impl MoteCost {
    /// Counts the operations of an event, the last of which was interrupted if there is a cut.
    pub fn all_work(&mut self, after: &Tally, cut: Option<Operation>) -> Work {
        let before = self.tally;
        let control = finished(Kind::Program, Region::Control, &before, after, cut);
        let ledger = finished(Kind::Program, Region::Ledger, &before, after, cut);
        let copies = finished(Kind::Program, Region::Program, &before, after, cut);
        let puts = finished(Kind::Program, Region::Page, &before, after, cut);
        let begun = finished(Kind::Erase, Region::Page, &before, after, None);
        let heads = finished(Kind::Program, Region::Head, &before, after, cut);
        let headers = after.headers.saturating_sub(before.headers);
        self.note_commits(control, ledger, cut);
        self.takes = self.takes.saturating_add(finished_takes(headers, cut));
        self.begun = self.begun.saturating_add(begun);
        self.copied = self.copied.saturating_add(copies / COPY_PROGRAMS);
        self.tally = *after;
        Work {
            puts,
            sealed: heads.saturating_sub(finished_headers(headers, cut)),
            begun: 0 < begun,
            copied: 0 < copies,
            any: true,
        }
    }

    /// Counts commits by the finished programs of control sectors and of the ledger.
    fn note_commits(&mut self, control: u64, ledger: u64, cut: Option<Operation>) {
        let mut commits = control / COMMIT_PROGRAMS;
        if let Some(last) = cut {
            self.note_cut(last);
            if last.region == Region::Ledger {
                commits = commits.saturating_sub(1);
            }
            if in_commit(last) {
                self.torn = self.torn.saturating_add(1);
            }
        }
        self.commits = self.commits.saturating_add(commits);
        self.handovers = self.handovers.saturating_add(ledger);
    }

    fn note_cut(&mut self, last: Operation) {
        match last.kind {
            Kind::Program => add_one(&mut self.cut_programs, last.region as usize),
            Kind::Erase => add_one(&mut self.cut_erases, last.region as usize),
        }
    }
}
