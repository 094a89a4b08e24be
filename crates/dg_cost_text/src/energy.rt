//! The energy that a mote takes by a model.

use crate::model::Model;
use crate::rows::Rows;

/// The milliseconds of a second.
const SECOND: u128 = 1_000;

/// What a model is applied to.
#[derive(Clone, Copy)]
struct Spent {
    sent: u64,
    heard: u64,
    programmed: u64,
    erased: u64,
    on_ms: u64,
}

/// What was spent by these rows: without formatting, and with the frames that came from outside.
fn spent_by(rows: &Rows) -> Spent {
    let heard = rows.sum_of("heard.", ".bytes");
    let outside = rows.sum_of("outside.", ".bytes");
    Spent {
        sent: rows.sum_of("sent.", ".bytes"),
        heard: heard.saturating_add(outside),
        programmed: bytes_programmed(rows),
        erased: sectors_erased(rows),
        on_ms: rows.value("on.ms"),
    }
}

/// The bytes that were programmed: those of headers are among those of slots.
fn bytes_programmed(rows: &Rows) -> u64 {
    let ledger = rows.value("flash.run.program.ledger.bytes");
    let control = rows.value("flash.run.program.control.bytes");
    let program = rows.value("flash.run.program.program.bytes");
    let slots = rows.value("flash.run.program.slots.bytes");
    ledger
        .saturating_add(control)
        .saturating_add(program)
        .saturating_add(slots)
}

/// The sectors that were erased.
fn sectors_erased(rows: &Rows) -> u64 {
    let ledger = rows.value("flash.run.erase.ledger.count");
    let control = rows.value("flash.run.erase.control.count");
    let program = rows.value("flash.run.erase.program.count");
    let slots = rows.value("flash.run.erase.slots.count");
    ledger
        .saturating_add(control)
        .saturating_add(program)
        .saturating_add(slots)
}

/// The picojoules of this many of something.
fn part(count: u64, each: u64) -> u128 {
    u128::from(count) * u128::from(each)
}

impl Model {
    /// The picojoules that a mote takes. Those of its time are rounded down.
    pub(crate) fn energy(&self, rows: &Rows) -> u128 {
        let spent = spent_by(rows);
        part(spent.on_ms, self.on)
            .checked_div(SECOND)
            .unwrap_or(0)
            .saturating_add(part(spent.sent, self.sent))
            .saturating_add(part(spent.heard, self.heard))
            .saturating_add(part(spent.programmed, self.programmed))
            .saturating_add(part(spent.erased, self.erased))
    }

    /// The picojoules of all motes.
    pub(crate) fn energy_of_all(&self, motes: &[Rows]) -> u128 {
        let mut energy: u128 = 0;
        for rows in motes {
            energy = energy.saturating_add(self.energy(rows));
        }
        energy
    }
}
