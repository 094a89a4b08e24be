//! The rows of a chip.
ghost use Rattle.std.specs.Prelude.{◌≡◌, ◌++◌, [], IfOk, OnOk};
ghost use Rattle.dg_cost_text.specs.Moments.{AddsNoMoment};
ghost use Rattle.dg_cost_text.specs.Table.{table_of_rows};
ghost use Rattle.dg_cost.specs.EventRows.{HasRows};
ghost use Rattle.dg_cost.specs.FlashRows.{rows_of_kind, flash_run_rows};

use dg_cost_text::{Part, Rows};
use dg_events::EVENTS;
use dg_meter::{Kind, REGIONS, Region, Share, Shares, Tally};
use dg_mote_cost::{HotCost, MoteCost};
use std::alloc::{AllocError, Global};

/// The regions of the rows, each with one or two regions of a meter.
fn regions() -> [(&'static str, Region, Option<Region>); 5] {
    [
        ("ledger", Region::Ledger, None),
        ("control", Region::Control, None),
        ("program", Region::Program, None),
        ("slots", Region::Page, Some(Region::Head)),
        ("heads", Region::Head, None),
    ]
}

fn region_share(shares: &Shares, one: Region, other: Option<Region>) -> Share {
    let share = shares.at(one);
    match other {
        Some(other) => share.with(shares.at(other)),
        None => share,
    }
}

fn count_of(counts: &[u64; REGIONS], one: Region, other: Option<Region>) -> u64 {
    let count = counts[one as usize];
    match other {
        Some(other) => count.saturating_add(counts[other as usize]),
        None => count,
    }
}

/// The operations of a kind in each part of a chip, without those that were made earlier.
fn push_kind(
    rows: &mut Rows,
    before: &str,
    earlier: &Shares,
    made: &Shares,
) -> Result<(), AllocError>
    ensures { OnOk result (table_of_rows rows.new ≡ table_of_rows rows.old ++ rows_of_kind before.now earlier.now made.now) }
{
    rows.share(before, "ledger", made.ledger.since(earlier.ledger))?;
    rows.share(before, "control", made.control.since(earlier.control))?;
    rows.share(before, "program", made.program.since(earlier.program))?;
    let slots = made.page.with(made.head);
    rows.share(
        before,
        "slots",
        slots.since(earlier.page.with(earlier.head)),
    )?;
    rows.share(before, "heads", made.head.since(earlier.head))?;
    Ok(())
}

/// The starts that copied into program memory, the operations that formatted a mote's chip, and those of the run.
pub fn flash_rows(
    alloc: Global,
    copied: u64,
    formatted: &Tally,
    settled: &Tally,
) -> Result<Rows, AllocError>
    ensures run { IfOk result (λ rows. HasRows (flash_run_rows formatted.now settled.now) (table_of_rows rows)) }
    ensures moments { IfOk result (λ rows. AddsNoMoment [] (table_of_rows rows)) }
{
    let none = Shares::none();
    let mut rows = Rows::new(alloc);
    rows.sum("starts.copied", copied)?;
    push_kind(
        &mut rows,
        "flash.format.program.",
        &none,
        &formatted.programs,
    )?;
    push_kind(&mut rows, "flash.format.erase.", &none, &formatted.erases)?;
    push_kind(
        &mut rows,
        "flash.run.program.",
        &formatted.programs,
        &settled.programs,
    )?;
    push_kind(
        &mut rows,
        "flash.run.erase.",
        &formatted.erases,
        &settled.erases,
    )?;
    Ok(rows)
}

fn push_cut(rows: &mut Rows, kind: &str, counts: &[u64; REGIONS]) -> Result<(), AllocError>
    ensures { OnOk result (AddsNoMoment (table_of_rows rows.old) (table_of_rows rows.new)) }
{
    for (name, one, other) in regions() {
        let parts = [Part::Text("flash.cut."), Part::Text(kind), Part::Text(name)];
        rows.push_ended(&parts, ".count", count_of(counts, one, other), true)?;
    }
    Ok(())
}

/// The rows of a mote's chip.
pub fn push_chip(rows: &mut Rows, cost: &MoteCost, hot: &HotCost) -> Result<(), AllocError>
    ensures { OnOk result (AddsNoMoment (table_of_rows rows.old) (table_of_rows rows.new)) }
{
    push_cut(rows, "program.", &cost.cut_programs)?;
    push_cut(rows, "erase.", &cost.cut_erases)?;
    rows.each("flash.event.", &EVENTS, &hot.flash_events, ".count")?;
    rows.sum("pages.begun", cost.begun)?;
    rows.sum("pages.sealed", cost.sealed)?;
    rows.sum("pages.copied", cost.copied)?;
    rows.sum("takes", cost.takes)?;
    push_commits(rows, cost)?;
    Ok(())
}

fn push_commits(rows: &mut Rows, cost: &MoteCost) -> Result<(), AllocError>
    ensures { OnOk result (AddsNoMoment (table_of_rows rows.old) (table_of_rows rows.new)) }
{
    let end = match cost.room_end {
        Some(room) => room,
        None => cost.room_begin.saturating_sub(cost.commits),
    };
    let spent = cost.room_begin.saturating_sub(end);
    let torn = spent.saturating_sub(cost.commits);
    rows.sum("commits.made", cost.commits)?;
    rows.sum("commits.cut", torn)?;
    rows.sum("commits.free", cost.torn.saturating_sub(torn))?;
    rows.sum("handovers", cost.handovers)?;
    rows.own("room.begin", cost.room_begin)?;
    rows.own("room.end", end)?;
    Ok(())
}

/// Adds the operations, the bytes programmed and the erases of a mote.
pub fn with_flash(sums: (u64, u64, u64), formatted: &Tally, settled: &Tally) -> (u64, u64, u64) {
    let (mut count, mut bytes, mut erases) = sums;
    for (_, one, other) in regions() {
        if one != Region::Head {
            let programs = made_since(formatted, settled, Kind::Program, one, other);
            let erased = made_since(formatted, settled, Kind::Erase, one, other);
            count = count
                .saturating_add(programs.count)
                .saturating_add(erased.count);
            bytes = bytes.saturating_add(programs.bytes);
            erases = erases.saturating_add(erased.count);
        }
    }
    (count, bytes, erases)
}

/// The operations of a mote's chip in the run.
fn made_since(
    formatted: &Tally,
    settled: &Tally,
    kind: Kind,
    one: Region,
    other: Option<Region>,
) -> Share {
    let made = region_share(settled.of(kind), one, other);
    made.since(region_share(formatted.of(kind), one, other))
}
