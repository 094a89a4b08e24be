//! What was counted of motes, and of all, as rows.
ghost use Rattle.std.specs.Prelude.{◌≡◌, ◌++◌, [], true, false, ℕ, IfOk, OnOk};
ghost use Rattle.std.specs.Prelude.{if◌then◌else◌, length, slice_get, slice_index_or};
ghost use Rattle.dg_cost_text.specs.Moments.{is_moment_key, summed_table, AddsNoMoment};
ghost use Rattle.dg_cost_text.specs.Table.{table_of_rows};
ghost use Rattle.dg_cost_text.specs.declared.rows.Rows.{Rows};
ghost use Rattle.dg_count.specs.Chips.{no_tally};
ghost use Rattle.dg_count.specs.Ended.{counts_at};
ghost use Rattle.dg_cost.specs.Counting.{IsCountOf, ended_of};
ghost use Rattle.dg_events.specs.Uptimes.{never_on};
ghost use Rattle.dg_cost.specs.EventRows.{rows_of_events, rows_of_starts, rows_of_images, HasCounts, HasRows};
ghost use Rattle.dg_events.specs.FrameCounters.{no_frames, no_outside};
ghost use Rattle.dg_cost.specs.FlashRows.{flash_run_rows};
ghost use Rattle.dg_cost.specs.FrameRows.{HasFrameCounts};
ghost use Rattle.dg_cost.specs.MomentRows.{HasMoments, SumsNoMoment, TellsAll};
ghost use Rattle.dg_cost.specs.TimeRows.{rows_of_power, rows_of_moment};

use crate::flash_rows::{flash_rows, push_chip, with_flash};
use crate::frame_rows::frame_rows;
use crate::moment_rows::{push_all_moments, push_wholes};
use dg_base::Status;
use dg_cost_text::{Counted, Moment, Row, Rows, total_of};
use dg_count::{Counter, EventPlace, tally_at};
use dg_events::{CAUSES, EVENTS, EventCounts, FrameCounter, SENT_KINDS, Uptime, Uptimes};
use dg_meter::{Share, Tally};
use dg_moments::Wholes;
use dg_mote_cost::{HotCost, MoteCost, share_of};
use std::alloc::{AllocError, Global};

/// 1 for a mote that is off.
fn off_end(on: bool) -> u64
    ensures { result ≡ (if on then 0 else 1) }
{
    if on { 0 } else { 1 }
}

/// How long a mote was on up to this moment, and how long it was off.
#[tactic(auto, using(std::proofs::lemmas::List::append_assoc))]
fn push_power(rows: &mut Rows, uptime: &Uptime, ms: u64) -> Result<(), AllocError>
    ensures { OnOk result (table_of_rows rows.new ≡ table_of_rows rows.old ++ rows_of_power uptime.now ms) }
{
    let on = uptime.until(ms);
    rows.sum("on.ms", on)?;
    rows.sum("off.ms", ms.saturating_sub(on))?;
    rows.own("off.end", off_end(uptime.on))?;
    Ok(())
}

/// The events at a mote, refused ones by cause, and cuts.
#[tactic(auto, using(std::proofs::lemmas::List::append_assoc))]
fn push_events(rows: &mut Rows, events: &EventCounts) -> Result<(), AllocError>
    ensures { OnOk result (table_of_rows rows.new ≡ table_of_rows rows.old
        ++ rows_of_events events.now.events events.now.refused events.now.cuts) }
{
    rows.each("events.", &EVENTS, &events.events, "")?;
    rows.each("refused.event.", &CAUSES, &events.refused, "")?;
    rows.sum("cuts", events.cuts)?;
    Ok(())
}

/// The starts of a mote, by what caused them.
#[tactic(auto, using(std::proofs::lemmas::List::append_assoc))]
fn push_starts(rows: &mut Rows, events: &EventCounts) -> Result<(), AllocError>
    ensures { OnOk result (table_of_rows rows.new ≡ table_of_rows rows.old
        ++ rows_of_starts events.now.by_power events.now.by_order events.now.cut_by_power) }
{
    rows.sum("starts.power", events.by_power)?;
    rows.sum("starts.order", events.by_order)?;
    rows.sum("starts.cut.power", events.cut_by_power)?;
    Ok(())
}

/// The starts of a mote, by the image that then runs.
fn push_images(rows: &mut Rows, events: &EventCounts) -> Result<(), AllocError>
    ensures { OnOk result (table_of_rows rows.new ≡ table_of_rows rows.old ++ rows_of_images events.now.of_image) }
{
    let images = ["0", "1", "2", "3", "4", "5", "6"];
    rows.each("starts.image.", &images, &events.of_image, "")?;
    Ok(())
}

/// The rows of starts that did not run an image.
fn failed_rows(alloc: Global, cost: &MoteCost) -> Result<Rows, AllocError>
    ensures { IfOk result (λ rows. AddsNoMoment [] (table_of_rows rows)) }
{
    let mut rows = Rows::new(alloc);
    rows.sum("starts.cut.order", cost.cut_restarts)?;
    rows.sum("starts.none", cost.no_image)?;
    Ok(rows)
}

/// The rows after those of starts.
fn chip_rows(
    alloc: Global,
    mote: usize,
    cost: &MoteCost,
    hot: &HotCost,
    wholes: &Wholes,
) -> Result<Rows, AllocError>
    ensures { IfOk result (λ rows. HasMoments mote wholes.now.moments rows) }
{
    let mut rows = Rows::new(alloc);
    push_chip(&mut rows, cost, hot)?;
    push_wholes(&mut rows, mote, wholes)?;
    Ok(rows)
}

/// All rows of a mote.
fn mote_rows(
    alloc: Global,
    mote: usize,
    cost: &MoteCost,
    hot: &HotCost,
    events: &EventCounts,
    frames: &FrameCounter,
    uptime: &Uptime,
    ms: u64,
    formatted: &Tally,
    settled: &Tally,
    wholes: &Wholes,
) -> Result<Rows, AllocError>
    ensures counts { IfOk result (λ rows. HasCounts events.now (table_of_rows rows)) }
    ensures power { IfOk result (λ rows. HasRows (rows_of_power uptime.now ms) (table_of_rows rows)) }
    ensures frames { IfOk result (λ rows. HasFrameCounts (slice_index_or frames.now.motes mote no_frames)
        (slice_index_or frames.now.outside mote no_outside) (table_of_rows rows)) }
    ensures flash { IfOk result (λ rows. HasRows (flash_run_rows formatted.now settled.now) (table_of_rows rows)) }
    ensures moments { IfOk result (λ rows. HasMoments mote wholes.now.moments rows) }
{
    let counts = frames.at(mote);
    let outside = frames.outside_at(mote);
    let mut rows = Rows::new(alloc);
    push_power(&mut rows, uptime, ms)?;
    push_events(&mut rows, events)?;
    rows.append(frame_rows(alloc, cost, hot, &counts, &outside)?)?;
    push_starts(&mut rows, events)?;
    rows.append(failed_rows(alloc, cost)?)?;
    push_images(&mut rows, events)?;
    rows.append(flash_rows(alloc, cost.starts_copied, formatted, settled)?)?;
    rows.append(chip_rows(alloc, mote, cost, hot, wholes)?)?;
    Ok(rows)
}

/// The sums of rows of motes.
fn push_sums(all: &mut Rows, motes: &[Rows], first: &Rows) -> Result<(), AllocError>
    ensures { OnOk result (AddsNoMoment [] (summed_table first.now)
        → AddsNoMoment (table_of_rows all.old) (table_of_rows all.new)) }
{
    for index in 0..first.rows.len() {
        push_sum(all, motes, &first.rows[index], index)?;
    }
    Ok(())
}

/// The sum of this row, which stands at this index, if it is one of those that are summed.
fn push_sum(all: &mut Rows, motes: &[Rows], row: &Row, index: usize) -> Result<(), AllocError>
    ensures { OnOk result ((row.now.summed ≡ true → is_moment_key row.now.key.items ≡ false)
        → AddsNoMoment (table_of_rows all.old) (table_of_rows all.new)) }
{
    if !row.summed {
        return Ok(());
    }
    all.push_as(row, total_of(motes, index))?;
    Ok(())
}

/// The frames and the operations of all motes.
fn push_totals(all: &mut Rows, counter: &Counter) -> Result<(), AllocError>
    ensures { OnOk result (AddsNoMoment (table_of_rows all.old) (table_of_rows all.new)) }
{
    let mut sent = Share::none();
    let mut heard = Share::none();
    for frames in &counter.frames.motes {
        for kind in 0..SENT_KINDS {
            sent = sent.with(share_of(kind, frames.sent[kind]));
            heard = heard.with(share_of(kind, frames.heard[kind]));
        }
    }
    let mut flash = (0, 0, 0);
    for mote in 0..counter.costs.motes.len() {
        let formatted = tally_at(&counter.formatted, mote);
        let settled = tally_at(&counter.settled, mote);
        flash = with_flash(flash, &formatted, &settled);
    }
    all.own("sent.frames", sent.count)?;
    all.own("sent.bytes", sent.bytes)?;
    all.own("heard.frames", heard.count)?;
    all.own("heard.bytes", heard.bytes)?;
    all.own("flash.run.count", flash.0)?;
    all.own("flash.run.program.bytes", flash.1)?;
    all.own("flash.run.erase.count", flash.2)?;
    Ok(())
}

/// The rows of all motes that are counts, if there is a mote.
fn push_counts(all: &mut Rows, motes: &[Rows], counter: &Counter) -> Result<(), AllocError>
    ensures { OnOk result (SumsNoMoment motes.now → AddsNoMoment (table_of_rows all.old) (table_of_rows all.new)) }
{
    let Some(first) = motes.first() else {
        return Ok(());
    };
    push_sums(all, motes, first)?;
    push_totals(all, counter)?;
    Ok(())
}

/// The rows of all motes before those of the last event.
fn summed_rows(alloc: Global, motes: &[Rows], counter: &Counter) -> Result<Rows, AllocError>
    ensures { IfOk result (λ all. SumsNoMoment motes.now
        → TellsAll counter.now (table_of_rows all)) }
{
    let mut all = Rows::new(alloc);
    push_counts(&mut all, motes, counter)?;
    push_all_moments(&mut all, counter)?;
    all.own("run.motes", u64::from(counter.costs.count))?;
    Ok(all)
}

/// How many events there were, and the moment of the last one.
#[tactic(auto, using(std::proofs::lemmas::List::append_assoc))]
fn push_moment(all: &mut Rows, last: Moment) -> Result<(), AllocError>
    ensures { OnOk result (table_of_rows all.new ≡ table_of_rows all.old ++ rows_of_moment last.event last.ms) }
{
    all.own("run.events", last.event)?;
    all.own("run.ms", last.ms)?;
    Ok(())
}

/// The rows of all motes.
fn all_rows(
    alloc: Global,
    motes: &[Rows],
    counter: &Counter,
    last: Moment,
    status: Status,
) -> Result<Rows, AllocError>
    ensures last { IfOk result (λ all. HasRows (rows_of_moment last.event last.ms) (table_of_rows all)) }
    ensures moments { IfOk result (λ all. SumsNoMoment motes.now
        → TellsAll counter.now (table_of_rows all)) }
{
    let mut all = summed_rows(alloc, motes, counter)?;
    push_moment(&mut all, last)?;
    all.own("run.status", u64::from(status.code()))?;
    Ok(all)
}

/// The event that found no image to start, where a run ended so.
pub fn ended_event(counter: &Counter, status: Status) -> Option<EventPlace>
    ensures { result ≡ ended_of counter.now status }
{
    match status {
        Status::NoImage => counter.ended,
        _ => None,
    }
}

/// The rows of each mote whose board was used.
fn rows_of_motes(
    alloc: Global,
    counter: &Counter,
    ended: Option<EventPlace>,
    times: &Uptimes,
) -> Result<Vec<Rows>, AllocError>
    ensures length { IfOk result (λ motes. length motes.items ≡ counter.now.placed) }
    ensures each { IfOk result (λ motes. (m : ℕ) (rows : Rows) → slice_get motes.items m ≡ Some rows
        → HasCounts (counts_at ended counter.now.events m) (table_of_rows rows)) }
    ensures power { IfOk result (λ motes. (m : ℕ) (rows : Rows) → slice_get motes.items m ≡ Some rows
        → HasRows (rows_of_power (slice_index_or times.now.motes m never_on) times.now.ms) (table_of_rows rows)) }
    ensures frames { IfOk result (λ motes. (m : ℕ) (rows : Rows) → slice_get motes.items m ≡ Some rows
        → HasFrameCounts (slice_index_or counter.now.frames.motes m no_frames)
        (slice_index_or counter.now.frames.outside m no_outside) (table_of_rows rows)) }
    ensures flash { IfOk result (λ motes. (m : ℕ) (rows : Rows) → slice_get motes.items m ≡ Some rows
        → HasRows (flash_run_rows (slice_index_or counter.now.formatted m no_tally)
        (slice_index_or counter.now.settled m no_tally)) (table_of_rows rows)) }
    ensures moments { IfOk result (λ motes. (m : ℕ) (rows : Rows) → slice_get motes.items m ≡ Some rows
        → HasMoments m counter.now.wholes.moments rows) }
{
    let mut motes = Vec::new(alloc);
    for mote in 0..usize::from(counter.placed) {
        let cost = counter.costs.of(mote);
        let events = counter.events_at(ended, mote);
        let hot = counter.costs.hot_of(mote);
        let frames = &counter.frames;
        let uptime = times.at(mote);
        let formatted = tally_at(&counter.formatted, mote);
        let settled = tally_at(&counter.settled, mote);
        let wholes = &counter.wholes;
        let rows = mote_rows(
            alloc, mote, &cost, &hot, &events, frames, &uptime, times.ms, &formatted, &settled,
            wholes,
        )?;
        motes.push(rows)?;
    }
    Ok(motes)
}

/// What was counted of a run that ended with this status.
pub fn counted(alloc: Global, counter: &Counter, status: Status) -> Result<Counted, AllocError>
    ensures { IfOk result (λ counted. IsCountOf counter.now status counted) }
{
    let ended = ended_event(counter, status);
    let times = counter.times_until(ended);
    let motes = rows_of_motes(alloc, counter, ended, &times)?;
    let all = all_rows(alloc, &motes, counter, counter.last(ended), status)?;
    Ok(Counted {
        motes,
        all,
        scheduled: counter.costs.scheduled,
    })
}
