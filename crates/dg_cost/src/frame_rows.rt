//! The rows of the frames of a mote.
ghost use Rattle.std.specs.Prelude.{◌≡◌, ◌++◌, [], IfOk, OnOk};
ghost use Rattle.dg_cost_text.specs.Moments.{AddsNoMoment};
ghost use Rattle.dg_cost_text.specs.Table.{table_of_rows};
ghost use Rattle.dg_cost.specs.FrameRows.{counted_rows, refused_shares, outside_shares, refused_outside_shares};
ghost use Rattle.dg_cost.specs.FrameRows.{HasFrameCounts};

use dg_cost_text::{Part, Rows};
use dg_events::{FAULTS, FrameCounts, OutsideCounts, SENT_KINDS};
use dg_meter::Share;
use dg_mote_cost::{ANSWERS, FRAMES, HotCost, MOTES, MoteCost, PACKET, narrow, share_of};
use std::alloc::{AllocError, Global};

/// So many frames of each kind, with their bytes.
fn push_kinds(rows: &mut Rows, before: &str, counts: &[u64; SENT_KINDS]) -> Result<(), AllocError>
    ensures { OnOk result (table_of_rows rows.new ≡ table_of_rows rows.old ++ counted_rows before.now counts.now) }
{
    rows.share(before, "advert", share_of(0, counts[0]))?;
    rows.share(before, "request", share_of(1, counts[1]))?;
    rows.share(before, "packet", share_of(2, counts[2]))?;
    rows.share(before, "wide", share_of(3, counts[3]))?;
    Ok(())
}

/// So many frames that a mote refused, by cause, with their bytes.
fn push_refused(rows: &mut Rows, shares: &[Share; 5]) -> Result<(), AllocError>
    ensures { OnOk result (table_of_rows rows.new ≡ table_of_rows rows.old ++ refused_shares shares.now) }
{
    rows.shares("refused.frame.", &FAULTS, shares)?;
    Ok(())
}

/// So many frames that came to a mote from outside, by kind, with their bytes.
fn push_outside(rows: &mut Rows, shares: &[Share; 5]) -> Result<(), AllocError>
    ensures { OnOk result (table_of_rows rows.new ≡ table_of_rows rows.old ++ outside_shares shares.now) }
{
    rows.shares("outside.", &FRAMES, shares)?;
    Ok(())
}

/// Those of them that it refused, by cause, with their bytes.
fn push_refused_outside(rows: &mut Rows, shares: &[Share; 5]) -> Result<(), AllocError>
    ensures { OnOk result (table_of_rows rows.new ≡ table_of_rows rows.old ++ refused_outside_shares shares.now) }
{
    rows.shares("refused.outside.", &FAULTS, shares)?;
    Ok(())
}

/// The rows of the frames that a mote sent and no mote heard.
fn unheard_rows(alloc: Global, hot: &HotCost, frames: &FrameCounts) -> Result<Rows, AllocError>
    ensures { IfOk result (λ rows. AddsNoMoment [] (table_of_rows rows)) }
{
    let mut rows = Rows::new(alloc);
    for kind in 0..SENT_KINDS {
        let parts = [Part::Text("unheard."), Part::Text(FRAMES[kind])];
        let unheard = frames.sent[kind].saturating_sub(hot.heard[kind]);
        rows.push_ended(&parts, ".count", unheard, true)?;
    }
    Ok(rows)
}

/// The rows of the neighbours that a mote heard.
fn push_neighbours(rows: &mut Rows, hot: &HotCost) -> Result<(), AllocError>
    ensures { OnOk result (AddsNoMoment (table_of_rows rows.old) (table_of_rows rows.new)) }
{
    for by in 0..MOTES {
        let share = hot.heard_from(by);
        let from = [Part::Text("from."), Part::Number(u32::from(narrow(by)))];
        rows.push_ended(&from, ".count", share.count, false)?;
        rows.push_ended(&from, ".bytes", share.bytes, false)?;
        rows.push_ended(&from, ".first", hot.first[by], false)?;
    }
    Ok(())
}

/// The sum over all kinds.
fn all_of(counts: &[u64; SENT_KINDS]) -> u64 {
    let mut all: u64 = 0;
    for kind in 0..SENT_KINDS {
        all = all.saturating_add(counts[kind]);
    }
    all
}

/// The outcomes of the packets that a mote sent, and the frames that a trace brings.
fn push_packets(
    rows: &mut Rows,
    cost: &MoteCost,
    hot: &HotCost,
    frames: &FrameCounts,
) -> Result<(), AllocError>
    ensures { OnOk result (AddsNoMoment (table_of_rows rows.old) (table_of_rows rows.new)) }
{
    let packets = frames.sent[PACKET];
    let vain = share_of(PACKET, packets.saturating_sub(hot.put));
    rows.share("packets.", "vain", vain)?;
    let idle = packets.saturating_sub(hot.used);
    rows.sum("packets.idle.count", idle)?;
    rows.sum("packets.put", hot.puts)?;
    rows.share("traced.", "heard", cost.traced)?;
    let unheard = all_of(&frames.sent).saturating_sub(all_of(&hot.heard));
    rows.sum("traced.unheard.count", unheard.saturating_sub(hot.traced))?;
    let vain = packets
        .saturating_sub(hot.put)
        .saturating_sub(hot.traced_put);
    rows.sum("traced.vain.count", vain)?;
    Ok(())
}

/// The rows of what a mote did with the frames that it heard, and of what became of the packets that it sent.
fn answer_rows(
    alloc: Global,
    cost: &MoteCost,
    hot: &HotCost,
    frames: &FrameCounts,
) -> Result<Rows, AllocError>
    ensures { IfOk result (λ rows. AddsNoMoment [] (table_of_rows rows)) }
{
    let mut rows = Rows::new(alloc);
    rows.each("answer.", &ANSWERS, &hot.answers, "")?;
    push_neighbours(&mut rows, hot)?;
    push_packets(&mut rows, cost, hot, frames)?;
    Ok(rows)
}

/// The rows of the frames of a mote: those that it sent, those that it heard, and those that came from outside.
pub fn frame_rows(
    alloc: Global,
    cost: &MoteCost,
    hot: &HotCost,
    frames: &FrameCounts,
    outside: &OutsideCounts,
) -> Result<Rows, AllocError>
    ensures frames { IfOk result (λ rows. HasFrameCounts frames.now outside.now (table_of_rows rows)) }
    ensures moments { IfOk result (λ rows. AddsNoMoment [] (table_of_rows rows)) }
{
    let mut rows = Rows::new(alloc);
    push_kinds(&mut rows, "sent.", &frames.sent)?;
    rows.append(unheard_rows(alloc, hot, frames)?)?;
    push_kinds(&mut rows, "heard.", &frames.heard)?;
    push_outside(&mut rows, &outside.came)?;
    push_refused(&mut rows, &frames.refused)?;
    push_refused_outside(&mut rows, &outside.refused)?;
    rows.append(answer_rows(alloc, cost, hot, frames)?)?;
    Ok(rows)
}
