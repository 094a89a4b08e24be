//! A step at the board of its mote, and what is reported of it.
ghost use Rattle.std.specs.Prelude.{◌≡◌, ◌+◌, ◌<◌, ◌≤◌, ◌∷◌, ◌++◌, ℕ, [], None, Some, length, vec_len, option_to_list};
ghost use Rattle.std.specs.Prelude.{option_copied, IfOk, IsTrue, Bool, true, false};
ghost use Rattle.std.specs.List.{filter};
ghost use Rattle.std.specs.Vec.{vec_capacity};
ghost use Rattle.dg_nor.specs.Device.{Took};
ghost use Rattle.dg_volume.specs.Remount.{RemountBytes};
ghost use Rattle.dg_volume.specs.Store.{Store};
ghost use Rattle.dg_volume.specs.Stands.{Stands, Tells};
ghost use Rattle.dg_frame.specs.Grammar.{in_range, message_of};
ghost use Rattle.dg_mote.specs.Motes.{sent_in};
ghost use Rattle.dg_frame.specs.Spelling.{frame_of};
ghost use Rattle.dg_rules.specs.Sizes.{most_motes};
ghost use Rattle.dg_rules.specs.World.{World as RuleWorld};
ghost use Rattle.dg_rules.specs.Changes.{sent_line, is_reported};
ghost use Rattle.dg_script.specs.Ranges.{StepInRange};
ghost use Rattle.dg_world.specs.Applying.{step_of};
ghost use Rattle.dg_world.specs.inner.Contexts.{MayApply};
ghost use Rattle.dg_world.specs.inner.EventOutcomes.{Refused, Starts};
ghost use Rattle.dg_world.specs.inner.OutcomeEndings.{outcome_lines, frame_lines};
ghost use Rattle.dg_world.specs.inner.Outcomes.{IsNothing, outcome_of};
ghost use Rattle.dg_world.specs.inner.Steps.{CutChangesAre, CutReported, CutRead, StepDid};
ghost use Rattle.dg_world.specs.Stepped.{board_state};
ghost use Rattle.dg_world.specs.Known.{IsOrder};
ghost use Rattle.dg_shared.specs.LookedInto.{MakesKnown};
ghost use Rattle.dg_world.specs.inner.Sees.{SeesCut};
ghost use Rattle.dg_node.specs.Known.{IsKnownChip, SeesOrder};

use crate::chip_report::{MOST_CHANGES, push_changes, push_line};
use crate::cutting::play_cut;
use crate::dispatch::apply_apart;
use crate::hearing::hear_found;
use crate::outcome::{Fault, Outcome, Power};
use crate::ticking::tick;
use dg_frame::{Message, is_read_back};
use dg_mote::Outbox;
use dg_node::{ChipReport, Node, StartedImage, mount_known, report_chip};
use dg_nor::Nor;
use dg_rules::{Cause, Cut, Event, Report};
use dg_shared::{EventContext, EventKind, find_last};
use dg_volume::{Volume, a_volume_bounds_a_remount};

/// The most lines that are reported of a step.
pub(crate) const MOST_LINES: usize = MOST_CHANGES + 1;

/// Appends the lines of what is reported. There is capacity for them.
#[inline(always)]
fn push_outcome(mote: u8, outcome: &Outcome, reported: bool, out: &mut Vec<Report>)
    requires capacity { vec_len out.old + MOST_CHANGES ≤ vec_capacity out.old }
    ensures { out.new.items ≡ out.old.items ++ filter (is_reported reported) (outcome_lines mote (outcome_of outcome.now)) }
{
    if let Some(message) = outcome.outbox.message() {
        push_sent(mote, message, reported, out);
    } else if outcome.is_told {
        push_told(mote, outcome, out);
    }
}

/// The same, for an outcome without a frame. It is not inlined: most events report no more than a frame.
#[inline(never)]
fn push_told(mote: u8, outcome: &Outcome, out: &mut Vec<Report>)
    requires unsent { sent_in outcome.now.outbox ≡ None }
    requires capacity { vec_len out.old + MOST_CHANGES ≤ vec_capacity out.old }
    ensures { (reported : Bool)
        → out.new.items ≡ out.old.items ++ filter (is_reported reported) (outcome_lines mote (outcome_of outcome.now)) }
{
    if let Some(cause) = outcome.refused {
        push_refused(mote, cause, out);
    } else if let Some(line) = outcome.started {
        push_start(mote, line, out);
    } else if let (Some(before), Some(after)) = (&outcome.before, &outcome.after) {
        push_changes(mote, before, after, out);
    }
}

/// Appends the line on the frame of a message where it is wanted.
#[inline(always)]
fn push_sent(mote: u8, message: &Message, reported: bool, out: &mut Vec<Report>)
    requires range { in_range true message.now ≡ true }
    requires capacity { vec_len out.old + 1 ≤ vec_capacity out.old }
    ensures reported { out.new.items ≡ out.old.items
        ++ filter (is_reported reported) (frame_lines mote (message_of (frame_of message.now) true)) }
    ensures capacity { vec_capacity out.new ≡ vec_capacity out.old }
    ensures few { vec_len out.new ≤ vec_len out.old + 1 }
{
    if reported {
        push_line(sent_line(mote, message), out);
    }
}

/// The line on the frame of a message.
#[inline(never)]
fn sent_line(mote: u8, message: &Message) -> Option<Report>
    requires { in_range true message.now ≡ true }
    ensures { option_to_list result ≡ frame_lines mote (message_of (frame_of message.now) true) }
{
    is_read_back(message);
    Some(message_line(mote, message))
}

fn message_line(mote: u8, message: &Message) -> Report
    ensures { result ∷ [] ≡ sent_line mote (Some message.now) }
{
    match message {
        Message::Advert { .. } | Message::Wide { .. } => Report::SentAdvert { mote },
        Message::Request {
            to,
            image,
            version,
            page,
            want,
            ..
        } => Report::SentRequest {
            mote,
            to: *to,
            image: *image,
            version: *version,
            page: *page,
            count: want.count(),
        },
        Message::Packet {
            image,
            version,
            page,
            packet,
            ..
        } => Report::SentData {
            mote,
            image: *image,
            version: *version,
            page: *page,
            packet: *packet,
        },
    }
}

#[inline(never)]
fn push_refused(mote: u8, cause: Cause, out: &mut Vec<Report>)
    requires capacity { vec_len out.old + 1 ≤ vec_capacity out.old }
    ensures reported { out.new.items ≡ out.old.items ++ outcome_lines mote (Refused cause) }
    ensures capacity { vec_capacity out.new ≡ vec_capacity out.old }
    ensures few { vec_len out.new ≤ vec_len out.old + 1 }
{
    out.push_reserved(Report::Refused { mote, cause });
}

#[inline(never)]
fn push_start(mote: u8, line: StartedImage, out: &mut Vec<Report>)
    requires capacity { vec_len out.old + 1 ≤ vec_capacity out.old }
    ensures reported { out.new.items ≡ out.old.items ++ outcome_lines mote (Starts line) }
    ensures capacity { vec_capacity out.new ≡ vec_capacity out.old }
    ensures few { vec_len out.new ≤ vec_len out.old + 1 }
{
    out.push_reserved(Report::Start {
        mote,
        image: line.image_version.image,
        version: line.image_version.version,
        length: line.length,
        crc: line.crc,
    });
}

/// Whether an event looks at its chip by itself.
fn mounts_board(event: &Event) -> bool
    ensures { (w : RuleWorld) → result ≡ false → MakesKnown w event.now → ⊥ }
{
    match event {
        Event::Reset { .. } | Event::Inject { .. } | Event::Order { .. } => true,
        Event::Tick { .. } | Event::Hear { .. } | Event::Last { .. } | Event::Frame { .. } => false,
    }
}

/// Reads the board after a cut, appends the lines of what the cut changed in its report, and answers whether its chip is
/// orderly. A known board is mounted by halving. There is capacity for the lines.
fn look_again<N: Nor>(
    mote: u8,
    before: &Option<ChipReport>,
    known: bool,
    board: &mut N,
    out: &mut Vec<Report>,
) -> Result<bool, Fault>
    requires known_chip { IsTrue known → IsKnownChip (N.device board.old).image }
    requires capacity { vec_len out.old + MOST_CHANGES ≤ vec_capacity out.old }
    ensures reported { (s : Store) → Stands (N.device board.old).image s
        → CutReported result mote before.now s out.old.items out.new.items
        × CutRead result (N.device board.old) (N.device board.new) }
    ensures sees { IfOk result (λ orderly. SeesOrder orderly (N.device board.new).image) }
    ensures took { IsTrue known → (n : ℕ) → RemountBytes (N.device board.old).image n
        → Took n (N.device board.old) (N.device board.new) }
    ensures capacity { vec_capacity out.new ≡ vec_capacity out.old }
    ensures few { vec_len out.new ≤ vec_len out.old + MOST_CHANGES }
{
    let volume = mount_known(board, known)?;
    report_changes(mote, before, &volume, out);
    Ok(volume.orderly())
}

/// Appends the lines of what changed in the report of a volume since `before`.
fn report_changes(mote: u8, before: &Option<ChipReport>, volume: &Volume, out: &mut Vec<Report>)
    requires capacity { vec_len out.old + MOST_CHANGES ≤ vec_capacity out.old }
    ensures reported { (s : Store) → Tells volume.now s → CutChangesAre mote before.now s out.old.items out.new.items }
    ensures capacity { vec_capacity out.new ≡ vec_capacity out.old }
    ensures few { vec_len out.new ≤ vec_len out.old + MOST_CHANGES }
{
    match before {
        None => {}
        Some(before) => push_changes(mote, before, &report_chip(volume), out),
    }
}

/// Whether a board is mounted by halving after a cut: if it is known and the cut event was an order, after which a known board
/// is still known.
fn is_kept_known(known: bool, event: &Event) -> bool
    ensures only { IsTrue result → (known ≡ true) × IsOrder event.now }
    ensures each { (known ≡ true) → IsOrder event.now → IsTrue result }
{
    match event {
        Event::Order { .. } => known,
        Event::Tick { .. }
        | Event::Hear { .. }
        | Event::Last { .. }
        | Event::Frame { .. }
        | Event::Reset { .. }
        | Event::Inject { .. } => false,
    }
}

/// The same where the board is looked at: because its report may have changed, or because it must be known whether it is
/// orderly.
fn look_after_cut<N: Nor>(
    mote: u8,
    event: &Event,
    before: &Option<ChipReport>,
    known: bool,
    board: &mut N,
    out: &mut Vec<Report>,
) -> Result<Option<bool>, Fault>
    requires known_chip { (known ≡ true) → IsOrder event.now → IsKnownChip (N.device board.old).image }
    requires capacity { vec_len out.old + MOST_CHANGES ≤ vec_capacity out.old }
    ensures reported { (s : Store) → Stands (N.device board.old).image s
        → CutReported result mote before.now s out.old.items out.new.items
        × CutRead result (N.device board.old) (N.device board.new) }
    ensures sees { IfOk result (λ seen. (w : RuleWorld) → SeesCut w event.now known seen (N.device board.new).image) }
    ensures took { (known ≡ true) → IsOrder event.now → (n : ℕ) → RemountBytes (N.device board.old).image n
        → Took n (N.device board.old) (N.device board.new) }
    ensures capacity { vec_capacity out.new ≡ vec_capacity out.old }
    ensures few { vec_len out.new ≤ vec_len out.old + MOST_CHANGES }
{
    if before.is_none() && !known && !mounts_board(event) {
        return Ok(None);
    }
    let again = is_kept_known(known, event);
    let orderly = look_again(mote, before, again, board, out)?;
    Ok(Some(orderly))
}

/// A step with this cut at the board of its mote, which is off after it where it fired. There is capacity for what is
/// reported.
#[inline(never)]
fn step_cut<N: Nor>(
    context: EventContext<'_>,
    runs: &mut Option<Node>,
    event: &Event,
    cut: &Cut,
    board: &mut N,
    outcome: &mut Outcome,
    out: &mut Vec<Report>,
) -> Result<(), Fault>
    requires capacity { vec_len out.old + MOST_LINES ≤ vec_capacity out.old }
    requires fits { (motes : ℕ) × StepInRange motes (step_of event.now (Some cut.now)) × (motes ≤ most_motes) }
    requires may { MayApply context event.now (N.device board.old) runs.old }
    requires nothing { IsNothing outcome.old }
    ensures { StepDid result context.entry (step_of event.now (Some cut.now)) outcome.new
        (board_state (N.device board.old) runs.old out.old.items) (board_state (N.device board.new) runs.new out.new.items) }
{
    let mote = context.mote;
    match play_cut(&context, runs, event, cut, board, outcome)? {
        Power::Stays => push_outcome(mote, outcome, context.reported, out),
        Power::Cut => {
            a_volume_bounds_a_remount();
            let orderly = look_after_cut(mote, event, &outcome.before, context.known, board, out)?;
            outcome.orderly = orderly;
            outcome.is_told = true;
            out.push_reserved(Report::Off { mote });
            *runs = None;
            outcome.outbox = Outbox::new();
        }
    }
    Ok(())
}

/// A step at the board of its mote, which runs `runs`. Where the board is known it is mounted again by halving. Its frame is
/// left in the outbox. There is capacity for what is reported. Ticks and last frames are the common events; the others are in a
/// function of their own.
#[inline(always)]
pub(crate) fn step_at<N: Nor>(
    context: &EventContext<'_>,
    runs: &mut Option<Node>,
    event: &Event,
    cut: Option<&Cut>,
    board: &mut N,
    outcome: &mut Outcome,
    out: &mut Vec<Report>,
) -> Result<(), Fault>
    requires capacity { vec_len out.old + MOST_LINES ≤ vec_capacity out.old }
    requires fits { (motes : ℕ) × StepInRange motes (step_of event.now (option_copied cut)) × (motes ≤ most_motes) }
    requires may { MayApply context.now event.now (N.device board.old) runs.old }
    requires nothing { IsNothing outcome.old }
    ensures { StepDid result context.now (step_of event.now (option_copied cut.entry)) outcome.new
        (board_state (N.device board.old) runs.old out.old.items) (board_state (N.device board.new) runs.new out.new.items) }
{
    match cut {
        Some(cut) => step_cut(*context, runs, event, cut, board, outcome, out),
        None => match context.kind {
            EventKind::Tick { word, .. } => {
                tick(runs, context.moment, word, board, outcome)?;
                push_outcome(context.mote, outcome, context.reported, out);
                Ok(())
            }
            EventKind::Last { from, word, .. } => {
                let found = find_last(context, from);
                hear_found(runs, context.moment, word, found, board, outcome)?;
                push_outcome(context.mote, outcome, context.reported, out);
                Ok(())
            }
            EventKind::Other => {
                apply_apart(*context, runs, event, board, outcome)?;
                push_outcome(context.mote, outcome, context.reported, out);
                Ok(())
            }
        },
    }
}
