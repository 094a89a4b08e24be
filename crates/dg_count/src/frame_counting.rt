//! Counts the frames of motes, by what the world exposes of them, and what comes to motes from outside.
ghost use Rattle.std.specs.Prelude.{◌≡◌, true, false, List, Some, None, option_map};
ghost use Rattle.dg_nor.specs.Device.{Device};
ghost use Rattle.dg_rules.specs.Events.{mote_of};
ghost use Rattle.dg_rules.specs.Past.{brought};
ghost use Rattle.dg_rules.specs.World.{World as RuleWorld, wide_at, frame_at};
ghost use Rattle.dg_world.specs.Worlds.{IsWorld};
ghost use Rattle.dg_events.specs.Frames.{is_hearing, is_outside};
ghost use Rattle.dg_events.specs.RefusedFrames.{fault_brought};
ghost use Rattle.dg_count.specs.Shown.{CountsFrames, IsNumberOf};

use dg_events::{FrameCounter, HeardFrame};
use dg_frame::{FrameFault, read, refusal};
use dg_mote_cost::kind_of;
use dg_rules::Event;
use dg_script::Report;
use dg_world::World;

/// Counts the frame that an event at a mote sent, if it sent one: the world then has one more than were counted.
#[inline(always)]
pub fn count_sent(
    frames: &mut FrameCounter,
    world: &World,
    event: &Event,
    mote: u8,
    reports: &[Report],
)
    requires none { (w : RuleWorld) → brought w event.now ≡ None }
    requires mote { mote ≡ mote_of event.now }
    ensures { CountsFrames frames.old frames.new world.now event.now reports.now }
{
    let all = world.frames_sent();
    if all <= frames.sent.len() {
        frames.skip();
        return;
    }
    match world.frame(all) {
        Some(message) => frames.send(event, mote, kind_of(message)),
        None => frames.skip(),
    }
}

/// Counts the frame that an event sent, or the bytes that it brought from outside. It brings no frame of a mote.
pub fn count_other(
    frames: &mut FrameCounter,
    world: &World,
    event: &Event,
    mote: u8,
    reports: &[Report],
)
    requires none { is_hearing event.now ≡ false }
    requires mote { mote ≡ mote_of event.now }
    ensures { CountsFrames frames.old frames.new world.now event.now reports.now }
{
    match event {
        Event::Frame { bytes, .. } => {
            count_outside(frames, world, event, mote, bytes.as_slice(), reports)
        }
        _ => count_sent(frames, world, event, mote, reports),
    }
}

/// Counts these bytes, which an event brings to a mote from outside, unless the event is refused.
#[cold]
#[inline(never)]
fn count_outside(
    frames: &mut FrameCounter,
    world: &World,
    event: &Event,
    mote: u8,
    bytes: &[u8],
    reports: &[Report],
)
    requires outside { is_outside event.now ≡ true }
    requires bytes { (w : RuleWorld) → brought w event.now ≡ Some bytes.now }
    requires mote { mote ≡ mote_of event.now }
    ensures { CountsFrames frames.old frames.new world.now event.now reports.now }
{
    let fault = bytes_fault(bytes, world.is_wide(mote));
    frames.take(event, mote, bytes, fault, reports);
}

/// Why a mote refuses these bytes, None if it reads them.
fn bytes_fault(bytes: &[u8], wide: bool) -> Option<FrameFault>
    ensures { fault_brought wide (Some bytes.now) ≡ result }
{
    match read(bytes, wide) {
        Ok(_) => None,
        Err(fault) => Some(fault),
    }
}

/// Why a mote refuses the frame with this number, None if it reads the frame, or there is none.
fn fault_of(world: &World, mote: u8, number: usize) -> Option<FrameFault>
    ensures { (boards : List Device) (w : RuleWorld) → IsWorld world.now boards w
        → fault_brought (wide_at w mote) (option_map (λ s. s.bytes) (frame_at w number)) ≡ result }
{
    match world.frame(number) {
        Some(message) => refusal(message, world.is_wide(mote)),
        None => None,
    }
}

/// Why a wide mote refuses the frame with this number: it reads each frame of a mote, so that this costs nothing.
#[inline(always)]
fn wide_fault(world: &World, number: usize) -> Option<FrameFault>
    ensures { (boards : List Device) (w : RuleWorld) → IsWorld world.now boards w
        → fault_brought true (option_map (λ s. s.bytes) (frame_at w number)) ≡ result }
{
    match world.frame(number) {
        Some(message) => refusal(message, true),
        None => None,
    }
}

/// Counts the frame with this number, which an event brings to a mote, unless the event is refused.
pub fn count_heard(
    frames: &mut FrameCounter,
    world: &World,
    event: &Event,
    mote: u8,
    number: usize,
    reports: &[Report],
) -> Option<HeardFrame>
    requires hears { is_hearing event.now ≡ true }
    requires mote { mote ≡ mote_of event.now }
    requires number { IsNumberOf world.now event.now number }
    ensures { CountsFrames frames.old frames.new world.now event.now reports.now }
{
    frames.hear(event, mote, number, fault_of(world, mote, number), reports)
}

/// The same at a wide mote.
#[inline(always)]
pub fn count_wide(
    frames: &mut FrameCounter,
    world: &World,
    event: &Event,
    mote: u8,
    number: usize,
    reports: &[Report],
) -> Option<HeardFrame>
    requires hears { is_hearing event.now ≡ true }
    requires mote { mote ≡ mote_of event.now }
    requires number { IsNumberOf world.now event.now number }
    requires wide { (boards : List Device) (w : RuleWorld) → IsWorld world.now boards w → wide_at w mote ≡ true }
    ensures { CountsFrames frames.old frames.new world.now event.now reports.now }
{
    frames.hear(event, mote, number, wide_fault(world, number), reports)
}
