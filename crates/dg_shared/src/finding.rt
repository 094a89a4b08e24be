//! Looks up the frame that an event is about.
ghost use Rattle.std.specs.Prelude.{◌<◌, ℕ};
ghost use Rattle.dg_rules.specs.Sizes.{most_motes};
ghost use Rattle.dg_rules.specs.World.{World as RuleWorld, frame_at};
ghost use Rattle.dg_rules.specs.Events.{heard_sent};
ghost use Rattle.dg_shared.specs.Shareds.{IsShared};
ghost use Rattle.dg_shared.specs.Finds.{IsFound, IsRanged, last_heard};

use crate::context::EventContext;
use dg_frame::Message;
use dg_rules::Cause;

/// What was found for an event in which a mote hears a frame.
#[derive(Clone, Copy)]
pub enum Found<'a> {
    /// The message of the frame.
    Frame(&'a Message),
    /// The mote hears no frame, for this cause.
    Nothing(Cause),
}

/// The frame with a number, if it was sent, and by a neighbour.
#[inline(always)]
pub fn find_nth<'a>(context: &EventContext<'a>, number: u32) -> Found<'a>
    ensures range { IsRanged result }
    ensures found { (w : RuleWorld) (word : ℕ) → IsShared context.now.shared.now w
        → IsFound result w context.now.mote context.now.moment word
        (heard_sent w context.now.mote context.now.moment word (frame_at w number)) }
{
    match context.shared.air.get(number as usize) {
        None => Found::Nothing(Cause::Frame),
        Some(sent) => {
            if context.shared.links.are_joined(sent.by, context.mote) {
                Found::Frame(&sent.message)
            } else {
                Found::Nothing(Cause::Link)
            }
        }
    }
}

/// The last frame of a mote, if it is a neighbour, and sent one.
#[inline(always)]
pub fn find_last<'a>(context: &EventContext<'a>, from: u8) -> Found<'a>
    requires { from < most_motes }
    ensures range { IsRanged result }
    ensures found { (w : RuleWorld) (word : ℕ) → IsShared context.now.shared.now w
        → IsFound result w context.now.mote context.now.moment word
        (last_heard w from context.now.mote context.now.moment word) }
{
    if !context.shared.links.are_joined(from, context.mote) {
        return Found::Nothing(Cause::Link);
    }
    match context.shared.air.last_of(from) {
        None => Found::Nothing(Cause::Frame),
        Some(sent) => Found::Frame(&sent.message),
    }
}
