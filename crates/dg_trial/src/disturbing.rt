//! Disturbances: what draws choose to happen.
ghost use Rattle.std.specs.Prelude.{◌≡◌, ◌+◌, ◌%◌, ◌<◌, ◌≤◌, ◌∷◌, [], IfOk};
ghost use Rattle.dg_rules.specs.Sizes.{most_events, most_motes};
ghost use Rattle.dg_trial.specs.Schedule.{beside, drawn_cut, disturbance};
ghost use Rattle.dg_trial.specs.inner.Words.{cut_reset};

use dg_base::{Bytes, Cut, Event, Step};
use std::alloc::{AllocError, Global};

/// The operations of a start in which power may be cut.
const CUTS: u32 = 64;

/// The milliseconds that a disturbance may take.
const DELAYS: u32 = 1_024;

/// The mote beside another on a line of this many: the next one, or the one before the last.
fn beside(motes: u8, mote: u8) -> u8
    requires some { 2 ≤ motes }
    requires known { mote < motes }
    requires few { motes ≤ most_motes }
    ensures { result ≡ beside motes mote }
{
    if mote + 1 == motes {
        mote - 1
    } else {
        mote + 1
    }
}

/// The number of a frame that a word chooses of those that were sent, or one more.
fn chosen_frame(word: u32, sent: usize) -> u32
    requires { sent ≤ most_events }
    ensures { result ≡ 1 + word % (sent + 1) }
{
    1 + (u64::from(word) % (sent as u64 + 1)) as u32
}

/// The cut that draws choose.
fn chosen_cut(alloc: Global, second: u32, third: u32) -> Result<Cut, AllocError>
    ensures { IfOk result (λ cut. cut ≡ drawn_cut second third) }
{
    let mut mask = Vec::with_capacity(alloc, 1)?;
    mask.push_reserved((third % 256) as u8);
    Ok(Cut {
        after: 1 + second % CUTS,
        mask: Bytes::new(mask),
    })
}

/// What happens at a mote that three draws choose, where this many frames were sent before.
pub fn disturbance(
    alloc: Global,
    motes: u8,
    sent: usize,
    first: u32,
    second: u32,
    third: u32,
) -> Result<Step, AllocError>
    requires some { 2 ≤ motes }
    requires most { motes ≤ most_motes }
    requires few { sent ≤ most_events }
    ensures { IfOk result (λ step. step ≡ disturbance motes first second third sent) }
{
    let mote = (first % u32::from(motes)) as u8;
    let dt = second % DELAYS;
    let event = match first / 65_536 % 8 {
        0..=3 => Event::Tick {
            mote,
            dt,
            word: third,
        },
        4 | 5 => Event::Last {
            from: beside(motes, mote),
            to: mote,
            dt,
            word: third,
        },
        6 => Event::Hear {
            mote,
            dt: 1,
            word: third,
            frame: chosen_frame(second, sent),
        },
        _ => return cut_reset(alloc, mote, second, third),
    };
    Ok(Step { event, cut: None })
}

/// A reset of a mote whose power is cut.
fn cut_reset(alloc: Global, mote: u8, second: u32, third: u32) -> Result<Step, AllocError>
    ensures { IfOk result (λ step. step ≡ cut_reset mote second third) }
{
    let cut = chosen_cut(alloc, second, third)?;
    let event = Event::Reset {
        mote,
        dt: 0,
        word: third,
    };
    Ok(Step {
        event,
        cut: Some(cut),
    })
}
