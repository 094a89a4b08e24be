//! The call of a base mote.
ghost use Rattle.std.specs.Prelude.{◌≡◌, ◌≤◌};
ghost use Rattle.dg_outside.specs.Outside.{Outside, input_of, output_of, with_input, with_output};
ghost use Rattle.dg_volume.specs.Store.{Store};
ghost use Rattle.dg_volume.specs.Stands.{Stands, IsNoVolume};
ghost use Rattle.dg_serial_base.specs.Based.{BaseLine, RefusedBy};
ghost use Rattle.dg_serial_base.specs.Done.{BasedOn};
ghost use Rattle.dg_serial_base.specs.inner.Standing.{Counts, WriteCounts, ReadCounts};

use crate::playing::Player;
use crate::reading::PIECE;
use crate::running::Running;
use dg_base::{Sink, Source, Status};
use dg_boot::golden_can_be_started;
use dg_end::{End, finish};
use dg_mote::{a_mote_keeps_consistency, a_mote_stays_well};
use dg_nor::Nor;
use dg_serial::{Unstuff, frames_come_back};
use dg_volume::{a_start_ends, a_whole_image_is_sound, trails_keep_consistency};
use std::alloc::Global;

/// Starts a chip by power, and plays its line to the end.
fn play_line<S: Source, K: Sink, N: Nor>(
    alloc: Global,
    nor: &mut N,
    id: u16,
    step: u32,
    seed: u32,
    input: &mut S,
    out: &mut K,
) -> Result<(), End>
    requires little { step ≤ 60000 }
    ensures ends { (s : Store) (rest : Outside) → Stands (N.device nor.old).image s
        → BaseLine result (record { id = id; step = step; seed = seed }) s (N.device nor.old) (N.device nor.new)
        (with_output (K.Sink, out.old) (with_input (S.Source, input.old) rest))
        (with_output (K.Sink, out.new) (with_input (S.Source, input.new) rest)) }
    ensures refused { IsNoVolume (N.device nor.old).image → RefusedBy result (N.device nor.old) (N.device nor.new)
        × (input_of (S.Source, input.new) ≡ input_of (S.Source, input.old))
        × (output_of (K.Sink, out.new) ≡ output_of (K.Sink, out.old)) }
    ensures counts { Counts result (N.device nor.old) (N.device nor.new) }
    ensures writes { WriteCounts result (K.faults out.old) (K.faults out.new) }
    ensures reads { ReadCounts result (S.faults input.old) (S.faults input.new) }
{
    frames_come_back();
    match Running::power(nor, id, step, seed) {
        Ok(running) => {
            let line = Unstuff::new();
            let text = Vec::new(alloc);
            let mut player = Player {
                running,
                line,
                text,
            };
            player.play_input(&mut [0; PIECE], input, nor, out)
        }
        Err(end) => Err(end),
    }
}

/// Starts a chip by power, and plays the items of the input at its mote: a frame is heard, and after each item the mote
/// ticks. What the mote sends is written to `out` as it is on the line.
/// The start is the first event. Each event comes `step` milliseconds after the one before it, with the next word of the
/// generator that `seed` begins. The input is read piece by piece, and each piece is played before the next one is asked for.
/// No more than 16,777,216 bytes of it are used. A status other than [`Status::Done`] writes its line last, where it has one.
///
/// With honest frames a chip that agrees with a table of images agrees with it after the line, however it ended. Whatever
/// bytes come as frames, a consistent chip stays so, however the line ended: golden is whole. No start lacks an image, and
/// what starts is golden byte for byte, or pages that fit the descriptor before them.
pub fn base<S: Source, K: Sink, N: Nor>(
    alloc: Global,
    nor: &mut N,
    id: u16,
    step: u32,
    seed: u32,
    input: &mut S,
    out: &mut K,
) -> Status
    requires little { step ≤ 60000 }
    // From a chip that is a volume: the bytes written are the stuffed frames of the mote's rules over the items, and the last
    // line of the end that the line came to. A reader of the line gets these frames back, and each status comes where the rules
    // say. A chip that is not a volume is left unchanged. A fault of the outside is reported, and only with its own answer.
    ensures does { (rest : Outside) → BasedOn (record { id = id; step = step; seed = seed }) result
        (N.device nor.old) (N.device nor.new)
        (with_output (K.Sink, out.old) (with_input (S.Source, input.old) rest))
        (with_output (K.Sink, out.new) (with_input (S.Source, input.new) rest)) }
{
    a_mote_stays_well();
    a_mote_keeps_consistency();
    trails_keep_consistency();
    a_start_ends();
    a_whole_image_is_sound();
    golden_can_be_started();
    let outcome = play_line(alloc, nor, id, step, seed, input, out);
    finish(alloc, out, outcome)
}
