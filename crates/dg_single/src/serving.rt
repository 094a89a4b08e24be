//! A service of one mote from its first line to its last.
ghost use Rattle.std.specs.Prelude.{◌<◌, ◌≤◌, List, slice_set};
ghost use Rattle.dg_mote.specs.Sizes.{BuffersFit, ValuesAreSmall};
ghost use Rattle.dg_netcfg.specs.Readings.{IsAllowed};
ghost use Rattle.dg_nor.specs.Device.{Device};
ghost use Rattle.dg_outside.specs.Outside.{InputState, output_of, link_state, outside};
ghost use Rattle.dg_single.specs.Overs.{Owns};
ghost use Rattle.dg_single.specs.Singles.{MoteServed};

use crate::turns::run;
use dg_base::{Clock, Sink, Status};
use dg_end::{End, fail};
use dg_link::Link;
use dg_mote::a_mote_buffers_little;
use dg_netcfg::NetProfile;
use dg_nor::Nor;
use dg_serve::open_service;
use std::alloc::Global;

/// Runs a mote of a profile, which is wide, for this many turns, over its board, the link and the clock, and writes what
/// happens to `out` as a script. In a turn the mote looks whether a frame came. It ticks if one did, if `watch` says that
/// something of it is due, or if it did not tick for a second of the watch.
///
/// It does what a service of all motes does at this one, whatever the boards of the others are.
pub fn serve_mote<K: Sink, N: Nor, L: Link, C: Clock, W: Clock>(
    alloc: Global,
    profile: &NetProfile,
    mote: u8,
    board: &mut N,
    link: &mut L,
    clock: &mut C,
    watch: &mut W,
    seed: u32,
    turns: u64,
    out: &mut K,
) -> Status
    requires allowed { IsAllowed profile.now }
    requires known { mote < profile.now.motes }
    ensures served { (before after : InputState) (boards : List Device) → Owns profile.now.motes mote (N.device board.old) boards
        → MoteServed result profile.now mote seed turns
        (outside before (output_of (K.Sink, out.old)) (link_state (L.Link, link.old)) (C.told clock.old) boards)
        (outside after (output_of (K.Sink, out.new)) (link_state (L.Link, link.new)) (C.told clock.new)
        (slice_set boards mote (N.device board.new))) }
    // All byte arrays that are alive at once in a mote's call have no more than 256 bytes, and the value of a mote holds none
    // but the outbox and its sets.
    ensures buffers { BuffersFit × ValuesAreSmall }
    ensures writes { K.faults out.old ≤ K.faults out.new }
    ensures sends { L.faults link.old ≤ L.faults link.new }
{
    a_mote_buffers_little();
    let mut service = match open_service(alloc, profile, link, clock, seed, out) {
        Ok(service) => service,
        Err(stop) => return fail(alloc, out, End::from(stop)),
    };
    match run(
        &mut service,
        turns,
        profile,
        mote,
        board,
        link,
        clock,
        watch,
        out,
    ) {
        Ok(()) => Status::Done,
        Err(stop) => fail(alloc, out, End::from(stop)),
    }
}
