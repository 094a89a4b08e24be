//! A service of one mote of the network in an input.
ghost use Rattle.std.specs.Prelude.{◌≤◌, List, Ok, slice_set};
ghost use Rattle.dg_base.specs.Sizes.{most_motes};
ghost use Rattle.dg_mote.specs.Sizes.{BuffersFit, ValuesAreSmall};
ghost use Rattle.dg_netcfg.specs.Readings.{IsAllowed};
ghost use Rattle.dg_nor.specs.Device.{Device};
ghost use Rattle.dg_outside.specs.Outside.{InputState, input_of, output_of, link_state, outside};
ghost use Rattle.dg_single.specs.Networks.{MoteDone, MoteOfNetworkServed};
ghost use Rattle.dg_single.specs.Overs.{Owns};

use crate::serving::serve_mote;
use dg_base::{Clock, Sink, Source, Status};
use dg_end::{End, fail};
use dg_link::Link;
use dg_mote::a_mote_buffers_little;
use dg_netcfg::{NetProfile, ProfileFault};
use dg_nor::Nor;
use dg_serve::read_network;
use std::alloc::Global;

/// Reads a network profile from `input`, a document of TOML 1.1 of at most 16,777,216 bytes, and runs a mote of it for this
/// many turns, as [`serve_mote`] does. If the input is not a profile, or is one without that mote, the last line says why, and
/// nothing else is done.
pub fn serve_mote_of_network<S: Source, K: Sink, N: Nor, L: Link, C: Clock, W: Clock>(
    alloc: Global,
    input: &mut S,
    mote: u8,
    board: &mut N,
    link: &mut L,
    clock: &mut C,
    watch: &mut W,
    seed: u32,
    turns: u64,
    out: &mut K,
) -> Status
    ensures served { (boards : List Device) → Owns most_motes mote (N.device board.old) boards
        → MoteOfNetworkServed result mote seed turns
        (outside (input_of (S.Source, input.old)) (output_of (K.Sink, out.old)) (link_state (L.Link, link.old))
        (C.told clock.old) boards)
        (outside (input_of (S.Source, input.new)) (output_of (K.Sink, out.new)) (link_state (L.Link, link.new))
        (C.told clock.new) (slice_set boards mote (N.device board.new))) }
    // All byte arrays that are alive at once in a mote's call have no more than 256 bytes, and the value of a mote holds none
    // but the outbox and its sets.
    ensures buffers { BuffersFit × ValuesAreSmall }
    ensures writes { K.faults out.old ≤ K.faults out.new }
    ensures sends { L.faults link.old ≤ L.faults link.new }
{
    a_mote_buffers_little();
    match read_network(alloc, input) {
        Ok(profile) => serve_in(
            alloc, &profile, mote, board, link, clock, watch, seed, turns, out,
        ),
        Err(end) => fail(alloc, out, end),
    }
}

/// Runs a mote of a profile, if it is one.
fn serve_in<K: Sink, N: Nor, L: Link, C: Clock, W: Clock>(
    alloc: Global,
    profile: &NetProfile,
    mote: u8,
    board: &mut N,
    link: &mut L,
    clock: &mut C,
    watch: &mut W,
    seed: u32,
    turns: u64,
    out: &mut K,
) -> Status
    requires { IsAllowed profile.now }
    ensures done { (before after : InputState) (boards : List Device) → Owns most_motes mote (N.device board.old) boards
        → MoteDone (Ok profile.now) result mote seed turns
        (outside before (output_of (K.Sink, out.old)) (link_state (L.Link, link.old)) (C.told clock.old) boards)
        (outside after (output_of (K.Sink, out.new)) (link_state (L.Link, link.new)) (C.told clock.new)
        (slice_set boards mote (N.device board.new))) }
    ensures writes { K.faults out.old ≤ K.faults out.new }
    ensures sends { L.faults link.old ≤ L.faults link.new }
{
    if mote >= profile.motes {
        return fail(alloc, out, End::BadProfile(ProfileFault::Id));
    }
    serve_mote(
        alloc, profile, mote, board, link, clock, watch, seed, turns, out,
    )
}
