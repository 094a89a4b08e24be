//! A service of the network that an input spells.
ghost use Rattle.std.specs.Prelude.{◌≡◌, ◌≢◌, ◌≤◌, map, IfOk};
ghost use Rattle.dg_words.specs.Counts.{Rose};
ghost use Rattle.dg_mote.specs.Sizes.{BuffersFit, ValuesAreSmall};
ghost use Rattle.dg_netcfg.specs.Readings.{IsAllowed};
ghost use Rattle.dg_outside.specs.Outside.{input_of, output_of, link_state, outside};
ghost use Rattle.dg_serve.specs.Networks.{NetworkRead, NetworkServed};

use crate::serving::serve;
use dg_base::{Clock, Sink, Source, Status};
use dg_end::{End, fail};
use dg_input::read_whole;
use dg_link::Link;
use dg_mote::a_mote_buffers_little;
use dg_netcfg::{NetProfile, read_profile};
use dg_nor::Nor;
use dg_script::USED;
use std::alloc::Global;

/// Reads a network profile from `input`, a document of TOML 1.1 of at most 16,777,216 bytes, and runs its motes for this many
/// turns, as [`serve`] does. If the input spells no profile, the last line reports why, and nothing else is done. `turns` is
/// at most 1,000,000.
pub fn serve_network<S: Source, K: Sink, N: Nor, L: Link, C: Clock>(
    alloc: Global,
    input: &mut S,
    boards: &mut Vec<N>,
    link: &mut L,
    clock: &mut C,
    seed: u32,
    turns: u32,
    out: &mut K,
) -> Status
    requires turns { turns ≤ 1000000 }
    ensures served { NetworkServed result seed turns
        (outside (input_of (S.Source, input.old)) (output_of (K.Sink, out.old)) (link_state (L.Link, link.old))
        (C.told clock.old) (map N.device boards.old.items))
        (outside (input_of (S.Source, input.new)) (output_of (K.Sink, out.new)) (link_state (L.Link, link.new))
        (C.told clock.new) (map N.device boards.new.items)) }
    // All byte arrays that are alive at once in a mote's call have no more than 256 bytes, and the value of a mote holds none
    // but the outbox and its sets.
    ensures buffers { BuffersFit × ValuesAreSmall }
    ensures link_fault { result ≡ Status.LinkFault → Rose (L.faults link.old) (L.faults link.new) }
    ensures unfailed { result ≢ Status.LinkFault → L.faults link.new ≡ L.faults link.old }
    ensures reads { S.faults input.old ≤ S.faults input.new }
    ensures writes { K.faults out.old ≤ K.faults out.new }
    ensures sends { L.faults link.old ≤ L.faults link.new }
{
    a_mote_buffers_little();
    match read_network(alloc, input) {
        Ok(profile) => serve(alloc, &profile, boards, link, clock, seed, turns, out),
        Err(end) => fail(alloc, out, end),
    }
}

/// Reads the network profile that an input spells. At most 16,777,216 bytes are used. One that is too long is refused whatever
/// it spells.
pub fn read_network<S: Source>(alloc: Global, input: &mut S) -> Result<NetProfile, End>
    ensures read { NetworkRead result (input_of (S.Source, input.old)) (input_of (S.Source, input.new)) }
    ensures allowed { IfOk result IsAllowed }
    ensures counts { S.faults input.old ≤ S.faults input.new }
{
    let text = read_whole(alloc, input)?;
    if text.len() > USED {
        return Err(End::TooLong);
    }
    let profile = read_profile(alloc, &text)?;
    Ok(profile)
}
