//! A service from its first line to its last.
ghost use Rattle.std.specs.Prelude.{◌≡◌, ◌≢◌, ◌≤◌, List, map, replicate, None, Ok, IfOk};
ghost use Rattle.dg_words.specs.Counts.{Rose};
ghost use Rattle.dg_mote.specs.Sizes.{BuffersFit, ValuesAreSmall};
ghost use Rattle.dg_netcfg.specs.Readings.{IsAllowed};
ghost use Rattle.dg_nor.specs.Device.{Device};
ghost use Rattle.dg_outside.specs.Outside.{InputState, output_of, link_state, outside};
ghost use Rattle.dg_serve.specs.Networks.{NetworkDone};
ghost use Rattle.dg_serve.specs.Ran.{ServiceOpens, OpensLink};

use crate::service::Service;
use crate::stop::Stop;
use crate::telling::{put, write_head};
use crate::timeline::Timeline;
use dg_base::{Clock, Sink, Status};
use dg_end::{End, fail};
use dg_link::{Link, OpenFault};
use dg_mote::a_mote_buffers_little;
use dg_netcfg::NetProfile;
use dg_node::Node;
use dg_nor::Nor;
use std::alloc::{AllocError, Global};

/// Runs the motes of a profile, all of them wide, for this many turns, over the boards, the link and the clock, and writes
/// what happens to `out` as a script. `turns` is at most 1,000,000.
pub fn serve<K: Sink, N: Nor, L: Link, C: Clock>(
    alloc: Global,
    profile: &NetProfile,
    boards: &mut Vec<N>,
    link: &mut L,
    clock: &mut C,
    seed: u32,
    turns: u32,
    out: &mut K,
) -> Status
    requires allowed { IsAllowed profile.now }
    requires turns { turns ≤ 1000000 }
    ensures served { (before after : InputState) → NetworkDone (Ok profile.now) result seed turns
        (outside before (output_of (K.Sink, out.old)) (link_state (L.Link, link.old)) (C.told clock.old)
        (map N.device boards.old.items))
        (outside after (output_of (K.Sink, out.new)) (link_state (L.Link, link.new)) (C.told clock.new)
        (map N.device boards.new.items)) }
    // All byte arrays that are alive at once in a mote's call have no more than 256 bytes, and the value of a mote holds none
    // but the outbox and its sets.
    ensures buffers { BuffersFit × ValuesAreSmall }
    ensures link_fault { result ≡ Status.LinkFault → Rose (L.faults link.old) (L.faults link.new) }
    ensures unfailed { result ≢ Status.LinkFault → L.faults link.new ≡ L.faults link.old }
    ensures writes { K.faults out.old ≤ K.faults out.new }
    ensures sends { L.faults link.old ≤ L.faults link.new }
{
    a_mote_buffers_little();
    let have = boards.len();
    if have < usize::from(profile.motes) {
        let end = End::NoBoard {
            need: profile.motes,
            have: have as u32,
        };
        return fail(alloc, out, end);
    }
    let mut service = match open_service(alloc, profile, link, clock, seed, out) {
        Ok(service) => service,
        Err(stop) => return fail(alloc, out, End::from(stop)),
    };
    match service.run(turns, profile, boards.as_mut_slice(), link, clock, out) {
        Ok(()) => Status::Done,
        Err(stop) => fail(alloc, out, End::from(stop)),
    }
}

/// Writes the first lines, opens the link and reads the clock. All motes are off.
pub fn open_service<K: Sink, L: Link, C: Clock>(
    alloc: Global,
    profile: &NetProfile,
    link: &mut L,
    clock: &mut C,
    seed: u32,
    out: &mut K,
) -> Result<Service, Stop>
    requires allowed { IsAllowed profile.now }
    ensures opens { (before after : InputState) (boards : List Device) → ServiceOpens result profile.now seed
        (outside before (output_of (K.Sink, out.old)) (link_state (L.Link, link.old)) (C.told clock.old) boards)
        (L.mote_count link.new) (C.reached clock.new)
        (outside after (output_of (K.Sink, out.new)) (link_state (L.Link, link.new)) (C.told clock.new) boards) }
    ensures writes { K.faults out.old ≤ K.faults out.new }
    ensures sends { L.faults link.old ≤ L.faults link.new }
{
    let motes = all_off(alloc, profile.motes)?;
    let mut text = Vec::new(alloc);
    write_head(profile, &mut text)?;
    put(text.as_slice(), out)?;
    open(alloc, profile, link)?;
    let timeline = Timeline::begin(clock, seed);
    Ok(Service {
        motes,
        timeline,
        text,
        alloc,
    })
}

/// Opens the link.
fn open<L: Link>(alloc: Global, profile: &NetProfile, link: &mut L) -> Result<(), Stop>
    requires { IsAllowed profile.now }
    ensures opens { OpensLink result profile.now (L.mote_count link.new) (link_state (L.Link, link.old))
        (link_state (L.Link, link.new)) }
    ensures sends { L.faults link.old ≤ L.faults link.new }
{
    match link.open(alloc, profile.port, u16::from(profile.motes)) {
        Ok(()) => Ok(()),
        Err(OpenFault::Memory) => Err(Stop::Memory),
        Err(OpenFault::LinkFailed) => Err(Stop::Link),
    }
}

/// `motes` motes, all of them off.
fn all_off(alloc: Global, motes: u8) -> Result<Vec<Option<Node>>, AllocError>
    ensures { IfOk result (λ off. off.items ≡ replicate motes None) }
{
    let mut off = Vec::with_capacity(alloc, usize::from(motes))?;
    for _mote in 0..motes {
        off.push(None)?;
    }
    Ok(off)
}
