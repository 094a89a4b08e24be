//! The turns of a service of one mote.
ghost use Rattle.std.specs.Prelude.{◌≡◌, ◌^◌, ◌<◌, List, [], slice_set};
ghost use Rattle.dg_netcfg.specs.Readings.{IsAllowed};
ghost use Rattle.dg_nor.specs.Device.{Device};
ghost use Rattle.dg_serve.specs.Standings.{service_standing};
ghost use Rattle.dg_single.specs.Overs.{Owns, over, seat, ReadyOver, IsUnderWayOver, TurnGoes, TurnsGo, RunGoes};

use crate::parts::{begin, look, tick};
use crate::watch::Rest;
use dg_base::{Clock, Sink};
use dg_link::Link;
use dg_netcfg::NetProfile;
use dg_nor::Nor;
use dg_serve::{Service, Stop};

/// The moment from which no turn begins, in milliseconds. That is in nine million years.
const LATEST: u64 = 288_230_376_151_711_744;

/// A turn: a mote looks, and ticks where a frame came or where its rest is over.
fn play_turn<K: Sink, N: Nor, L: Link, C: Clock, W: Clock>(
    service: &mut Service,
    rest: &mut Rest,
    profile: &NetProfile,
    mote: u8,
    board: &mut N,
    link: &mut L,
    clock: &mut C,
    watch: &mut W,
    out: &mut K,
) -> Result<(), Stop>
    requires allowed { IsAllowed profile.now }
    requires known { mote < profile.now.motes }
    requires under_way { IsUnderWayOver (seat profile.now.motes mote profile.now.links) (2 ^ 59) (N.device board.old)
        (service_standing (service.old, []) (K.Sink, out.old) (L.Link, link.old) (C.Clock, clock.old)) }
    ensures goes { TurnGoes result (seat profile.now.motes mote profile.now.links) (N.device board.old) (N.device board.new)
        (service_standing (service.old, []) (K.Sink, out.old) (L.Link, link.old) (C.Clock, clock.old))
        (service_standing (service.new, []) (K.Sink, out.new) (L.Link, link.new) (C.Clock, clock.new)) }
{
    let came = look(service, profile, mote, board, link, clock, out)?;
    let reading = watch.read();
    let calls = came
        || rest.is_over(
            reading,
            service.timeline.moment,
            service.motes.as_slice(),
            mote,
        );
    if !calls {
        return Ok(());
    }
    rest.since = reading;
    tick(service, profile, mote, board, link, clock, out)?;
    Ok(())
}

/// Plays this many turns, or as many as begin before the latest moment.
fn play_turns<K: Sink, N: Nor, L: Link, C: Clock, W: Clock>(
    service: &mut Service,
    rest: &mut Rest,
    turns: u64,
    profile: &NetProfile,
    mote: u8,
    board: &mut N,
    link: &mut L,
    clock: &mut C,
    watch: &mut W,
    out: &mut K,
) -> Result<(), Stop>
    requires allowed { IsAllowed profile.now }
    requires known { mote < profile.now.motes }
    requires under_way { IsUnderWayOver (seat profile.now.motes mote profile.now.links) (2 ^ 60) (N.device board.old)
        (service_standing (service.old, []) (K.Sink, out.old) (L.Link, link.old) (C.Clock, clock.old)) }
    ensures goes { (boards : List Device) → Owns profile.now.motes mote (N.device board.old) boards
        → TurnsGo result (seat profile.now.motes mote profile.now.links) turns
        (over (service_standing (service.old, []) (K.Sink, out.old) (L.Link, link.old) (C.Clock, clock.old)) boards)
        (over (service_standing (service.new, []) (K.Sink, out.new) (L.Link, link.new) (C.Clock, clock.new))
        (slice_set boards mote (N.device board.new))) }
{
    for _turn in 0..turns {
        if service.timeline.moment >= LATEST {
            return Ok(());
        }
        play_turn(service, rest, profile, mote, board, link, clock, watch, out)?;
    }
    Ok(())
}

/// A mote powers on, and then this many turns are played.
pub(crate) fn run<K: Sink, N: Nor, L: Link, C: Clock, W: Clock>(
    service: &mut Service,
    turns: u64,
    profile: &NetProfile,
    mote: u8,
    board: &mut N,
    link: &mut L,
    clock: &mut C,
    watch: &mut W,
    out: &mut K,
) -> Result<(), Stop>
    requires allowed { IsAllowed profile.now }
    requires known { mote < profile.now.motes }
    requires ready { ReadyOver (seat profile.now.motes mote profile.now.links) 0 (N.device board.old)
        (service_standing (service.old, []) (K.Sink, out.old) (L.Link, link.old) (C.Clock, clock.old)) }
    requires early { service.old.timeline.moment ≡ 0 }
    ensures goes { (boards : List Device) → Owns profile.now.motes mote (N.device board.old) boards
        → RunGoes result (seat profile.now.motes mote profile.now.links) turns
        (over (service_standing (service.old, []) (K.Sink, out.old) (L.Link, link.old) (C.Clock, clock.old)) boards)
        (over (service_standing (service.new, []) (K.Sink, out.new) (L.Link, link.new) (C.Clock, clock.new))
        (slice_set boards mote (N.device board.new))) }
{
    begin(service, profile, mote, board, link, clock, out)?;
    let mut rest = Rest {
        since: watch.read(),
    };
    play_turns(
        service, &mut rest, turns, profile, mote, board, link, clock, watch, out,
    )?;
    Ok(())
}
