//! The parts of a service of one mote. Its board is one of the boards that a service of all motes would have, whatever the
//! others are.
ghost use Rattle.std.specs.Prelude.{◌≡◌, ℕ, ◌+◌, ◌^◌, ◌<◌, ◌≤◌, List, [], ◌∷◌, slice_set, Option};
ghost use Rattle.dg_base.specs.Clock.{Answers};
ghost use Rattle.dg_netcfg.specs.Readings.{IsAllowed};
ghost use Rattle.dg_nor.specs.Device.{Device};
ghost use Rattle.dg_serve.specs.Services.{Begins, Looks, Ticks};
ghost use Rattle.dg_serve.specs.Standings.{StandsReady, EventAsks, ApplyEnds, stretch, standing_with, service_standing};
ghost use Rattle.dg_single.specs.Overs.{Owns, over, seat, GoesOver, IsUnderWayOver, ReadyOver, went_so};

use crate::playing::play;
use dg_base::{Clock, Event, Sink};
use dg_link::Link;
use dg_netcfg::NetProfile;
use dg_nor::Nor;
use dg_rules::agreement_is_kept;
use dg_serve::{Service, Stop, event_line, hand_on, put, receive};

/// An event is applied at a mote: its line is written, and then what it sent is forwarded. Where there is no memory for the
/// line, the event is not applied.
pub(crate) fn apply_event<K: Sink, N: Nor, L: Link>(
    service: &mut Service,
    profile: &NetProfile,
    mote: u8,
    event: Event,
    board: &mut N,
    link: &mut L,
    out: &mut K,
) -> Result<(), Stop>
    requires allowed { IsAllowed profile.now }
    requires asks { (boards : List Device) × (told : Option Answers) × (reached : ℕ)
        × Owns profile.now.motes mote (N.device board.old) boards
        × EventAsks profile.now.motes mote profile.now.links event
        (standing_with (service.old, boards) (K.Sink, out.old) (L.Link, link.old) (told, reached)) }
    ensures ends { (boards : List Device) (told : Option Answers) (reached : ℕ)
        → Owns profile.now.motes mote (N.device board.old) boards
        → ApplyEnds result profile.now.motes profile.now.links event
        (standing_with (service.old, boards) (K.Sink, out.old) (L.Link, link.old) (told, reached))
        (standing_with (service.new, slice_set boards mote (N.device board.new)) (K.Sink, out.new) (L.Link, link.new)
        (told, reached)) }
{
    agreement_is_kept();
    event_line(&event, &mut service.text)?;
    let now = service.timeline.moment;
    let sent = play(service.motes.as_mut_slice(), mote, now, &event, board)?;
    put(service.text.as_slice(), out)?;
    hand_on(profile, mote, &sent, link)?;
    Ok(())
}

/// A mote powers on.
pub(crate) fn begin<K: Sink, N: Nor, L: Link, C: Clock>(
    service: &mut Service,
    profile: &NetProfile,
    mote: u8,
    board: &mut N,
    link: &mut L,
    clock: &mut C,
    out: &mut K,
) -> Result<(), Stop>
    requires allowed { IsAllowed profile.now }
    requires known { mote < profile.now.motes }
    requires ready { ReadyOver (seat profile.now.motes mote profile.now.links) mote (N.device board.old)
        (service_standing (service.old, []) (K.Sink, out.old) (L.Link, link.old) (C.Clock, clock.old)) }
    requires early { service.old.timeline.moment < 2 ^ 60 }
    ensures goes { GoesOver result (seat profile.now.motes mote profile.now.links)
        (stretch mote (mote + 1) (Begins mote ∷ [])) (N.device board.old) (N.device board.new)
        (service_standing (service.old, []) (K.Sink, out.old) (L.Link, link.old) (C.Clock, clock.old))
        (service_standing (service.new, []) (K.Sink, out.new) (L.Link, link.new) (C.Clock, clock.new)) }
{
    let timing = service.timeline.next(clock);
    let event = Event::Reset {
        mote,
        dt: timing.dt,
        word: timing.word,
    };
    apply_event(service, profile, mote, event, board, link, out)
}

/// A mote looks whether a frame came, and hears it. Answers whether one did.
pub(crate) fn look<K: Sink, N: Nor, L: Link, C: Clock>(
    service: &mut Service,
    profile: &NetProfile,
    mote: u8,
    board: &mut N,
    link: &mut L,
    clock: &mut C,
    out: &mut K,
) -> Result<bool, Stop>
    requires allowed { IsAllowed profile.now }
    requires known { mote < profile.now.motes }
    requires under_way { IsUnderWayOver (seat profile.now.motes mote profile.now.links) (2 ^ 60) (N.device board.old)
        (service_standing (service.old, []) (K.Sink, out.old) (L.Link, link.old) (C.Clock, clock.old)) }
    ensures goes { GoesOver (went_so result) (seat profile.now.motes mote profile.now.links)
        (stretch profile.now.motes profile.now.motes (Looks mote ∷ [])) (N.device board.old) (N.device board.new)
        (service_standing (service.old, []) (K.Sink, out.old) (L.Link, link.old) (C.Clock, clock.old))
        (service_standing (service.new, []) (K.Sink, out.new) (L.Link, link.new) (C.Clock, clock.new)) }
{
    match receive(service.alloc, link, mote)? {
        Some(bytes) => {
            let timing = service.timeline.next(clock);
            let event = Event::Frame {
                mote,
                dt: timing.dt,
                word: timing.word,
                bytes,
            };
            match apply_event(service, profile, mote, event, board, link, out) {
                Ok(()) => Ok(true),
                Err(stop) => Err(stop),
            }
        }
        None => Ok(false),
    }
}

/// A mote ticks.
pub(crate) fn tick<K: Sink, N: Nor, L: Link, C: Clock>(
    service: &mut Service,
    profile: &NetProfile,
    mote: u8,
    board: &mut N,
    link: &mut L,
    clock: &mut C,
    out: &mut K,
) -> Result<(), Stop>
    requires allowed { IsAllowed profile.now }
    requires known { mote < profile.now.motes }
    requires under_way { IsUnderWayOver (seat profile.now.motes mote profile.now.links) (2 ^ 60) (N.device board.old)
        (service_standing (service.old, []) (K.Sink, out.old) (L.Link, link.old) (C.Clock, clock.old)) }
    ensures goes { GoesOver result (seat profile.now.motes mote profile.now.links)
        (stretch profile.now.motes profile.now.motes (Ticks mote ∷ [])) (N.device board.old) (N.device board.new)
        (service_standing (service.old, []) (K.Sink, out.old) (L.Link, link.old) (C.Clock, clock.old))
        (service_standing (service.new, []) (K.Sink, out.new) (L.Link, link.new) (C.Clock, clock.new)) }
{
    let timing = service.timeline.next(clock);
    let event = Event::Tick {
        mote,
        dt: timing.dt,
        word: timing.word,
    };
    apply_event(service, profile, mote, event, board, link, out)
}
