//! Frames over the link.
ghost use Rattle.std.specs.Prelude.{◌≡◌, ◌<◌, ◌≤◌, ◌∷◌, [], if◌then◌else◌, length, option_map, Some, IfErr, OnOk, OnErr};
ghost use Rattle.std.specs.Prelude.{MatchResult};
ghost use Rattle.dg_base.specs.Sizes.{longest_frame};
ghost use Rattle.dg_script.specs.Ranges.{IsFrame};
ghost use Rattle.dg_script.specs.Places.{is_linked, joins};
ghost use Rattle.dg_mote.specs.Motes.{sent_in};
ghost use Rattle.dg_serve.specs.Services.{handed_to};
ghost use Rattle.dg_serve.specs.inner.Stretches.{neighbours_by};
ghost use Rattle.dg_serve.specs.Standings.{ReceivedAt, FailuresBy, handed_by, HandedToSome};

use crate::stop::Stop;
use dg_base::{Bytes, LONGEST_FRAME};
use dg_link::{Link, LinkFailed};
use dg_mote::Outbox;
use dg_netcfg::NetProfile;
use std::alloc::{AllocError, Global};

/// The frame that came to a mote, if one did.
pub fn receive<L: Link>(alloc: Global, link: &mut L, mote: u8) -> Result<Option<Bytes>, Stop>
    requires { mote < L.mote_count link.old }
    ensures received { ReceivedAt result mote (L.inboxes link.old) (L.inboxes link.new) }
    ensures counts { FailuresBy result (L.faults link.old) (L.faults link.new) }
    ensures same_motes { L.mote_count link.new ≡ L.mote_count link.old }
    ensures same_port { L.first_port link.new ≡ L.first_port link.old }
{
    let mut into = [0; LONGEST_FRAME];
    match link.receive(u16::from(mote), &mut into) {
        Ok(Some(count)) => Ok(Some(keep(alloc, &into[..count])?)),
        Ok(None) => Ok(None),
        Err(LinkFailed) => Err(Stop::Link),
    }
}

/// Keeps a frame that came.
fn keep(alloc: Global, frame: &[u8]) -> Result<Bytes, Stop>
    requires { length frame.now ≤ longest_frame }
    ensures { MatchResult result (λ bytes. (bytes ≡ frame.now) × IsFrame bytes) (λ why. why ≡ Stop.Memory) }
{
    match frame.to_vec(alloc) {
        Ok(bytes) => Ok(Bytes::new(bytes)),
        Err(AllocError) => Err(Stop::Memory),
    }
}

/// Forwards what a mote sent, if anything, to each of its neighbours in ascending order.
pub fn hand_on<L: Link>(
    profile: &NetProfile,
    mote: u8,
    out: &Outbox,
    link: &mut L,
) -> Result<(), Stop>
    requires known { mote < profile.now.motes }
    requires addressees { L.mote_count link.old ≡ profile.now.motes }
    ensures ok { OnOk result (L.inboxes link.new
        ≡ option_map (handed_by profile.now.links profile.now.motes mote (sent_in out.now)) (L.inboxes link.old)) }
    ensures err { OnErr result (HandedToSome profile.now.links profile.now.motes mote (sent_in out.now) (L.inboxes link.old)
        (L.inboxes link.new)) }
    ensures cause { IfErr result (λ why. why ≡ Stop.Link) }
    ensures counts { FailuresBy result (L.faults link.old) (L.faults link.new) }
    ensures same_motes { L.mote_count link.new ≡ L.mote_count link.old }
    ensures same_port { L.first_port link.new ≡ L.first_port link.old }
{
    match out.frame() {
        Some(frame) => hand_to_neighbours(profile, mote, frame.as_slice(), link),
        None => Ok(()),
    }
}

/// Forwards a frame to each neighbour of a mote in ascending order.
fn hand_to_neighbours<L: Link>(
    profile: &NetProfile,
    mote: u8,
    frame: &[u8],
    link: &mut L,
) -> Result<(), Stop>
    requires known { mote < profile.now.motes }
    requires addressees { L.mote_count link.old ≡ profile.now.motes }
    requires fits { length frame.now ≤ longest_frame }
    ensures ok { OnOk result (L.inboxes link.new
        ≡ option_map (handed_to (neighbours_by profile.now.links profile.now.motes mote) frame.now) (L.inboxes link.old)) }
    ensures err { OnErr result (HandedToSome profile.now.links profile.now.motes mote (Some frame.now) (L.inboxes link.old)
        (L.inboxes link.new)) }
    ensures cause { IfErr result (λ why. why ≡ Stop.Link) }
    ensures counts { FailuresBy result (L.faults link.old) (L.faults link.new) }
    ensures same_motes { L.mote_count link.new ≡ L.mote_count link.old }
    ensures same_port { L.first_port link.new ≡ L.first_port link.old }
{
    for other in 0..profile.motes {
        hand_to(profile, mote, other, frame, link)?;
    }
    Ok(())
}

/// Forwards a frame to another mote, if it is a neighbour.
fn hand_to<L: Link>(
    profile: &NetProfile,
    mote: u8,
    other: u8,
    frame: &[u8],
    link: &mut L,
) -> Result<(), Stop>
    requires known { mote < L.mote_count link.old }
    requires other_known { other < L.mote_count link.old }
    requires fits { length frame.now ≤ longest_frame }
    ensures ok { OnOk result (L.inboxes link.new
        ≡ option_map (handed_to (if is_linked profile.now.links mote other then other ∷ [] else []) frame.now)
        (L.inboxes link.old)) }
    ensures err { OnErr result (L.inboxes link.new ≡ L.inboxes link.old) }
    ensures cause { IfErr result (λ why. why ≡ Stop.Link) }
    ensures counts { FailuresBy result (L.faults link.old) (L.faults link.new) }
    ensures same_motes { L.mote_count link.new ≡ L.mote_count link.old }
    ensures same_port { L.first_port link.new ≡ L.first_port link.old }
{
    if !are_linked(profile.links.as_slice(), mote, other) {
        return Ok(());
    }
    match link.send(u16::from(mote), u16::from(other), frame) {
        Ok(()) => Ok(()),
        Err(LinkFailed) => Err(Stop::Link),
    }
}

/// Whether two motes are neighbours.
fn are_linked(links: &[(u8, u8)], a: u8, b: u8) -> bool
    ensures { result ≡ is_linked links.now a b }
{
    links.iter().any(|link| joins(*link, a, b))
}

/// Whether a link joins two motes, in either order.
fn joins(link: (u8, u8), a: u8, b: u8) -> bool
    ensures { result ≡ joins a b link }
{
    (link.0 == a && link.1 == b) || (link.0 == b && link.1 == a)
}
