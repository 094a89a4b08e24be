//! The calls of a link. Of what they do, the clauses tell only how many motes the link has: so the tests that make many of them
//! carry few facts.
ghost use Rattle.std.specs.Prelude.{◌≡◌, ◌<◌, ◌≤◌, length, OnOk};
ghost use Rattle.dg_base.specs.Sizes.{longest_frame, most_motes, greatest_port};

use dg_base::LONGEST_FRAME;
use dg_link::{Link, LinkFailed, OpenFault};
use std::alloc::Global;

/// Opens a link with so many motes.
pub(crate) fn open<L: Link>(
    link: &mut L,
    alloc: Global,
    port: u16,
    motes: u16,
) -> Result<(), OpenFault>
    requires some { 1 ≤ motes }
    requires most { motes ≤ most_motes }
    requires ports { port ≤ greatest_port }
    ensures { OnOk result (L.mote_count link.new ≡ motes) }
{
    link.open(alloc, port, motes)
}

/// Sends a frame from a mote to another.
pub(crate) fn send<L: Link>(
    link: &mut L,
    from: u16,
    to: u16,
    frame: &[u8],
) -> Result<(), LinkFailed>
    requires fits { length frame.now ≤ longest_frame }
    requires sender { from < L.mote_count link.old }
    requires receiver { to < L.mote_count link.old }
    ensures { L.mote_count link.new ≡ L.mote_count link.old }
{
    link.send(from, to, frame)
}

/// Whether the next receive at a mote finds this frame.
pub(crate) fn comes<L: Link>(link: &mut L, at: u16, frame: &[u8]) -> Result<bool, LinkFailed>
    requires { at < L.mote_count link.old }
    ensures { L.mote_count link.new ≡ L.mote_count link.old }
{
    let mut into = [0; LONGEST_FRAME];
    let came = link.receive(at, &mut into)?;
    Ok(came == Some(frame.len()) && into.get(..frame.len()) == Some(frame))
}

/// Whether the next receive at a mote finds nothing.
pub(crate) fn is_quiet<L: Link>(link: &mut L, at: u16) -> Result<bool, LinkFailed>
    requires { at < L.mote_count link.old }
    ensures { L.mote_count link.new ≡ L.mote_count link.old }
{
    let mut into = [0; LONGEST_FRAME];
    Ok(link.receive(at, &mut into)?.is_none())
}
