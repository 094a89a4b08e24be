//! The link of one mote over datagrams: its own socket, and the ports of the others.
ghost use Rattle.std.specs.Prelude.{◌≡◌, ◌≤◌, ◌<◌, Err, None, Some, IfOk, IfErr, IfSome, OnOk, OnErr};
ghost use Rattle.dg_words.specs.Counts.{Rose};
ghost use Rattle.dg_base.specs.Sizes.{longest_frame, most_motes, greatest_port};

use crate::cause::{LinkCause, port_cause};
use crate::pace::Pace;
use crate::udp::{address, is_sent, open_socket, receive_datagram};
use dg_base::LONGEST_FRAME;
use dg_link::{Link, LinkFailed, OpenFault};
use std::alloc::Global;
use std::net::{Net, UdpSocket};
use std::time::Clock as Timer;

/// A link of which only one mote has its socket here, on 127.0.0.1: the port of mote m is that of the first mote plus m. The
/// others are elsewhere, each at its own port, or do not exist.
///
/// What arrives at the socket is received, whoever sent it. The first 64 bytes of a datagram are kept. What is sent may be
/// lost, and it is not reported whether anyone listens. Nothing is received at a mote that is elsewhere, and a send from
/// such a mote fails.
///
/// A receive takes what is there, and the link sets the pace of its mote, as [`crate::UdpLink`] does for its motes. The
/// milliseconds of the turns are divided by the scale, and a turn in which nothing came lasts at least one millisecond.
#[derive(Drop)]
pub struct MoteLink<'r, R> {
    net: &'r R,
    /// The mote that has its socket here.
    mote: u16,
    /// A millisecond of the system counts as this many milliseconds of the rules.
    scale: u64,
    port: u16,
    /// How many motes there are, here and elsewhere.
    motes: u16,
    socket: Option<UdpSocket>,
    pace: Pace,
    cause: Option<LinkCause>,
    faults: u64,
}

impl<'r, R: Net + Timer> MoteLink<'r, R> {
    /// A link of this mote without a socket. A millisecond of the system counts as `scale` milliseconds of the rules.
    pub fn new(net: &'r R, mote: u16, scale: u64) -> MoteLink<'r, R>
        ensures motes { result.motes ≡ 0 }
        ensures faults { result.faults ≡ 0 }
        ensures cause { result.cause ≡ None }
    {
        MoteLink {
            net,
            mote,
            scale,
            port: 0,
            motes: 0,
            socket: None,
            pace: Pace::begin(net, scale),
            cause: None,
            faults: 0,
        }
    }

    /// Why the last call that failed did so, if one failed.
    pub fn cause(&self) -> Option<LinkCause>
        ensures { result ≡ self.now.cause }
    {
        self.cause
    }

    // A call failed, for this reason.
    fn count_fault(&mut self, cause: LinkCause)
        ensures rose { Rose self.old.faults self.new.faults }
        ensures counts { self.old.faults ≤ self.new.faults }
        ensures same_motes { self.new.motes ≡ self.old.motes }
        ensures same_port { self.new.port ≡ self.old.port }
        ensures told { self.new.cause ≡ Some cause }
    {
        self.cause = Some(cause);
        self.faults = self.faults.saturating_add(1);
    }

    // The port of a mote, here or elsewhere.
    fn port_of(&self, mote: u16) -> u16 {
        self.port.saturating_add(mote)
    }

    // What arrived at the socket, if this mote has it.
    fn received(
        &mut self,
        at: u16,
        into: &mut [u8; LONGEST_FRAME],
    ) -> Result<Option<usize>, LinkFailed>
        ensures fits { IfOk result (λ r. IfSome r (λ n. n ≤ longest_frame)) }
        ensures same_motes { self.new.motes ≡ self.old.motes }
        ensures same_port { self.new.port ≡ self.old.port }
        ensures same_faults { self.new.faults ≡ self.old.faults }
    {
        if at != self.mote {
            return Ok(None);
        }
        self.pace.look(self.net, at);
        let received = match &self.socket {
            Some(socket) => receive_datagram(socket, into),
            None => Ok(None),
        };
        self.pace.note(self.net, matches!(received, Ok(Some(_))));
        received
    }

    // Whether a frame was sent whole from a mote that has its socket here.
    fn goes_out(&self, from: u16, port: u16, bytes: &[u8]) -> bool {
        match &self.socket {
            Some(socket) if from == self.mote => is_sent(socket, address(port), bytes),
            _ => false,
        }
    }
}

impl<'r, R: Net + Timer> Link for MoteLink<'r, R> {
    ghost inboxes = { λ _. None };

    ghost mote_count = { λ l. l.motes };

    ghost faults = { λ l. l.faults };

    ghost first_port = { λ l. Some l.port };

    fn open(&mut self, _alloc: Global, port: u16, motes: u16) -> Result<(), OpenFault> {
        self.socket = None;
        self.motes = 0;
        self.port = port;
        self.pace = Pace::begin(self.net, self.scale);
        let own = self.port_of(self.mote);
        match open_socket(self.net, own) {
            Ok(socket) => {
                self.socket = Some(socket);
                self.motes = motes;
                Ok(())
            }
            Err(error) => {
                self.count_fault(port_cause(error.kind(), own));
                Err(OpenFault::LinkFailed)
            }
        }
    }

    fn send(&mut self, from: u16, to: u16, bytes: &[u8]) -> Result<(), LinkFailed> {
        let port = self.port_of(to);
        if self.goes_out(from, port, bytes) {
            Ok(())
        } else {
            self.count_fault(LinkCause::Send { port });
            Err(LinkFailed)
        }
    }

    fn receive(
        &mut self,
        at: u16,
        into: &mut [u8; LONGEST_FRAME],
    ) -> Result<Option<usize>, LinkFailed> {
        match self.received(at, into) {
            Ok(received) => Ok(received),
            Err(LinkFailed) => {
                let port = self.port_of(at);
                self.count_fault(LinkCause::Receive { port });
                Err(LinkFailed)
            }
        }
    }

    ghost has_inboxes = { λ _. tt };
}
