//! A link over datagrams between sockets of this machine.
ghost use Rattle.std.specs.Prelude.{◌≡◌, ◌+◌, ◌^◌, ◌<◌, ◌≤◌, [], length, Err, None, Some, IfOk, IfErr, IfSome, OnOk, OnErr};
ghost use Rattle.dg_words.specs.Counts.{Rose};
ghost use Rattle.dg_base.specs.Sizes.{longest_frame, most_motes, greatest_port};

use crate::cause::{LinkCause, port_cause};
use crate::pace::Pace;
use dg_base::LONGEST_FRAME;
use dg_link::{Link, LinkFailed, OpenFault};
use std::alloc::{AllocError, Global};
use std::io;
use std::io::ErrorKind;
use std::net::{IpAddr, Ipv4Addr, Net, SocketAddr, UdpSocket};
use std::time::Clock as Timer;

/// A link of which each mote has a socket on 127.0.0.1. The port of mote m is that of the first mote plus m.
///
/// What arrives at a socket is received, whoever sent it. The first 64 bytes of a datagram are kept. What is sent may be lost.
///
/// A receive takes what is there, and the link sets the pace of its motes. A turn in which nothing came lasts 16 ms,
/// however many motes there are, and 50 ms once nothing has come for a second. A turn in which a frame came does not wait.
/// A new turn begins with a receive at a mote that already received in the current turn, or whose number is below that of
/// one that did. It is this receive that waits for the rest of the previous turn.
#[derive(Drop)]
pub struct UdpLink<'r, R> {
    net: &'r R,
    port: u16,
    sockets: Vec<UdpSocket>,
    pace: Pace,
    cause: Option<LinkCause>,
    faults: u64,
}

impl<'r, R: Net + Timer> UdpLink<'r, R> {
    /// A link without sockets.
    pub fn new(net: &'r R, alloc: Global) -> UdpLink<'r, R>
        ensures sockets { result.sockets.items ≡ [] }
        ensures faults { result.faults ≡ 0 }
        ensures cause { result.cause ≡ None }
    {
        UdpLink {
            net,
            port: 0,
            sockets: Vec::new(alloc),
            pace: Pace::begin(net, 1),
            cause: None,
            faults: 0,
        }
    }

    /// Why the last call that failed did so, if one failed.
    pub fn cause(&self) -> Option<LinkCause>
        ensures { result ≡ self.now.cause }
    {
        self.cause
    }

    // A call failed, for this reason.
    fn count_fault(&mut self, cause: LinkCause)
        ensures rose { Rose self.old.faults self.new.faults }
        ensures counts { self.old.faults ≤ self.new.faults }
        ensures same_sockets { self.new.sockets ≡ self.old.sockets }
        ensures same_port { self.new.port ≡ self.old.port }
        ensures told { self.new.cause ≡ Some cause }
    {
        self.cause = Some(cause);
        self.faults = self.faults.saturating_add(1);
    }
}

impl<'r, R: Net + Timer> Link for UdpLink<'r, R> {
    ghost inboxes = { λ _. None };

    ghost mote_count = { λ l. length l.sockets.items };

    ghost faults = { λ l. l.faults };

    ghost first_port = { λ l. Some l.port };

    fn open(&mut self, alloc: Global, port: u16, motes: u16) -> Result<(), OpenFault> {
        self.sockets.clear();
        self.port = port;
        self.pace = Pace::begin(self.net, 1);
        match open_sockets(self.net, alloc, port, motes) {
            Ok(sockets) => {
                self.sockets = sockets;
                Ok(())
            }
            Err(Unopened::Memory) => Err(OpenFault::Memory),
            Err(Unopened::Port(cause)) => {
                self.count_fault(cause);
                Err(OpenFault::LinkFailed)
            }
        }
    }

    fn send(&mut self, from: u16, to: u16, bytes: &[u8]) -> Result<(), LinkFailed> {
        let port = self.port.saturating_add(to);
        if is_sent(&self.sockets[usize::from(from)], address(port), bytes) {
            Ok(())
        } else {
            self.count_fault(LinkCause::Send { port });
            Err(LinkFailed)
        }
    }

    fn receive(
        &mut self,
        at: u16,
        into: &mut [u8; LONGEST_FRAME],
    ) -> Result<Option<usize>, LinkFailed> {
        self.pace.look(self.net, at);
        let received = receive_datagram(&self.sockets[usize::from(at)], into);
        self.pace.note(self.net, matches!(received, Ok(Some(_))));
        match received {
            Ok(received) => Ok(received),
            Err(LinkFailed) => {
                let port = self.port.saturating_add(at);
                self.count_fault(LinkCause::Receive { port });
                Err(LinkFailed)
            }
        }
    }

    ghost has_inboxes = { λ _. tt };
}

// A port of this machine.
pub(crate) fn address(port: u16) -> SocketAddr {
    SocketAddr::new(IpAddr::V4(Ipv4Addr::new(127, 0, 0, 1)), port)
}

// Why sockets could not be opened.
#[derive(Debug, Drop)]
enum Unopened {
    Memory,
    Port(LinkCause),
}

// Sockets at this many ports, from `port` on.
fn open_sockets<R: Net>(
    net: &R,
    alloc: Global,
    port: u16,
    motes: u16,
) -> Result<Vec<UdpSocket>, Unopened>
    requires most { motes ≤ most_motes }
    requires ports { port ≤ greatest_port }
    ensures { IfOk result (λ sockets. length sockets.items ≡ motes) }
{
    let Ok(mut sockets) = Vec::with_capacity(alloc, usize::from(motes)) else {
        return Err(Unopened::Memory);
    };
    for mote in 0..motes {
        match open_socket(net, port + mote) {
            Ok(socket) => push(&mut sockets, socket)?,
            Err(error) => return Err(Unopened::Port(port_cause(error.kind(), port + mote))),
        }
    }
    Ok(sockets)
}

// One socket more.
fn push(sockets: &mut Vec<UdpSocket>, socket: UdpSocket) -> Result<(), Unopened>
    ensures more { OnOk result (length sockets.new.items ≡ length sockets.old.items + 1) }
{
    match sockets.push(socket) {
        Ok(()) => Ok(()),
        Err(_full) => Err(Unopened::Memory),
    }
}

// A socket at a port, whose calls do not block.
pub(crate) fn open_socket<R: Net>(net: &R, port: u16) -> io::Result<UdpSocket> {
    let socket = UdpSocket::bind(net, address(port))?;
    socket.set_nonblocking(true)?;
    Ok(socket)
}

// Sends a datagram, and returns whether it was sent whole. A datagram for which the system has no room counts as sent, and
// is lost.
pub(crate) fn is_sent(socket: &UdpSocket, to: SocketAddr, bytes: &[u8]) -> bool {
    match socket.send_to(bytes, to) {
        Ok(count) => count == bytes.len(),
        Err(error) => error.kind() == ErrorKind::WouldBlock,
    }
}

/// Receives a datagram, if one is there, and returns its length. The first 64 bytes of a longer one are kept. A receive that is
/// interrupted has received no datagram.
pub fn receive_datagram(
    socket: &UdpSocket,
    into: &mut [u8; LONGEST_FRAME],
) -> Result<Option<usize>, LinkFailed>
    ensures fits { IfOk result (λ r. IfSome r (λ n. n ≤ longest_frame)) }
{
    match socket.recv_from(into.as_mut_slice()) {
        Ok((count, _sender)) => Ok(Some(count)),
        Err(error) if is_none_there(error.kind()) => Ok(None),
        Err(_) => Err(LinkFailed),
    }
}

// Whether a receive failed with this because no datagram was there.
fn is_none_there(kind: ErrorKind) -> bool {
    matches!(
        kind,
        ErrorKind::WouldBlock | ErrorKind::TimedOut | ErrorKind::Interrupted
    )
}
