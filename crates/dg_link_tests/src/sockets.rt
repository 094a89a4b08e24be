//! Sockets and the clock of this machine.
ghost use Rattle.std.specs.Prelude.{◌≡◌, ◌<◌, ◌≤◌, length, OnOk};
ghost use Rattle.dg_base.specs.Sizes.{longest_frame, most_motes};

use crate::carrying::{comes, is_quiet, open, send};
use dg_base::{Clock, LONGEST_FRAME};
use dg_link::{Link, LinkFailed, OpenFault};
use dg_net::{LinkCause, MoteLink, SystemClock, UdpLink, receive_datagram};
use std::alloc::Global;
use std::net::{IpAddr, Ipv4Addr, Net, SocketAddr, UdpSocket};
use std::process;
use std::test::Fail;
use std::time::{Clock as Timer, Instant};

// A port from which sixteen are free, as far as can be known. Each process looks elsewhere first.
fn free_port<R: Net + Timer>(rt: &R, alloc: Global, process: u32) -> u16
    ensures { result < 65000 }
{
    for step in 0..200 {
        let port = 20_000 + 200 * (((process % 200) as u16 + step) % 200);
        if UdpLink::new(rt, alloc).open(alloc, port, 16).is_ok() {
            return port;
        }
    }
    20_000
}

/// The same, for this process.
fn own_port(rt: &HostRuntime) -> u16
    ensures { result < 65000 }
{
    free_port(rt, rt.alloc(), process::id(rt.process()))
}

/// Sends a datagram to a port of this machine, from a port of the system's choice.
fn send_from_outside(rt: &HostRuntime, port: u16, bytes: &[u8]) -> Result<(), Fail> {
    let stranger = UdpSocket::bind(rt, "127.0.0.1:0")?;
    stranger.send_to(bytes, loopback(port))?;
    Ok(())
}

/// Whether nothing comes to a mote at first, and what the other sends comes to it alone.
fn carries_two<L: Link>(link: &mut L) -> Result<[bool; 4], LinkFailed>
    requires { L.mote_count link.old ≡ 2 }
    ensures { OnOk result (L.mote_count link.new ≡ 2) }
{
    let before = is_quiet(link, 1)?;
    send(link, 0, 1, b"hello")?;
    send(link, 0, 1, b"")?;
    Ok([
        before,
        is_quiet(link, 0)?,
        comes(link, 1, b"hello")?,
        comes(link, 1, b"")?,
    ])
}

#[test]
fn datagrams_come_to_their_mote(rt: HostRuntime) -> Result<(), Fail> {
    let alloc = rt.alloc();
    let port = own_port(&rt);
    let mut link = UdpLink::new(&rt, alloc);
    open(&mut link, alloc, port, 2)?;
    assert_eq!(rt; carries_two(&mut link)?, [true; 4]);
    send_from_outside(&rt, port, &[9; LONGEST_FRAME + 1])?;
    assert!(rt; comes(&mut link, 0, &[9; LONGEST_FRAME])?);
    let other = UdpLink::new(&rt, alloc).open(alloc, port + 1, 1);
    assert_eq!(rt; other, Err(OpenFault::LinkFailed));
    Ok(())
}

/// Receives at each of these motes so many times, and returns whether nothing came.
fn nothing_comes<L: Link>(link: &mut L, motes: u16, turns: u32) -> Result<bool, LinkFailed>
    requires { L.mote_count link.old ≡ motes }
{
    let mut into = [0; LONGEST_FRAME];
    let mut nothing = true;
    for _ in 0..turns {
        for mote in 0..motes {
            nothing = link.receive(mote, &mut into)?.is_none() && nothing;
        }
    }
    Ok(nothing)
}

/// Sends a frame from a mote to itself so many times, and returns whether each was there at the next receive.
fn frames_come<L: Link>(link: &mut L, turns: u32) -> Result<bool, LinkFailed>
    requires { L.mote_count link.old ≡ 1 }
{
    let mut into = [0; LONGEST_FRAME];
    let mut each = true;
    for _ in 0..turns {
        send(link, 0, 0, b"hello")?;
        each = link.receive(0, &mut into)? == Some(5) && each;
    }
    Ok(each)
}

/// Whether a frame arrives whole from one of sixteen motes at another.
fn carries(rt: &HostRuntime, port: u16, from: u16, to: u16, frame: &[u8]) -> Result<bool, Fail>
    requires from { from < 16 }
    requires to { to < 16 }
    requires ports { port < 65000 }
    requires fits { length frame.now ≤ longest_frame }
{
    let alloc = rt.alloc();
    let mut link = UdpLink::new(rt, alloc);
    open(&mut link, alloc, port, 16)?;
    send(&mut link, from, to, frame)?;
    Ok(comes(&mut link, to, frame)?)
}

// A frame of each length arrives whole, from and to each mote of the largest network.
#[test]
fn frames_of_each_length_come_to_each_mote(rt: HostRuntime) -> Result<(), Fail> {
    let port = own_port(&rt);
    let mut frame = [0; LONGEST_FRAME];
    for k in 0..LONGEST_FRAME {
        frame[k] = k as u8 + 1;
    }
    for length in 0..=LONGEST_FRAME {
        let at = (length % 16) as u16;
        assert!(rt; carries(&rt, port, 15 - at, at, &frame[..length])?);
    }
    Ok(())
}

// If a socket listens on all addresses, no other socket can have one of them at its port.
#[test]
fn motes_listen_at_the_loopback_address_alone(rt: HostRuntime) -> Result<(), Fail> {
    let alloc = rt.alloc();
    let port = own_port(&rt);
    let mut link = UdpLink::new(&rt, alloc);
    open(&mut link, alloc, port, 1)?;
    send_beside(
        &rt,
        SocketAddr::new(IpAddr::V4(Ipv4Addr::new(127, 0, 0, 2)), port),
    )?;
    assert!(rt; is_quiet(&mut link, 0)?);
    Ok(())
}

/// Sends a datagram from an address to itself.
fn send_beside(rt: &HostRuntime, beside: SocketAddr) -> Result<(), Fail> {
    let stranger = UdpSocket::bind(rt, beside)?;
    stranger.send_to(b"aside", beside)?;
    Ok(())
}

// A port of this machine.
fn loopback(port: u16) -> SocketAddr {
    SocketAddr::new(IpAddr::V4(Ipv4Addr::new(127, 0, 0, 1)), port)
}

// Nothing is sent to port 0.
#[test]
fn a_failed_send_is_told(rt: HostRuntime) -> Result<(), Fail> {
    let alloc = rt.alloc();
    let mut link = MoteLink::new(&rt, 0, 1);
    open(&mut link, alloc, 0, 1)?;
    assert_eq!(rt; send(&mut link, 0, 0, b"hello"), Err(LinkFailed));
    assert_eq!(rt; link.cause(), Some(LinkCause::Send { port: 0 }));
    Ok(())
}

// What is sent to a port at which nobody listens is refused, and the next receive reports it.
#[test]
fn a_failed_receive_is_told(rt: HostRuntime) -> Result<(), Fail> {
    let mut into = [0; LONGEST_FRAME];
    let socket = UdpSocket::bind(&rt, loopback(0))?;
    let gone = UdpSocket::bind(&rt, loopback(0))?;
    let there = gone.local_addr()?;
    drop(gone);
    socket.connect(there)?;
    socket.send(b"hello")?;
    assert_eq!(rt; receive_datagram(&socket, &mut into), Err(LinkFailed));
    Ok(())
}

/// Whether nothing comes in so many turns of so many motes, and how many milliseconds they last by the clock.
fn quiet_turns(rt: &HostRuntime, motes: u16, turns: u32) -> Result<(bool, u64), Fail>
    requires some { 1 ≤ motes }
    requires most { motes ≤ most_motes }
{
    let alloc = rt.alloc();
    let mut clock = SystemClock::new(rt);
    let port = own_port(rt);
    let mut link = UdpLink::new(rt, alloc);
    open(&mut link, alloc, port, motes)?;
    let before = clock.read();
    let nothing = nothing_comes(&mut link, motes, turns)?;
    Ok((nothing, clock.read().saturating_sub(before)))
}

// The last turn is not waited for; a machine under load makes the others longer.
#[test]
fn a_turn_in_which_nothing_comes_lasts_16_milliseconds(rt: HostRuntime) -> Result<(), Fail> {
    let (nothing, passed) = quiet_turns(&rt, 1, 50)?;
    assert!(rt; nothing);
    assert!(rt; 784 <= passed && passed < 4_000, "{passed}");
    Ok(())
}

// A hundred waits would be 1,584.
#[test]
fn a_turn_of_four_motes_is_as_long(rt: HostRuntime) -> Result<(), Fail> {
    let (nothing, passed) = quiet_turns(&rt, 4, 25)?;
    assert!(rt; nothing);
    assert!(rt; 384 <= passed && passed < 1_500, "{passed}");
    Ok(())
}

/// Whether frames come in so many turns of a mote, and how many milliseconds they last by the clock.
fn busy_turns(rt: &HostRuntime, turns: u32) -> Result<(bool, u64), Fail> {
    let alloc = rt.alloc();
    let mut clock = SystemClock::new(rt);
    let port = own_port(rt);
    let mut link = UdpLink::new(rt, alloc);
    open(&mut link, alloc, port, 1)?;
    let before = clock.read();
    let each = frames_come(&mut link, turns)?;
    Ok((each, clock.read().saturating_sub(before)))
}

#[test]
fn a_turn_in_which_a_frame_comes_does_not_wait(rt: HostRuntime) -> Result<(), Fail> {
    let (each, passed) = busy_turns(&rt, 50)?;
    assert!(rt; each);
    assert!(rt; passed < 700, "{passed}");
    Ok(())
}

// The clock reports what another one does. 63 turns of 16 ms take a second, and 20 longer ones another.
#[test]
fn turns_are_longer_where_nothing_came_for_a_second(rt: HostRuntime) -> Result<(), Fail> {
    let began = Instant::now(&rt)?;
    let (nothing, passed) = quiet_turns(&rt, 1, 84)?;
    let lasted = u64::try_from(began.elapsed(&rt)?.as_millis()).unwrap_or(0);
    assert!(rt; nothing);
    // both are in whole milliseconds, and a machine under load may wait before the first turn
    assert!(rt;
        passed <= lasted.saturating_add(1) && lasted.saturating_sub(passed) < 2_000,
        "{lasted}"
    );
    assert!(rt; 1_960 <= passed && passed < 6_000, "{passed}");
    Ok(())
}

/// Whether what one mote sends another receives at its own link, where nothing is received at a mote that is elsewhere,
/// and from which a send fails.
fn reach<L: Link, M: Link>(first: &mut L, second: &mut M) -> Result<[bool; 4], LinkFailed>
    requires first { L.mote_count first.old ≡ 3 }
    requires second { M.mote_count second.old ≡ 3 }
{
    send(first, 0, 1, b"hello")?;
    // nobody listens there, which is not reported
    send(first, 0, 2, b"hello")?;
    Ok([
        is_quiet(second, 0)?,
        comes(second, 1, b"hello")?,
        is_quiet(second, 1)?,
        send(second, 0, 1, b"hello").is_err(),
    ])
}

// Two motes of a network, each over a link of its own.
#[test]
fn links_of_one_mote_reach_one_another(rt: HostRuntime) -> Result<(), Fail> {
    let alloc = rt.alloc();
    let port = own_port(&rt);
    let mut first = MoteLink::new(&rt, 0, 1);
    let mut second = MoteLink::new(&rt, 1, 1);
    open(&mut first, alloc, port, 3)?;
    open(&mut second, alloc, port, 3)?;
    assert_eq!(rt; reach(&mut first, &mut second)?, [true; 4]);
    let other = MoteLink::new(&rt, 1, 1).open(alloc, port, 3);
    assert_eq!(rt; other, Err(OpenFault::LinkFailed));
    Ok(())
}

// 49 turns of 2 ms, each of which the clock reports as 8 times as long; a machine under load makes them longer.
#[test]
fn a_scaled_turn_is_as_much_shorter(rt: HostRuntime) -> Result<(), Fail> {
    let alloc = rt.alloc();
    let mut clock = SystemClock::scaled(&rt, 8);
    let port = own_port(&rt);
    let mut link = MoteLink::new(&rt, 0, 8);
    open(&mut link, alloc, port, 1)?;
    let before = clock.read();
    assert!(rt; nothing_comes(&mut link, 1, 50)?);
    let passed = clock.read().saturating_sub(before);
    assert!(rt; 776 <= passed && passed < 32_000, "{passed}");
    Ok(())
}
