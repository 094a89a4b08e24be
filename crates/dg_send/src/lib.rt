//! Serving the packets of a page: the union of the requests, the lowest packet first.
//!
//! A server that hears a further request while it sends adds the packets of that request, so that
//! one transmission serves all who need it (Hui and Culler, SenSys 2004). Times are in milliseconds.
#![tactic(auto)]

ghost use Rattle.std.specs.Prelude.{◌≡◌, ◌≢◌, ℕ, ◌+◌, ◌≤◌, ◌<◌, ◌^◌, List};
ghost use Rattle.std.specs.FinSet as set;
ghost use Rattle.dg_bits.specs.Sets.{Numbers, IsLeast};
ghost use Rattle.dg_object.specs.Sizes.{packets};
ghost use Rattle.dg_send.specs.Times.{packet_gap};
ghost use Rattle.dg_send.specs.Owed.{Owed};
ghost use Rattle.dg_send.specs.Steps.{owed_begun, after_merge, serve_of, after_next};
ghost use Rattle.dg_send.specs.Histories.{ServeCall, owed, all_asked, sent, times_asked, times_sent};

use dg_bits::PageBits;
use dg_object::PACKETS;
use std::marker::Model;

/// The milliseconds from one packet to the next.
pub const PACKET_GAP: u64 = 16;

/// What to do now.
#[derive(Clone, Copy, Debug, PartialEq, Eq)]
pub enum Serve {
    /// Send this packet.
    Send(u8),
    /// Nothing is left to send.
    Done,
    /// The next packet is not due yet.
    Wait,
}

/// The serving of one page.
#[derive(Clone, Copy, Debug, PartialEq, Eq)]
pub struct Serving {
    left: PageBits<PACKETS>,
    due: u64,
}

impl Model for Serving {
    ghost use Rattle.dg_send.specs.Owed.{Owed, owed_code};

    ghost Value = { Owed };

    ghost coded = { owed_code };

    ghost view = { λ a. record { left = a.left; due = a.due } };

    ghost inverse = { λ o. record { left = o.left; due = o.due } };
}

impl Serving {
    /// Begins with what a request asks for, and is due at once.
    pub fn new(now: u64, want: PageBits<PACKETS>) -> Self
        requires { want ≢ set.empty }
        ensures { result ≡ owed_begun now want }
    {
        Self {
            left: want,
            due: now,
        }
    }

    /// Adds what a further request asks for.
    pub fn merge(&mut self, want: &PageBits<PACKETS>)
        ensures { self.new ≡ after_merge self.old want.now }
    {
        self.left.union(want);
    }

    /// What to do at the time `now`. A packet that is sent is no longer left.
    pub fn next(&mut self, now: u64) -> Serve
        requires { now < 2 ^ 62 }
        ensures serve { result ≡ serve_of self.old now }
        ensures after { self.new ≡ after_next self.old now }
        ensures of_page { (packet : ℕ) → result ≡ Serve.Send packet → packet < packets }
    {
        let Some(packet) = self.left.first() else {
            return Serve::Done;
        };
        if now < self.due {
            return Serve::Wait;
        }
        self.left.clear(packet);
        self.due = now + PACKET_GAP;
        Serve::Send(packet)
    }

    /// The time before which no packet is sent.
    pub fn due(&self) -> u64
        ensures { result ≡ self.now.due }
    {
        self.due
    }

    /// How many packets are left to send.
    pub fn left(&self) -> u8
        ensures { result ≡ set.len self.now.left }
    {
        self.left.count()
    }
}

/// The number is that of this profile: 16 ms lie between two packets.
pub fn the_gap_is_this()
    ensures { PACKET_GAP ≡ packet_gap }
{}

/// What holds of a serving for any calls, in any order and at any times. What was sent and what is
/// left make up the union of the requests, and once it is done all of that was sent. The lowest
/// packet is sent first. A packet is sent at most as often as it was requested, and there is a gap
/// between two packets.
pub fn serves_the_union()
    ensures sent_and_left { (start : ℕ) (first : Numbers) (calls : List ServeCall)
        → set.union (sent start first calls) (owed start first calls).left ≡ all_asked first calls }
    ensures done { (start : ℕ) (first : Numbers) (earlier : List ServeCall) (moment : ℕ)
        → serve_of (owed start first earlier) moment ≡ Serve.Done
        → sent start first earlier ≡ all_asked first earlier }
    ensures least_first { (start : ℕ) (first : Numbers) (earlier : List ServeCall) (moment packet : ℕ)
        → serve_of (owed start first earlier) moment ≡ Serve.Send packet
        → IsLeast (owed start first earlier).left packet }
    ensures each_once { (start : ℕ) (first : Numbers) (calls : List ServeCall) (packet : ℕ)
        → times_sent start first calls packet ≤ times_asked first calls packet }
    ensures gap { (o : Owed) (moment later p q : ℕ)
        → serve_of o moment ≡ Serve.Send p → serve_of (after_next o moment) later ≡ Serve.Send q
        → moment + packet_gap ≤ later }
{}
