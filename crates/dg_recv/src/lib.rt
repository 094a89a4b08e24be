//! Asking for the packets of a page: which are missing, when to ask again, and when to give up.
//!
//! A request names the missing packets by a set. A mote waits for a random time before the first
//! request, so that neighbours with the same need don't all ask at once. It gives up after eight
//! requests. The states and the requests by bit vector are those of Deluge (Hui and Culler, SenSys
//! 2004). Times are in milliseconds, and a `word` is a random number.
#![tactic(auto)]

ghost use Rattle.std.specs.Prelude.{◌≡◌, ℕ, ◌+◌, ◌≤◌, ◌<◌, ◌^◌, ◌&&◌, not, nat_lt, true, false, List};
ghost use Rattle.std.specs.FinSet as set;
ghost use Rattle.dg_bits.specs.Sets.{Numbers, below, AllBelow};
ghost use Rattle.dg_object.specs.Sizes.{packets};
ghost use Rattle.dg_recv.specs.Times.{first_wait, next_wait, most_requests};
ghost use Rattle.dg_recv.specs.Steps.{reception_begun, missing, ask_of, after_ask, accept_of, after_accept};
ghost use Rattle.dg_recv.specs.Histories.{ReceptionCall, reception_after, came_in, requests};

use dg_bits::PageBits;
use dg_object::PACKETS;
use std::marker::Model;

/// How many requests are made for one page.
pub const MOST_REQUESTS: u8 = 8;

/// The first request waits for 1 to this many milliseconds.
pub const FIRST_WAIT: u32 = 512;

/// How long the next request waits after a request or a new packet, in milliseconds.
pub const NEXT_WAIT: u64 = 1024;

/// What to do now.
#[derive(Clone, Copy, Debug, PartialEq, Eq)]
pub enum Ask {
    /// Ask for these packets.
    Request(PageBits<PACKETS>),
    /// All requests were made.
    GiveUp,
    /// The next request is not due yet.
    Wait,
}

/// Whether a packet was new.
#[derive(Clone, Copy, Debug, PartialEq, Eq)]
pub enum Accept {
    /// The packet was missing.
    New,
    /// The packet was there already.
    Known,
}

/// The asking for the packets of one page.
#[derive(Clone, Copy, Debug, PartialEq, Eq)]
pub struct Asking {
    got: PageBits<PACKETS>,
    tries: u8,
    due: u64,
}

impl Model for Asking {
    ghost use Rattle.std.specs.Prelude.{◌≤◌};
    ghost use Rattle.dg_recv.specs.Reception.{Reception, reception_code};
    ghost use Rattle.dg_recv.specs.Times.{most_requests};

    ghost Value = { Reception };

    ghost coded = { reception_code };

    ghost view = { λ a. record { got = a.got; tries = a.tries; due = a.due } };

    ghost invariant = { λ a. a.tries ≤ most_requests };

    ghost inverse = { λ r. record { got = r.got; tries = r.tries; due = r.due } };
}

impl Asking {
    /// Begins with no packet and no request. The first request is due 1 + (word mod 512)
    /// milliseconds after `now`.
    pub fn new(now: u64, word: u32) -> Self
        requires { now < 2 ^ 62 }
        ensures { result ≡ reception_begun now word }
    {
        Self {
            got: PageBits::none(),
            tries: 0,
            due: now + 1 + u64::from(word % FIRST_WAIT),
        }
    }

    /// What to do at the time `now`. A request is counted, and delays the next one.
    pub fn next(&mut self, now: u64) -> Ask
        requires { now < 2 ^ 62 }
        ensures ask { result ≡ ask_of self.old now }
        ensures after { self.new ≡ after_ask self.old now }
        ensures tries { self.new.tries ≤ most_requests }
    {
        if now < self.due {
            return Ask::Wait;
        }
        if self.tries >= MOST_REQUESTS {
            return Ask::GiveUp;
        }
        self.tries += 1;
        self.due = now + NEXT_WAIT;
        Ask::Request(without(&self.got))
    }

    /// The time before which there is nothing to do.
    pub fn due(&self) -> u64
        ensures { result ≡ self.now.due }
    {
        self.due
    }

    /// Notes a packet that arrived. A new packet delays the next request.
    pub fn accept(&mut self, now: u64, packet: u8) -> Accept
        requires moment { now < 2 ^ 62 }
        requires packet { packet < packets }
        ensures accept { result ≡ accept_of self.old packet }
        ensures after { self.new ≡ after_accept self.old now packet }
    {
        if self.got.has(packet) {
            return Accept::Known;
        }
        self.got.set(packet);
        self.due = now + NEXT_WAIT;
        Accept::New
    }

    /// The packets that were accepted.
    pub fn got(&self) -> PageBits<PACKETS>
        ensures value { result ≡ self.now.got }
    {
        self.got
    }
}

// The packets of a page that are not in a set.
fn without(got: &PageBits<PACKETS>) -> PageBits<PACKETS>
    ensures { result ≡ set.difference (below packets) got.now }
{
    let mut want = PageBits::all();
    for packet in 0..PACKETS as u8 {
        if got.has(packet) {
            want.clear(packet);
        }
    }
    want
}

/// The numbers are those of this profile: the first request waits for 1 to 512 ms, each further one for
/// 1,024 ms, and there are eight.
pub fn the_waits_are_these()
    ensures first { FIRST_WAIT ≡ first_wait }
    ensures next { NEXT_WAIT ≡ next_wait }
    ensures requests { MOST_REQUESTS ≡ most_requests }
{}

/// What holds of an asking for any calls, in any order and at any times. A request names exactly the
/// packets of the page that have not arrived, so nothing that was accepted is requested again. There
/// are eight requests before it gives up, and no more.
pub fn asking_ends()
    ensures accepted { (start word : ℕ) (calls : List ReceptionCall)
        → (reception_after start word calls).got ≡ came_in calls }
    ensures missing { (start word : ℕ) (earlier : List ReceptionCall) (moment : ℕ) (want : Numbers)
        → ask_of (reception_after start word earlier) moment ≡ Ask.Request want
        → want ≡ set.difference (below packets) (came_in earlier) }
    ensures never_again { (start word : ℕ) (earlier : List ReceptionCall) (moment : ℕ) (want : Numbers)
        → ask_of (reception_after start word earlier) moment ≡ Ask.Request want
        → (packet : ℕ) → set.contains (came_in earlier) packet ≡ true
        → set.contains want packet ≡ false }
    ensures requests { (start word : ℕ) (calls : List ReceptionCall) → requests start word calls ≤ most_requests }
    ensures gives_up { (start word : ℕ) (earlier : List ReceptionCall) (moment : ℕ)
        → ask_of (reception_after start word earlier) moment ≡ Ask.GiveUp
        → requests start word earlier ≡ most_requests }
{}
