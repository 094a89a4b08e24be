//! When a mote may ask for an image: not while others ask for it, and not while it is being sent.
//!
//! A mote that overhears a request for an image, or a packet of it, does not ask for that image for a
//! while. What is sent will reach it too (suppression, Hui and Culler, SenSys 2004). Times are in
//! milliseconds.
#![tactic(auto)]

ghost use Rattle.std.specs.Prelude.{◌≡◌, ℕ, ◌-◌, ◌≤◌, ◌&&◌, ◌↔◌, List, IsTrue};
ghost use Rattle.std.specs.FinMap as map;
ghost use Rattle.dg_quiet.specs.Times.{request_window, packet_window};
ghost use Rattle.dg_quiet.specs.Sizes.{windowed_images};
ghost use Rattle.dg_quiet.specs.Noted.{nothing_noted, with_request, with_packet, IsPast, is_past, may_ask};
ghost use Rattle.dg_quiet.specs.Histories.{Note, noted_after, last_request, last_packet_heard};

use std::marker::Model;

/// The images whose frames are overheard: 1 to this number.
pub const WINDOWED_IMAGES: u8 = 6;

/// How long an overheard request keeps a mote from asking, in milliseconds.
pub const REQUEST_WINDOW: u64 = 128_000;

/// How long an overheard packet keeps a mote from asking, in milliseconds.
pub const PACKET_WINDOW: u64 = 64_000;

/// The windows in which a mote does not ask for an image of which it overheard something.
#[derive(Debug, Drop)]
pub struct Windows {
    requests: [Option<u64>; WINDOWED_IMAGES as usize],
    packets: [Option<u64>; WINDOWED_IMAGES as usize],
}

impl Model for Windows {
    ghost use Rattle.dg_quiet.specs.Noted.{Noted, noted_code, moments_of};

    ghost Value = { Noted };

    ghost coded = { noted_code };

    ghost use Rattle.std.specs.Prelude.{◌≡◌, length};
    ghost use Rattle.dg_quiet.specs.Sizes.{windowed_images};

    ghost view = { λ w. record { requests = moments_of w.requests; packets = moments_of w.packets } };

    ghost invariant = { λ w. (length w.requests ≡ windowed_images) × (length w.packets ≡ windowed_images) };
}

impl Windows {
    /// No windows: nothing was overheard yet.
    pub fn new() -> Self
        ensures { result ≡ nothing_noted }
    {
        Self {
            requests: [None; WINDOWED_IMAGES as usize],
            packets: [None; WINDOWED_IMAGES as usize],
        }
    }

    /// Notes that a request for the image was overheard.
    pub fn note_request(&mut self, now: u64, image: u8)
        requires low { 1 ≤ image }
        requires high { image ≤ windowed_images }
        ensures { self.new ≡ with_request self.old now image }
    {
        let k = window_of(image);
        self.requests[k] = Some(now);
    }

    /// Notes that a packet of the image was overheard.
    pub fn note_packet(&mut self, now: u64, image: u8)
        requires low { 1 ≤ image }
        requires high { image ≤ windowed_images }
        ensures { self.new ≡ with_packet self.old now image }
    {
        let k = window_of(image);
        self.packets[k] = Some(now);
    }

    /// Whether both windows of the image are over.
    pub fn may_ask(&self, now: u64, image: u8) -> bool
        requires low { 1 ≤ image }
        requires high { image ≤ windowed_images }
        ensures value { result ≡ may_ask self.now now image }
        ensures over { IsTrue result
            ↔ (IsPast (map.get self.now.requests image) request_window now
            × IsPast (map.get self.now.packets image) packet_window now) }
    {
        let k = window_of(image);
        are_over(self.requests[k], self.packets[k], now)
    }
}

/// The numbers are those of this profile: an overheard request keeps a mote from asking for 128,000 ms, a
/// packet for 64,000 ms, and there are windows for the images 1 to 6.
pub fn the_windows_are_these()
    ensures request { REQUEST_WINDOW ≡ request_window }
    ensures packet { PACKET_WINDOW ≡ packet_window }
    ensures images { WINDOWED_IMAGES ≡ windowed_images }
{}

/// In every history of overheard frames only the newest times count: whether a mote may ask for an image
/// follows from the newest request for it and the newest packet of it alone.
pub fn last_note_counts()
    ensures request { (notes : List Note) (image : ℕ)
        → map.get (noted_after notes).requests image ≡ last_request notes image }
    ensures packet { (notes : List Note) (image : ℕ)
        → map.get (noted_after notes).packets image ≡ last_packet_heard notes image }
    ensures ask { (notes : List Note) (moment image : ℕ) → may_ask (noted_after notes) moment image
        ≡ (is_past (last_request notes image) request_window moment
        && is_past (last_packet_heard notes image) packet_window moment) }
{}

// The index of the time of an image.
fn window_of(image: u8) -> usize
    requires { 1 ≤ image }
    ensures { result ≡ image - 1 }
{
    usize::from(image - 1)
}

// Whether the windows after a request and after a packet are over.
fn are_over(request: Option<u64>, packet: Option<u64>, now: u64) -> bool
    ensures { result ≡ (is_past request request_window now && is_past packet packet_window now) }
{
    is_over(request, REQUEST_WINDOW, now) && is_over(packet, PACKET_WINDOW, now)
}

// Whether what was noted, if anything, is at least `quiet` milliseconds ago.
fn is_over(noted: Option<u64>, quiet: u64, now: u64) -> bool
    requires { 1 ≤ quiet }
    ensures { result ≡ is_past noted quiet now }
{
    match noted {
        None => true,
        Some(moment) => now.saturating_sub(moment) >= quiet,
    }
}
