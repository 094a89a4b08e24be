//! The events of a round.
ghost use Rattle.std.specs.Prelude.{◌≡◌, ℕ, ◌+◌, ◌*◌, ◌<◌, [], ◌∷◌, length, slice_index_or};
ghost use Rattle.dg_base.specs.declared.events.Event.{Event};
ghost use Rattle.dg_object.specs.Sizes.{packets};
ghost use Rattle.dg_rounds.specs.Rounds.{pace, drain_ticks, advert_ticks, round, paced, passed};
ghost use Rattle.dg_rounds.specs.Left.{left_of_round};

use dg_base::Event;

/// The milliseconds between the ticks of a round. This is longer than any window of a mote.
pub const PACE: u32 = 131_072;

/// How many ticks drain a mote.
const REST: u8 = 50;

/// How many ticks make it advertise.
const ADVERT: u8 = 3;

/// The position of the last event before the packets.
const ASKED: u8 = 2 * REST + ADVERT + 2;

/// The events of a round.
pub const ROUND_EVENTS: u8 = 202;

/// The ticks of a round are 131,072 ms apart.
pub fn a_round_has_this_pace()
    ensures { PACE ≡ pace }
{}

/// 50 ticks drain a mote, three more make it advertise, and there are two events for each of the 48 packets of a page.
pub fn a_round_has_these_ticks()
    ensures drain { REST ≡ drain_ticks }
    ensures advert { ADVERT ≡ advert_ticks }
    ensures events { ROUND_EVENTS ≡ 2 * drain_ticks + advert_ticks + 3 + 2 * packets }
{}

/// The events of one round, from first to last.
#[derive(Debug, Drop)]
pub struct RoundEvents {
    pub(crate) a: u8,
    pub(crate) b: u8,
    pub(crate) given: u8,
}

impl Iterator for RoundEvents {
    type Item = Event;

    ghost use Rattle.std.specs.Iterator.{YieldsFirst, item_count};
    ghost use Rattle.dg_rounds.specs.Left.{left_of_round};

    ghost next_gives = { YieldsFirst left_of_round };

    ghost remaining = { item_count left_of_round };

    fn next(&mut self) -> Option<Event> {
        if self.given >= ROUND_EVENTS {
            return None;
        }
        let event = event_at(self.a, self.b, self.given);
        self.given += 1;
        Some(event)
    }
}

/// The round in which a mote brings a page to another: 202 events.
pub fn round(a: u8, b: u8) -> RoundEvents
    ensures events { left_of_round result ≡ round a b }
    ensures count { length (round a b) ≡ ROUND_EVENTS }
{
    RoundEvents { a, b, given: 0 }
}

/// The event at a position of a round, counted from 0.
fn event_at(a: u8, b: u8, position: u8) -> Event
    requires { position < ROUND_EVENTS }
    ensures { (d : Event) → slice_index_or (round a b) position d ≡ result }
{
    if position < REST {
        return paced(a);
    }
    if position < 2 * REST {
        return paced(b);
    }
    if position < 2 * REST + ADVERT {
        return paced(a);
    }
    if position <= ASKED {
        return asking_at(a, b, position - (2 * REST + ADVERT));
    }
    if position % 2 == 0 {
        paced(a)
    } else {
        passed(a, b)
    }
}

/// The event at a position of those by which a mote asks: it hears the advert, it ticks, and its request is heard.
fn asking_at(a: u8, b: u8, position: u8) -> Event
    requires { position < 3 }
    ensures { result ≡ slice_index_or (passed a b ∷ paced b ∷ []) position (passed b a) }
{
    match position {
        0 => passed(a, b),
        1 => paced(b),
        _ => passed(b, a),
    }
}

/// A tick at a mote.
fn paced(mote: u8) -> Event
    ensures { result ≡ paced mote }
{
    Event::Tick {
        mote,
        dt: PACE,
        word: 0,
    }
}

/// A mote hears the last frame of another.
fn passed(from: u8, to: u8) -> Event
    ensures { result ≡ passed from to }
{
    Event::Last {
        from,
        to,
        dt: 0,
        word: 0,
    }
}
