//! What a round of ticks and frames does at each of its two motes. These functions do nothing: their contracts are the
//! laws.
ghost use Rattle.std.specs.Prelude.{◌≡◌, Bool, ℕ, ◌+◌, ◌≤◌, List, Some};
ghost use Rattle.dg_object.specs.Object.{Row};
ghost use Rattle.dg_volume.specs.Sizes.{golden_version, most_room};
ghost use Rattle.dg_volume.specs.Store.{golden_row};
ghost use Rattle.dg_volume.specs.Table.{row_at};
ghost use Rattle.dg_mote.specs.Spots.{SpotIsWell, after_ticks};
ghost use Rattle.dg_mote.specs.Drained.{Drained, spare_room, HasRoom};
ghost use Rattle.dg_mote.specs.Completing.{DrainLaw, TickSpendLaw, RestLaw, fresh_spot, AdvertLaw, AskLaw, RequestLaw, ServeLaw};
ghost use Rattle.dg_mote.specs.Completing.{TakeLaw};

use crate::laws::a_mote_stays_well;
use dg_slot::a_page_is_its_packets;
use dg_volume::{a_table_holds_sound_rows, acts_end, starts_end, trails_begin};

/// A mote that agrees and is timely, whatever it was doing, is drained after 50 ticks of a round. It then maintains, no
/// order is pending, no short starts are counted, and it may ask for any image. It keeps what it kept. Room for three
/// commits must be left at the end.
pub fn a_mote_drains()
    ensures { DrainLaw }
{
    a_mote_stays_well();
    a_table_holds_sound_rows();
    starts_end();
    trails_begin();
}

/// A mote that only ticks makes at most three commits, however many ticks there are: one clears the count of short starts,
/// and two start the order. So a mote with room for six commits has room for three after any number of ticks.
pub fn ticks_take_few_commits()
    ensures { TickSpendLaw }
{
    a_mote_stays_well();
    a_table_holds_sound_rows();
    starts_end();
    trails_begin();
}

/// A drained mote that only ticks stays drained over the same store.
pub fn a_drained_mote_rests()
    ensures { RestLaw }
{}

/// A mote that has just started over a chip that was formatted is drained, and agrees with each table that has its golden
/// image. If the chip was formatted with room for three commits, it has that room after any number of ticks. So such motes,
/// wide or narrow, meet the preconditions of the laws of a round.
pub fn a_fresh_mote_is_drained()
    ensures well { (table : List Row) (name bytes : List ℕ) (used id now word : ℕ) (wide : Bool)
        → row_at table 0 golden_version ≡ Some (golden_row name bytes)
        → SpotIsWell table (fresh_spot name bytes used id wide now word) now }
    ensures drained { (name bytes : List ℕ) (used id now word : ℕ) (wide : Bool)
        → Drained (fresh_spot name bytes used id wide now word) now }
    ensures room { (table : List Row) (name bytes : List ℕ) (used id now word n : ℕ) (wide : Bool)
        → row_at table 0 golden_version ≡ Some (golden_row name bytes) → used + spare_room ≤ most_room
        → HasRoom (after_ticks n (fresh_spot name bytes used id wide now word) now) }
{
    a_mote_stays_well();
    a_drained_mote_rests();
}

/// A drained mote advertises what it keeps within three more ticks, and stays drained over the same store.
pub fn a_drained_mote_advertises()
    ensures { AdvertLaw }
{}

/// A drained mote that hears the advert of a mote of its width that is ahead of it asks that mote for the next page of the
/// first image in which it is ahead. Its next tick sends the request for all packets of that page.
pub fn a_drained_mote_asks()
    ensures asks { AskLaw }
    ensures requests { RequestLaw }
{
    acts_end();
    trails_begin();
}

/// A drained mote that is asked for a page that it keeps sends packets 0 to 47 of it, one per tick, and then maintains.
pub fn a_drained_mote_serves()
    ensures { ServeLaw }
{}

/// A mote that asks for a page and hears its packets in order has one more page, and maintains.
pub fn a_page_comes()
    ensures { TakeLaw }
{
    a_page_is_its_packets();
    a_table_holds_sound_rows();
}
