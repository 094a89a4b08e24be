//! Adverts that are heard: a better order is kept, and an image in which the advertiser is ahead is asked for.
ghost use Rattle.std.specs.Prelude.{◌≡◌, ◌≢◌, ℕ, ◌+◌, ◌<◌, ◌≤◌, ◌^◌, ◌&&◌, ◌||◌, ◌==◌, nat_le, nat_lt, true, false, List, length};
ghost use Rattle.std.specs.Prelude.{Option, Some, All, IfOk, OnOk, OnErr, IfSome};
ghost use Rattle.dg_trickle.specs.Timer.{Timer};
ghost use Rattle.dg_frame.specs.Sizes.{known_images, wide_images};
ghost use Rattle.dg_frame.specs.Ranges.{EntryInRange, OrderInRange};
ghost use Rattle.dg_slot.specs.Kept.{Held};
ghost use Rattle.dg_volume.specs.Sizes.{images};
ghost use Rattle.dg_volume.specs.Store.{Store, held};
ghost use Rattle.dg_volume.specs.Told.{told};
ghost use Rattle.dg_volume.specs.Stands.{Mounted, IsMounted, Tells, is_lent};
ghost use Rattle.dg_volume.specs.Changes.{is_version};
ghost use Rattle.dg_volume.specs.Acts.{Acted, Stops};
ghost use Rattle.dg_mote.specs.Model.{MoteState, Maintain};
ghost use Rattle.dg_mote.specs.Summary.{entry_by, same_entry, same_order, entry_for, is_own, advertiser_ahead, ahead_in};
ghost use Rattle.dg_mote.specs.Adverts.{better_trail, ask_trail, asks, asking, noting, by_ahead, advert_heard, on_advert, offer};
ghost use Rattle.dg_mote.specs.Motes.{IsMote, Done};
ghost use Rattle.dg_mote.specs.Hearing.{ChipStays, StaysIf, MayTake};

use crate::opening::begin_page;
use crate::summary::{entry_of, own_order};
use crate::{Heard, Mode, Mote};
use dg_control::Order;
use dg_frame::Entry;
use dg_nor::{Nor, Stopped};
use dg_order::better;
use dg_recv::Asking;
use dg_volume::{Kept, TAKE_COMMITS, Volume, trails_begin};

impl Mote {
    /// An advert of another mote was heard.
    pub(crate) fn hear_advert<N: Nor>(
        &mut self,
        nor: &mut N,
        now: u64,
        word: u32,
        source: u16,
        entries: &[Entry],
        order: &Order,
    ) -> Result<Heard, Stopped>
        requires mote { (m : MoteState) × (s : Store) × IsMote (N.device nor.old).image self.old m s }
        requires moment { now < 2 ^ 62 }
        requires entries { All EntryInRange entries.now }
        requires known { length entries.now ≤ known_images self.old.wide }
        requires order { OrderInRange wide_images order.now }
        ensures done { IfOk result (λ heard. (m : MoteState) (s : Store) → IsMote (N.device nor.old).image self.old m s
            → Done (on_advert m.mode m s now word (offer source entries.now) order.now)
            (N.device nor.old) (N.device nor.new) self.new heard) }
        ensures unchanged { IfOk result (λ heard. StaysIf heard ((N.device nor.new ≡ N.device nor.old) × (self.new ≡ self.old))) }
        ensures same_reference { (N.device nor.new).references ≡ (N.device nor.old).references }
        ensures stopped { OnErr result ((m : MoteState) (s : Store) → IsMote (N.device nor.old).image self.old m s
            → Stops (on_advert m.mode m s now word (offer source entries.now) order.now).trail
            (N.device nor.old) (N.device nor.new)) }
    {
        match self.mode {
            Mode::Maintain(_) => self.compare_advert(nor, now, word, source, entries, order),
            Mode::Receive { .. } => Ok(Heard::Dropped),
            Mode::Transmit { .. } => Ok(Heard::Dropped),
        }
    }

    /// A mote that maintains heard an advert. The advert is compared with the mote's own before its order is kept.
    fn compare_advert<N: Nor>(
        &mut self,
        nor: &mut N,
        now: u64,
        word: u32,
        source: u16,
        entries: &[Entry],
        order: &Order,
    ) -> Result<Heard, Stopped>
        requires mote { (m : MoteState) × (s : Store) × (timer : Timer) × IsMote (N.device nor.old).image self.old m s
            × (m.mode ≡ Maintain timer) }
        requires moment { now < 2 ^ 62 }
        requires entries { All EntryInRange entries.now }
        requires known { length entries.now ≤ known_images self.old.wide }
        requires order { OrderInRange wide_images order.now }
        ensures done { IfOk result (λ heard. (m : MoteState) (s : Store) (timer : Timer)
            → IsMote (N.device nor.old).image self.old m s → m.mode ≡ Maintain timer
            → Done (advert_heard m timer s now word (offer source entries.now) order.now)
            (N.device nor.old) (N.device nor.new) self.new heard) }
        ensures not_dropped { IfOk result (λ heard. StaysIf heard ⊥) }
        ensures same_reference { (N.device nor.new).references ≡ (N.device nor.old).references }
        ensures stopped { OnErr result ((m : MoteState) (s : Store) (timer : Timer)
            → IsMote (N.device nor.old).image self.old m s → m.mode ≡ Maintain timer
            → Stops (advert_heard m timer s now word (offer source entries.now) order.now).trail
            (N.device nor.old) (N.device nor.new)) }
    {
        trails_begin();
        let same = would_say(self.wide, &self.volume, entries, order);
        keep_better(nor, &mut self.volume, order)?;
        // the advertiser of an equal advert is ahead in no image
        if same {
            return Ok(self.note_advert(true, now, word));
        }
        self.follow(nor, now, word, source, entries)
    }

    /// Asks for the lowest image in which the advertiser of a different advert is ahead, if it may be asked for. Otherwise
    /// the advert is noted.
    #[inline(never)]
    fn follow<N: Nor>(
        &mut self,
        nor: &mut N,
        now: u64,
        word: u32,
        source: u16,
        entries: &[Entry],
    ) -> Result<Heard, Stopped>
        requires mote { (m : MoteState) × (s : Store) × (timer : Timer) × IsMote (N.device nor.old).image self.old m s
            × (m.mode ≡ Maintain timer) }
        requires moment { now < 2 ^ 62 }
        requires entries { All EntryInRange entries.now }
        requires known { length entries.now ≤ known_images self.old.wide }
        ensures done { IfOk result (λ heard. (m : MoteState) (s : Store) (timer : Timer)
            → IsMote (N.device nor.old).image self.old m s → m.mode ≡ Maintain timer
            → Done (by_ahead (ahead_in entries.now s) m s now word (offer source entries.now) (noting m timer s now word false))
            (N.device nor.old) (N.device nor.new) self.new heard) }
        ensures not_dropped { IfOk result (λ heard. StaysIf heard ⊥) }
        ensures same_reference { (N.device nor.new).references ≡ (N.device nor.old).references }
        ensures stopped { OnErr result ((m : MoteState) (s : Store) (timer : Timer)
            → IsMote (N.device nor.old).image self.old m s → m.mode ≡ Maintain timer
            → Stops (by_ahead (ahead_in entries.now s) m s now word (offer source entries.now)
            (noting m timer s now word false)).trail
            (N.device nor.old) (N.device nor.new)) }
    {
        let Some(image) = first_ahead(&self.volume, entries) else {
            return Ok(self.note_advert(false, now, word));
        };
        let entry = entry_for(entries, image);
        if !self.may_ask(now, image, entry) {
            return Ok(self.note_advert(false, now, word));
        }
        self.ask(nor, now, word, source, image, entry)
    }

    /// Whether no window of an image is open, and either its slot need not be taken, or there is room to take it.
    fn may_ask(&self, now: u64, image: u8, entry: Entry) -> bool
        requires not_golden { 1 ≤ image }
        requires known { image < images }
        ensures { (c : List ℕ) (m : MoteState) (s : Store) → IsMote c self.now m s → result ≡ asks m s now image entry }
    {
        self.windows.may_ask(now, image) && can_open(&self.volume, image, entry.version)
    }

    /// Notes that an equal advert, or a different one, was heard.
    fn note_advert(&mut self, same: bool, now: u64, word: u32) -> Heard
        requires mote { (c : List ℕ) × (m : MoteState) × (s : Store) × (timer : Timer) × IsMote c self.old m s
            × (m.mode ≡ Maintain timer) }
        requires moment { now < 2 ^ 62 }
        ensures rests { (c : List ℕ) (m : MoteState) (s : Store) (timer : Timer) → IsMote c self.old m s → m.mode ≡ Maintain timer
            → ChipStays (noting m timer s now word same) c s self.new result }
        ensures not_dropped { StaysIf result ⊥ }
    {
        // only a mote that maintains compares adverts
        let Mode::Maintain(trickle) = &mut self.mode else {
            return Heard::Dropped;
        };
        if same {
            trickle.heard_same();
            Heard::Same
        } else {
            trickle.heard_other(now, word);
            Heard::Other
        }
    }

    /// Begins the next page of an image, and asks the advertiser for it.
    fn ask<N: Nor>(
        &mut self,
        nor: &mut N,
        now: u64,
        word: u32,
        source: u16,
        image: u8,
        entry: Entry,
    ) -> Result<Heard, Stopped>
        requires mote { (m : MoteState) × (s : Store) × (timer : Timer) × IsMote (N.device nor.old).image self.old m s
            × (m.mode ≡ Maintain timer) × MayTake s image entry }
        requires moment { now < 2 ^ 62 }
        requires known { image ≤ known_images self.old.wide }
        ensures done { IfOk result (λ heard. (m : MoteState) (s : Store) (timer : Timer)
            → IsMote (N.device nor.old).image self.old m s → m.mode ≡ Maintain timer → MayTake s image entry
            → Done (asking m s now word source image entry) (N.device nor.old) (N.device nor.new) self.new heard) }
        ensures not_dropped { IfOk result (λ heard. StaysIf heard ⊥) }
        ensures same_reference { (N.device nor.new).references ≡ (N.device nor.old).references }
        ensures stopped { OnErr result ((m : MoteState) (s : Store) (timer : Timer)
            → IsMote (N.device nor.old).image self.old m s → m.mode ≡ Maintain timer → MayTake s image entry
            → Stops (ask_trail s image entry) (N.device nor.old) (N.device nor.new)) }
    {
        let job = begin_page(nor, &mut self.volume, image, entry)?;
        let page = job.page();
        self.mode = Mode::Receive {
            version: entry.version,
            server: source,
            asking: Asking::new(now, word),
            job,
        };
        Ok(Heard::Asks { image, page })
    }
}

/// Whether an advert equals that of a wide or narrow mote that keeps this, in the images that the advert names.
fn would_say(wide: bool, volume: &Volume, entries: &[Entry], order: &Order) -> bool
    requires { length entries.now < images }
    ensures { (s : Store) → Tells volume.now s → result ≡ is_own entries.now order.now wide s }
{
    if !says_entries(volume, entries) {
        return false;
    }
    is_same_order(order, &own_order(wide, volume))
}

fn is_same_order(a: &Order, b: &Order) -> bool
    ensures { result ≡ same_order a.now b.now }
{
    a == b
}

/// Whether entries equal those that a mote that keeps this would advertise.
fn says_entries(volume: &Volume, entries: &[Entry]) -> bool
    requires { length entries.now < images }
    ensures told { result ≡ true → (s : Store) → Tells volume.now s → (i : ℕ) → 1 ≤ i → i ≤ length entries.now
        → same_entry (entry_for entries.now i) (entry_by (held s i)) ≡ true }
    ensures other { result ≡ false → (i : ℕ) × (1 ≤ i) × (i ≤ length entries.now)
        × ((s : Store) → Tells volume.now s → same_entry (entry_for entries.now i) (entry_by (held s i)) ≡ false) }
{
    let past = past_last(entries);
    for image in 1..past {
        if !is_same_entry(&entry_for(entries, image), &entry_of(volume.kept(image))) {
            return false;
        }
    }
    true
}

fn is_same_entry(a: &Entry, b: &Entry) -> bool
    ensures { result ≡ same_entry a.now b.now }
{
    a == b
}

/// The lowest image in which an advertiser is ahead of a mote that keeps this.
fn first_ahead(volume: &Volume, entries: &[Entry]) -> Option<u8>
    requires { length entries.now < images }
    ensures least { (s : Store) → Tells volume.now s → result ≡ ahead_in entries.now s }
    ensures within { IfSome result (λ i. (1 ≤ i) × (i ≤ length entries.now)) }
    ensures ahead { IfSome result (λ i. (s : Store) → Tells volume.now s
        → advertiser_ahead (entry_for entries.now i) (held s i) ≡ true) }
{
    let past = past_last(entries);
    for image in 1..past {
        if is_ahead(volume.kept(image), entry_for(entries, image)) {
            return Some(image);
        }
    }
    None
}

/// Whether an advertiser is ahead in an image of which this is kept here: it has a page, and advertises a larger version,
/// or more pages of the same object.
fn is_ahead(kept: Option<Kept>, entry: Entry) -> bool
    ensures { (h : Option Held) → kept ≡ told h → result ≡ advertiser_ahead entry h }
{
    match kept {
        Some(kept) => {
            entry.have >= 1
                && (kept.version < entry.version
                    || is_same_object(kept, entry) && kept.done < entry.have)
        }
        None => entry.have >= 1,
    }
}

/// Whether an entry describes the object that is kept.
fn is_same_object(kept: Kept, entry: Entry) -> bool
    ensures { result ≡ (entry.version == kept.version) && (entry.pages == kept.pages) && (entry.crc == kept.crc) }
{
    entry.version == kept.version && entry.pages == kept.pages && entry.crc == kept.crc
}

/// The number after that of the last image that an advert names.
fn past_last(entries: &[Entry]) -> u8
    requires { length entries.now < images }
    ensures { result ≡ length entries.now + 1 }
{
    entries.len() as u8 + 1
}

/// The entry of an image in an advert.
fn entry_for(entries: &[Entry], image: u8) -> Entry
    requires not_golden { 1 ≤ image }
    requires known { image ≤ length entries.now }
    ensures { result ≡ entry_for entries.now image }
{
    entries[usize::from(image) - 1]
}

/// Whether this version is kept of an image.
pub(crate) fn keeps_version(kept: Option<Kept>, version: u32) -> bool
    ensures { (h : Option Held) → kept ≡ told h → result ≡ is_version h version }
{
    match kept {
        Some(kept) => kept.version == version,
        None => false,
    }
}

/// Whether this version is kept of an image, or there is room to take its slot.
fn can_open(volume: &Volume, image: u8, version: u32) -> bool
    requires { image < images }
    ensures { (s : Store) → Tells volume.now s → result ≡ is_version (held s image) version || nat_le 2 s.room }
{
    keeps_version(volume.kept(image), version) || volume.room() >= TAKE_COMMITS
}

/// Whether an order is better than the one that is kept, and there is room to keep it.
fn can_keep_better(volume: &Volume, order: &Order) -> bool
    ensures { (s : Store) → Tells volume.now s → result ≡ nat_lt s.order.number order.now.number && nat_le 1 s.room }
{
    better(&volume.snapshot().order, order) && volume.room() >= 1
}

/// Keeps a better order, while there is room.
fn keep_better<N: Nor>(nor: &mut N, volume: &mut Volume, order: &Order) -> Result<(), Stopped>
    requires mounted { IsMounted (N.device nor.old).image volume.old }
    requires range { OrderInRange wide_images order.now }
    ensures acted { OnOk result ((s : Store) → Mounted (N.device nor.old).image volume.old s
        → Acted (better_trail s order.now) (N.device nor.old) (N.device nor.new) volume.new) }
    ensures lent { (i : ℕ) → is_lent volume.new i ≡ is_lent volume.old i }
    ensures same_reference { (N.device nor.new).references ≡ (N.device nor.old).references }
    ensures stopped { OnErr result ((s : Store) → Mounted (N.device nor.old).image volume.old s
        → Stops (better_trail s order.now) (N.device nor.old) (N.device nor.new)) }
{
    if !can_keep_better(volume, order) {
        return Ok(());
    }
    match volume.order(nor, order.number, order.image, order.version) {
        Ok(()) => Ok(()),
        // it may be kept, so the only possible fault is a stop
        Err(_) => Err(Stopped),
    }
}
