//! Requests that are heard: served, merged with what is owed, or noted.
ghost use Rattle.std.specs.Prelude.{◌≡◌, ◌≢◌, ℕ, List};
ghost use Rattle.std.specs.FinSet as set;
ghost use Rattle.dg_frame.specs.Sizes.{known_images};
ghost use Rattle.dg_frame.specs.Ranges.{PageInRange};
ghost use Rattle.dg_volume.specs.Store.{Store};
ghost use Rattle.dg_trickle.specs.Timer.{Timer};
ghost use Rattle.dg_mote.specs.Model.{MoteState, Maintain, Transmit, Sending};
ghost use Rattle.dg_mote.specs.Requests.{concerns, can_serve, overheard, to_it, on_request, page_request};
ghost use Rattle.dg_mote.specs.Motes.{IsMote};
ghost use Rattle.dg_mote.specs.Hearing.{ChipStays, StaysIf};

use crate::{Heard, Mode, Mote};
use dg_bits::PageBits;
use dg_object::PACKETS;
use dg_send::Serving;

/// A page of a version of an image.
#[derive(Clone, Copy)]
pub(crate) struct PageName {
    pub image: u8,
    pub version: u32,
    pub page: u8,
}

impl PageName {
    pub(crate) fn new(image: u8, version: u32, page: u8) -> PageName
        ensures { result ≡ record { image = image; version = version; page = page } }
    {
        PageName {
            image,
            version,
            page,
        }
    }
}

impl Mote {
    /// A request to the mote `to` for these packets of a page was heard.
    pub(crate) fn hear_request(
        &mut self,
        now: u64,
        to: u16,
        name: PageName,
        want: PageBits<PACKETS>,
    ) -> Heard
        requires range { PageInRange (known_images self.old.wide) name.image name.version name.page }
        requires some { want ≢ set.empty }
        ensures rests { (c : List ℕ) (m : MoteState) (s : Store) → IsMote c self.old m s
            → ChipStays (on_request m s now to (page_request name.image name.version name.page want)) c s self.new result }
        ensures unchanged { StaysIf result (self.new ≡ self.old) }
    {
        if to == self.id {
            self.answer_request(now, name, want)
        } else {
            self.overhear_request(now, name)
        }
    }

    /// Another mote is asked for a page. This is noted if the page would be of use here.
    fn overhear_request(&mut self, now: u64, name: PageName) -> Heard
        requires { PageInRange (known_images self.old.wide) name.image name.version name.page }
        ensures rests { (c : List ℕ) (m : MoteState) (s : Store) → IsMote c self.old m s
            → ChipStays (overheard m s now name.image name.version name.page) c s self.new result }
        ensures unchanged { StaysIf result (self.new ≡ self.old) }
    {
        if !self.concerns(name) {
            return Heard::Dropped;
        }
        self.windows.note_request(now, name.image);
        Heard::Noted
    }

    /// This mote is asked for a page.
    fn answer_request(&mut self, now: u64, name: PageName, want: PageBits<PACKETS>) -> Heard
        requires range { PageInRange (known_images self.old.wide) name.image name.version name.page }
        requires some { want ≢ set.empty }
        ensures rests { (c : List ℕ) (m : MoteState) (s : Store) → IsMote c self.old m s
            → ChipStays (to_it m.mode m s now (page_request name.image name.version name.page want)) c s self.new result }
        ensures unchanged { StaysIf result (self.new ≡ self.old) }
    {
        match self.mode {
            Mode::Maintain(_) => self.serve(now, name, want),
            Mode::Transmit { .. } => self.serve_more(name, want),
            Mode::Receive { .. } => Heard::Dropped,
        }
    }

    /// Begins to serve a page, if it is kept.
    fn serve(&mut self, now: u64, name: PageName, want: PageBits<PACKETS>) -> Heard
        requires range { PageInRange (known_images self.old.wide) name.image name.version name.page }
        requires some { want ≢ set.empty }
        ensures rests { (c : List ℕ) (m : MoteState) (s : Store) (timer : Timer) → IsMote c self.old m s → m.mode ≡ Maintain timer
            → ChipStays (to_it (Maintain timer) m s now
            (page_request name.image name.version name.page want)) c s self.new result }
        ensures unchanged { StaysIf result (self.new ≡ self.old) }
    {
        if !self.can_serve(name) {
            return Heard::Dropped;
        }
        self.mode = Mode::Transmit {
            image: name.image,
            version: name.version,
            page: name.page,
            serving: Serving::new(now, want),
        };
        Heard::Serves {
            image: name.image,
            page: name.page,
        }
    }

    /// Adds the packets of a further request, if it is for the page that is being served.
    fn serve_more(&mut self, name: PageName, want: PageBits<PACKETS>) -> Heard
        ensures rests { (c : List ℕ) (m : MoteState) (s : Store) (t : Sending) (now : ℕ) → IsMote c self.old m s
            → m.mode ≡ Transmit t
            → ChipStays (to_it (Transmit t) m s now (page_request name.image name.version name.page want)) c s self.new result }
        ensures unchanged { StaysIf result (self.new ≡ self.old) }
    {
        let Mode::Transmit {
            image,
            version,
            page,
            serving,
        } = &mut self.mode
        else {
            return Heard::Dropped;
        };
        if *image != name.image || *version != name.version || *page != name.page {
            return Heard::Dropped;
        }
        serving.merge(&want);
        Heard::Merged
    }

    /// Whether a page is at most the next page of that version that this mote would ask for.
    pub(crate) fn concerns(&self, name: PageName) -> bool
        requires { PageInRange (known_images self.now.wide) name.image name.version name.page }
        ensures { (c : List ℕ) (m : MoteState) (s : Store) → IsMote c self.now m s
            → result ≡ concerns s name.image name.version name.page }
    {
        match self.volume.kept(name.image) {
            Some(kept) if kept.version == name.version => name.page <= kept.done,
            Some(kept) => kept.version < name.version && name.page == 0,
            None => name.page == 0,
        }
    }

    /// Whether a page is kept.
    fn can_serve(&self, name: PageName) -> bool
        requires { PageInRange (known_images self.now.wide) name.image name.version name.page }
        ensures { (c : List ℕ) (m : MoteState) (s : Store) → IsMote c self.now m s
            → result ≡ can_serve s name.image name.version name.page }
    {
        match self.volume.kept(name.image) {
            Some(kept) => kept.version == name.version && name.page < kept.done,
            None => false,
        }
    }
}
