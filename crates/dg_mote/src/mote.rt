//! A mote and its modes.
ghost use Rattle.std.specs.Prelude.{◌≡◌, ℕ, ◌<◌, ◌^◌, List};
ghost use Rattle.dg_volume.specs.Store.{Store};
ghost use Rattle.dg_volume.specs.Stands.{Mounted, NothingLent};
ghost use Rattle.dg_mote.specs.Sizes.{buffered_bytes};
ghost use Rattle.dg_mote.specs.Model.{MoteState, begun_mote, maintains};
ghost use Rattle.dg_mote.specs.Timely.{Timely};
ghost use Rattle.dg_mote.specs.Motes.{IsMote, id_told, wide_told, volume_of};

use dg_boot::SIZE_OF_COPY_PIECE;
use dg_frame::{FRAME_BYTES, FrameFault, SET_BYTES};
use dg_quiet::Windows;
use dg_recv::Asking;
use dg_send::Serving;
use dg_slot::PageJob;
use dg_trickle::Trickle;
use dg_volume::Volume;
use std::mem::{self, size_of};

/// The packet sets of a mote. While it receives, both record which packets have arrived. While it serves, they are the
/// packets that it owes, and those of a request.
const SETS: usize = 2;

/// The bytes of the largest array of a call: the piece in which a start copies a page.
const SCRATCH_BYTES: usize = SIZE_OF_COPY_PIECE;

/// The bytes of the outbox, the packet sets and the largest array of a call.
const BUFFERED: u32 = (FRAME_BYTES + SETS * SET_BYTES + SCRATCH_BYTES) as u32;

/// The bytes that the value of a mote takes in memory.
pub const MOTE_SIZE: usize = size_of::<Mote>();

/// What a mote is doing.
#[derive(Drop)]
pub enum Mode {
    /// It advertises what it keeps, as its timer decides.
    Maintain(Trickle),
    /// It asks a server for the next page of an image.
    Receive {
        version: u32,
        server: u16,
        asking: Asking,
        job: PageJob,
    },
    /// It serves packets of a page.
    Transmit {
        image: u8,
        version: u32,
        page: u8,
        serving: Serving,
    },
}

/// A mote, without the chip of its board. Times are in milliseconds and never decrease, and a `word` is a random number.
/// After `Stopped` a mote must not be used again.
#[derive(Drop)]
pub struct Mote {
    pub(crate) id: u16,
    /// Whether its radio is wide: the frames that it sends and reads then name images 1 to 6, and otherwise 1 to 3.
    pub(crate) wide: bool,
    /// When it started.
    pub(crate) since: u64,
    pub(crate) windows: Windows,
    pub(crate) volume: Volume,
    pub(crate) mode: Mode,
}

/// What a tick did.
#[derive(Clone, Copy, Debug, PartialEq, Eq)]
pub enum Did {
    /// A frame is in the outbox.
    Sent,
    /// Nothing is sent.
    Idle,
    /// An order is pending, and nothing was done: the caller starts the chip for the order.
    Restart,
}

/// The outcome of a frame that was heard.
#[derive(Clone, Copy, Debug, PartialEq, Eq)]
pub enum Heard {
    /// The bytes are not a frame.
    Refused(FrameFault),
    /// Nothing is done.
    Dropped,
    /// A request or a packet for another mote, which would be of use here, was noted.
    Noted,
    /// An advert equals what the mote would advertise.
    Same,
    /// An advert differs from what the mote would advertise.
    Other,
    /// The mote begins to ask for this page.
    Asks { image: u8, page: u8 },
    /// It begins to serve this page.
    Serves { image: u8, page: u8 },
    /// It already serves the page, and adds the packets that are requested.
    Merged,
    /// It has programmed this packet of the page that it asks for.
    Took { packet: u8 },
    /// The last packet arrived, and the page is complete.
    Sealed { image: u8, page: u8 },
    /// The last packet arrived, and the page fails its check.
    Bad { image: u8, page: u8 },
}

impl Mote {
    /// A mote that was started at the time `now`, over the volume of its board. The frames of a wide mote name images 1 to 6.
    /// Those of a narrow mote, with the old radio, name images 1 to 3.
    pub fn new(volume: Volume, id: u16, wide: bool, now: u64, word: u32) -> Mote
        requires free { NothingLent volume }
        requires moment { now < 2 ^ 62 }
        ensures { (c : List ℕ) (s : Store) → Mounted c volume s → IsMote c result (begun_mote id wide now word) s }
    {
        Mote {
            id,
            wide,
            since: now,
            windows: Windows::new(),
            volume,
            mode: Mode::Maintain(Trickle::new(now, word)),
        }
    }

    /// The mote continues with a new volume, and returns to maintaining. The time of its start and its windows stay.
    pub fn reload(&mut self, volume: Volume, now: u64, word: u32)
        requires free { NothingLent volume }
        requires moment { now < 2 ^ 62 }
        requires mote { (c : List ℕ) × (m : MoteState) × (s : Store) × IsMote c self.old m s × Timely m now }
        ensures { (c d : List ℕ) (m : MoteState) (s t : Store) → IsMote c self.old m s → Mounted d volume t
            → IsMote d self.new (maintains m now word) t }
    {
        self.volume = volume;
        self.mode = Mode::Maintain(Trickle::new(now, word));
    }

    /// The mote returns to maintaining. A slot that is lent is returned unchanged.
    pub(crate) fn maintain_anew(&mut self, now: u64, word: u32)
        requires mote { (c : List ℕ) × (m : MoteState) × (s : Store) × IsMote c self.old m s }
        requires moment { now < 2 ^ 62 }
        ensures { (c : List ℕ) (m : MoteState) (s : Store) → IsMote c self.old m s → IsMote c self.new (maintains m now word) s }
    {
        let anew = Mode::Maintain(Trickle::new(now, word));
        if let Mode::Receive { job, .. } = mem::replace(&mut self.mode, anew) {
            self.volume.put_back(job.drop_job());
        }
    }

    /// Its volume.
    pub fn volume(&self) -> &Volume
        ensures { result.now ≡ volume_of self.now }
    {
        &self.volume
    }

    /// Its number.
    pub fn id(&self) -> u16
        ensures { result ≡ id_told self.now }
    {
        self.id
    }

    /// Whether its radio is wide.
    pub fn wide(&self) -> bool
        ensures { result ≡ wide_told self.now }
    {
        self.wide
    }

    /// The bytes of the outbox, of two packet sets in the form that a frame gives them, and of the largest array that a
    /// call uses.
    pub fn buffered(&self) -> u32
        ensures { result ≡ buffered_bytes }
    {
        BUFFERED
    }
}
