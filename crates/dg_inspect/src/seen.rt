//! What a chip shows, as values.
use dg_bits::PageBits;
use dg_breaks::Break;
use dg_chain::DIGEST_SIZE;
use dg_control::IMAGES;
use dg_object::{Descriptor, MOST_PAGES};
use dg_volume::Order;

/// The most pages of an image.
pub(crate) const PAGES: usize = MOST_PAGES as usize;

/// A version of an image.
#[derive(Clone, Copy, Debug, PartialEq, Eq)]
pub struct ImageVersion {
    pub image: u8,
    pub version: u32,
}

/// The bytes of an image that is whole in its pages: their CRC, as a start reports it, and their SHA-256.
#[derive(Clone, Copy, Debug, PartialEq, Eq)]
pub struct BytesSeen {
    pub crc: u16,
    pub sha256: [u8; DIGEST_SIZE],
}

/// The pages of an image from page 0 on, as many as are complete.
#[derive(Debug, Drop)]
pub struct PagesSeen {
    /// What page 0 says.
    pub descriptor: Descriptor,
    /// The data pages whose CRC is not the one that page 0 keeps of them.
    pub unsound: PageBits<{ PAGES }>,
    /// None where a page is missing.
    pub bytes: Option<BytesSeen>,
}

/// A hash chain: the digest of data page 1, and the bytes of the payload.
#[derive(Clone, Copy, Debug, PartialEq, Eq)]
pub struct ChainSeen {
    pub root: [u8; DIGEST_SIZE],
    pub length: u32,
}

/// What a slot keeps of its image.
#[derive(Debug, Drop)]
pub struct ImageSeen {
    pub version: u32,
    /// Pages of the image, its descriptor among them, and how many of them are complete.
    pub pages: u8,
    pub done: u8,
    /// The CRC of page 0 that the header keeps.
    pub crc: u16,
    /// None where no page is complete.
    pub complete: Option<PagesSeen>,
    /// Where the image is whole, and its data pages are those of a hash chain.
    pub chain: Option<ChainSeen>,
}

/// The image that program memory is set to, and its pages there.
#[derive(Debug, Drop)]
pub struct ProgramSeen {
    pub set: ImageVersion,
    pub pages: PagesSeen,
}

/// What becomes of an order that is kept.
#[derive(Clone, Copy, Debug, PartialEq, Eq)]
pub enum OrderState {
    /// There is no order.
    Absent,
    /// It is not tried again.
    Waived,
    /// Program memory is set to its image.
    Started,
    /// The next start tries it.
    Waits,
    /// Its image is not whole yet.
    Incomplete,
    /// It can never start: fewer than two commits are left, or a larger version of its image is kept.
    Never,
}

/// Why a start runs what it runs.
#[derive(Clone, Copy, Debug, PartialEq, Eq)]
pub enum StartReason {
    /// Three short starts choose golden.
    ShortStarts,
    /// An order waits, and its image is sound.
    Order,
    /// Program memory is set to it.
    Program,
    /// Program memory is blank, and golden is started.
    Blank,
}

/// What the next start by power runs.
#[derive(Clone, Copy, Debug, PartialEq, Eq)]
pub struct NextStart {
    /// None where there is no image to start.
    pub runs: Option<ImageVersion>,
    pub reason: StartReason,
    /// It first waives an order whose image is not sound.
    pub waives: bool,
}

/// What a volume keeps.
#[derive(Debug, Drop)]
pub struct VolumeSeen {
    /// The number of the form in which the last commit is written.
    pub form: u8,
    /// The commits that are left.
    pub room: u32,
    pub order: Order,
    pub order_state: OrderState,
    /// Short starts in a row.
    pub gesture: u8,
    pub next: NextStart,
    /// None where program memory is blank.
    pub program: Option<ProgramSeen>,
    /// What is kept of each image, by its number.
    pub images: Vec<Option<ImageSeen>>,
}

/// The numbers that may be used next: a version of each image, and the number of an order.
#[derive(Clone, Copy)]
pub struct NextNumbers {
    pub versions: [Option<u32>; IMAGES],
    pub number: Option<u32>,
}

/// What a chip is.
#[derive(Debug, Drop)]
pub enum ChipSeen {
    Volume(VolumeSeen),
    Broken(Break),
}

/// What bytes are, as those of a chip's file.
#[derive(Debug, Drop)]
pub enum FileSeen {
    /// They are fewer than an older chip has, or more than a chip has.
    Other,
    /// They are as many as a chip may have, all of them 0xFF.
    Blank,
    /// They are a chip, an older one where there are fewer than a chip has.
    Chip { older: bool, chip: ChipSeen },
}

/// Why a chip was not looked at.
#[derive(Clone, Copy, Debug, PartialEq, Eq)]
pub enum LookFault {
    /// Memory ran out.
    Memory,
    /// The chip is stopped.
    Stopped,
}
