//! How long an image may be, and how many pages it makes.
ghost use Rattle.std.specs.Prelude.{◌≡◌, ◌↔◌, ◌<◌, ◌≤◌, IsOk};
ghost use Rattle.dg_object.specs.Sizes.{most_bytes};
ghost use Rattle.dg_object.specs.Object.{pages_for};

use std::error::Error;
use std::fmt;
use std::mem::size_of;

/// The bytes of a page.
pub const PAGE_SIZE: usize = 1_104;

/// The packets of a page.
pub const PACKETS: usize = 48;

/// The bytes of a packet.
pub const PACKET_SIZE: usize = 23;

/// The fewest pages of an object: its descriptor, and one of the image.
pub const FEWEST_PAGES: u8 = 2;

/// The most pages of an object: its descriptor, and 64 of the image.
pub const MOST_PAGES: u8 = 65;

/// The bytes of the longest image, which fills 64 pages.
pub const MOST_BYTES: usize = 70_656;

/// The slots of a chip, each for one image. Image numbers are below this.
pub const SLOTS: u8 = 7;

/// The bytes of a descriptor before the CRCs.
pub const HEAD_SIZE: usize = 28;

/// What comes after them is read from a chip, and checked, in pieces of at most this many bytes.
pub const DESCRIPTOR_PIECE: usize = 96;

/// A packet, as it is read from a chip and carried in a message.
pub type PacketBytes = [u8; PACKET_SIZE];

/// The bytes of a descriptor before the CRCs, as they are read from a chip.
pub type Head = [u8; HEAD_SIZE];

/// A piece of what comes after them.
pub type DescriptorPiece = [u8; DESCRIPTOR_PIECE];

/// The bytes that the array of a packet takes, by its type.
pub const SIZE_OF_PACKET: usize = size_of::<PacketBytes>();

/// The bytes that the array of a head takes, by its type.
pub const SIZE_OF_HEAD: usize = size_of::<Head>();

/// The bytes that the array of a descriptor's piece takes, by its type.
pub const SIZE_OF_DESCRIPTOR_PIECE: usize = size_of::<DescriptorPiece>();

/// Why no image has this length.
#[derive(Clone, Copy, Debug, PartialEq, Eq)]
pub enum SizeFault {
    /// There are no bytes.
    Empty,
    /// There are more bytes than the pages of an object hold.
    TooLarge,
}

impl fmt::Display for SizeFault {
    ghost use Rattle.std.specs.Prelude.{Some};
    ghost use Rattle.dg_object.specs.Faults.{size_fault_text};

    ghost output = { λ fault. Some (size_fault_text fault) };

    fn fmt<W: fmt::Write>(&self, f: &mut fmt::Formatter<W>) -> fmt::Result {
        match self {
            SizeFault::Empty => f.write_str("the image is empty"),
            SizeFault::TooLarge => f.write_str("the image is too large"),
        }
    }
}

impl Error for SizeFault {}

/// Whether an image may have `length` bytes: 1 to 70,656.
pub fn check_size(length: usize) -> Result<(), SizeFault>
    ensures ok { IsOk result ↔ ((1 ≤ length) × (length ≤ most_bytes)) }
    ensures empty { (result ≡ Err SizeFault.Empty) ↔ (length ≡ 0) }
    ensures too_large { (result ≡ Err SizeFault.TooLarge) ↔ (most_bytes < length) }
{
    if length == 0 {
        return Err(SizeFault::Empty);
    }
    if length > MOST_BYTES {
        return Err(SizeFault::TooLarge);
    }
    Ok(())
}

/// How many pages an image of `length` bytes makes: the descriptor, and a page for each 1,104 bytes begun.
pub fn pages_of(length: u32) -> u8
    requires { length ≤ most_bytes }
    ensures { result ≡ pages_for length }
{
    1 + (length as usize).div_ceil(PAGE_SIZE) as u8
}
