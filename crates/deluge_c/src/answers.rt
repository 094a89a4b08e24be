//! How a call ended.
ghost use Rattle.std.specs.Prelude.{◌≡◌};
ghost use Rattle.deluge_c.specs.Answers.{frame_answer};

use dg_frame::FrameFault;

/// The call was done.
pub(crate) const DONE: u32 = 0;

/// A frame is shorter than a kind, a source and a CRC.
pub(crate) const SHORT: u32 = 1;

/// No such kind.
pub(crate) const KIND: u32 = 2;

/// The number of bytes is not allowed.
pub(crate) const LENGTH: u32 = 3;

/// The CRC or the digest differs.
pub(crate) const CHECK: u32 = 4;

/// A field is out of its range.
pub(crate) const RANGE: u32 = 5;

/// The caller's buffer is too small.
pub(crate) const ROOM: u32 = 6;

/// An escape on the line stands before another byte than it may.
pub(crate) const ESCAPE_FAULT: u32 = 7;

/// A piece of the line has more bytes than a frame.
pub(crate) const LONG: u32 = 8;

/// A flag stands within a piece of the line.
pub(crate) const FLAG_FAULT: u32 = 9;

/// The page does not begin as a descriptor.
pub(crate) const TAG: u32 = 10;

/// The bytes of the chip are not a volume.
pub(crate) const NO_VOLUME: u32 = 11;

/// There is no image to start.
pub(crate) const NO_IMAGE: u32 = 12;

/// Image 0 is golden, which is written by formatting alone.
pub(crate) const RESERVED: u32 = 13;

/// This version or a larger one is kept.
pub(crate) const STALE: u32 = 14;

/// There is no room for the commits.
pub(crate) const WORN: u32 = 15;

/// The image has no byte.
pub(crate) const EMPTY: u32 = 16;

/// It has more than 70,656.
pub(crate) const TOO_LARGE: u32 = 17;

/// This version is kept with another content.
pub(crate) const TAKEN: u32 = 18;

/// The kept order has this number or a larger one.
pub(crate) const OLD_ORDER: u32 = 19;

/// The packet was put before.
pub(crate) const PUT: u32 = 20;

/// Nothing, or another version, is kept of the image.
pub(crate) const NOT_KEPT: u32 = 21;

/// Another page is the next one, or all are complete.
pub(crate) const NOT_NEXT: u32 = 22;

/// Page 0 is not the descriptor of the image.
pub(crate) const UNFIT: u32 = 23;

/// The answer of a refused frame.
pub(crate) fn frame_answer(fault: FrameFault) -> u32
    ensures { result ≡ frame_answer fault }
{
    match fault {
        FrameFault::Short => SHORT,
        FrameFault::Kind => KIND,
        FrameFault::Length => LENGTH,
        FrameFault::Check => CHECK,
        FrameFault::Range => RANGE,
    }
}
