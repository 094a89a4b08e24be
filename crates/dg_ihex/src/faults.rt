//! Why a HEX file is refused.
ghost use Rattle.std.specs.Prelude.{◌≡◌};

use std::alloc::AllocError;
use std::error::Error;
use std::fmt;

/// What is wrong with a line, or with the end of a file. Of several causes in one line, the first
/// that is named here counts.
#[derive(Clone, Copy, PartialEq, Eq, Debug)]
pub enum HexCause {
    /// The line does not begin with `:`.
    Start,
    /// A byte after the `:` is not a hex digit, or their number is odd.
    Hex,
    /// The record has fewer than 5 bytes, or not 5 more than its first byte says.
    Count,
    /// The sum of its bytes is not 0 modulo 256.
    Check,
    /// Its type is above 05.
    Kind,
    /// It does not have as many data bytes as its type requires, or passes the last address of its segment.
    Shape,
    /// It gives a byte at an address that an earlier record gave.
    Overlap,
    /// With it, the lowest and the highest address are too far apart for an image.
    Span,
    /// It comes after the end record, or the file has no end record.
    End,
    /// Memory ran out.
    Memory,
}

impl fmt::Display for HexCause {
    ghost use Rattle.std.specs.Prelude.{Some};
    ghost use Rattle.dg_ihex.specs.Causes.{cause_text};

    ghost output = { λ cause. Some (cause_text cause) };

    fn fmt<W: fmt::Write>(&self, f: &mut fmt::Formatter<W>) -> fmt::Result {
        match self {
            HexCause::Start => f.write_str("start"),
            HexCause::Hex => f.write_str("hex"),
            HexCause::Count => f.write_str("count"),
            HexCause::Check => f.write_str("check"),
            HexCause::Kind => f.write_str("kind"),
            HexCause::Shape => f.write_str("shape"),
            HexCause::Overlap => f.write_str("overlap"),
            HexCause::Span => f.write_str("span"),
            HexCause::End => f.write_str("end"),
            HexCause::Memory => f.write_str("memory"),
        }
    }
}

impl Error for HexCause {}

impl From<AllocError> for HexCause {
    ghost use Rattle.std.specs.Prelude.{◌≡◌};
    ghost use Rattle.dg_ihex.specs.declared.faults.HexCause.{HexCause};

    ghost from_gives = { λ _ e. e ≡ HexCause.Memory };

    fn from(_error: AllocError) -> HexCause {
        HexCause::Memory
    }
}

/// Where a HEX file is refused, and why.
#[derive(Clone, Copy, PartialEq, Eq, Debug)]
pub struct HexFileFault {
    /// The number of the line, counted from 1. A missing end record is reported at the line after
    /// the last, and running out of memory at line 0.
    pub line: u32,
    pub cause: HexCause,
}

impl From<AllocError> for HexFileFault {
    ghost use Rattle.std.specs.Prelude.{◌≡◌};
    ghost use Rattle.dg_ihex.specs.Causes.{out_of_memory};

    ghost from_gives = { λ _ e. e ≡ out_of_memory };

    fn from(_error: AllocError) -> HexFileFault {
        HexFileFault {
            line: 0,
            cause: HexCause::Memory,
        }
    }
}
