//! Why a line is not read.
ghost use Rattle.std.specs.Prelude.{◌≡◌};
ghost use Rattle.dg_script.specs.Faults.{fault_name};

use std::error::Error;
use std::fmt;

/// Why a line is not read. If there are several faults, the first one of the line is reported: `Long`,
/// `Verb`, `Few`, `Many`, `Place` and `Cut` in this order, and then the faults of its fields from left to
/// right.
#[derive(Clone, Copy, Debug, PartialEq, Eq)]
pub enum LineFault {
    /// Memory ran out.
    Memory,
    /// The first word is not a verb.
    Verb,
    /// There are fewer fields than the verb has.
    Few,
    /// There are more fields than the verb has.
    Many,
    /// A field is not a number, or is outside a range that has no fault of its own.
    Number,
    /// There is no such mote, the number of motes is not from 1 to 16, or two motes are the same.
    Mote,
    /// An image is outside its range.
    Image,
    /// A version, or the number of an order, is 0.
    Version,
    /// A field is not a name.
    Name,
    /// A field is not a content of an allowed length.
    Content,
    /// A field is not a mask of an allowed length.
    Mask,
    /// The line may not stand at its place, or repeats a link or a narrow mote.
    Place,
    /// A cut waits for its event, and the line is not an event.
    Cut,
    /// The line has more than 300,000 bytes.
    Long,
}

impl LineFault {
    /// The word that reports the fault.
    pub fn name(self) -> &'static str
        ensures { result.now ≡ fault_name self }
    {
        match self {
            LineFault::Memory => "memory",
            LineFault::Verb => "verb",
            LineFault::Few => "few",
            LineFault::Many => "many",
            LineFault::Number => "number",
            LineFault::Mote => "mote",
            LineFault::Image => "image",
            LineFault::Version => "version",
            LineFault::Name => "name",
            LineFault::Content => "content",
            LineFault::Mask => "mask",
            LineFault::Place => "place",
            LineFault::Cut => "cut",
            LineFault::Long => "long",
        }
    }
}

impl fmt::Display for LineFault {
    ghost use Rattle.std.specs.Prelude.{Some};
    ghost use Rattle.dg_script.specs.Faults.{fault_name};

    ghost output = { λ fault. Some (fault_name fault) };

    fn fmt<W: fmt::Write>(&self, f: &mut fmt::Formatter<W>) -> fmt::Result {
        f.write_str(self.name())
    }
}

impl Error for LineFault {}
