//! A line of a script of nodes.
ghost use Rattle.std.specs.Prelude.{◌≡◌};
ghost use Rattle.dg_drip_script.specs.Lines.{line_fault};

use dg_drip::DripEvent;
use dg_script::LineFault;

/// What a line says.
#[derive(Clone, Copy, Debug, PartialEq, Eq)]
pub enum DripLine {
    /// Nothing: the line is blank, or a comment.
    Nothing,
    /// There are this many nodes.
    Nodes { count: u8 },
    /// Two nodes are neighbours.
    Link { a: u8, b: u8 },
    /// An event happens.
    Event { event: DripEvent },
    /// One node sends another one all that it keeps.
    Round { a: u8, b: u8 },
    /// This many sweeps: in each, a round both ways over every link.
    Sweeps { count: u32 },
}

/// The first fault of a line, in the order in which they are reported.
#[derive(Clone, Copy, Debug, PartialEq, Eq)]
pub enum DripFault {
    /// The line has more than 300,000 bytes.
    Long,
    /// The first word is not a verb, or has another number of fields.
    Verb,
    /// The line may not stand there.
    Place,
    /// A field is not a number, or not in its range.
    Number,
}

impl DripFault {
    /// The fault of a line, as the last line of a replay reports it.
    pub fn line_fault(self) -> LineFault
        ensures { result ≡ line_fault self }
    {
        match self {
            DripFault::Long => LineFault::Long,
            DripFault::Verb => LineFault::Verb,
            DripFault::Place => LineFault::Place,
            DripFault::Number => LineFault::Number,
        }
    }
}

/// Where a line stands: how many nodes there are, 0 before that is said, and whether the first event, round or sweep came.
#[derive(Clone, Copy, Debug, PartialEq, Eq)]
pub struct Standing {
    pub nodes: u8,
    pub begun: bool,
}
