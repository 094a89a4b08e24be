//! Causes, for an operator.
use dg_base::Status;
use dg_drip_script::DripFault;
use dg_ihex::HexCause;
use dg_net::LinkCause;
use dg_netcfg::ProfileFault;
use dg_nor::FileFault;
use dg_script::LineFault;

/// What is wrong with an invalid command line.
#[derive(Clone, Copy, Debug, PartialEq, Eq)]
pub enum Misuse<'a> {
    /// There is no word.
    NoWord,
    /// The first one is not a command.
    NoCommand { word: &'a str },
    /// One is not UTF-8.
    NotText,
    /// They are not those that the command takes.
    Words { what: &'a str, verb: &'a str },
}

/// Why standard input could not be read.
#[derive(Clone, Copy, Debug, PartialEq, Eq)]
pub enum InputFault {
    /// It is closed, or a folder.
    NoStream,
    /// A read failed for another reason.
    Failed,
}

/// Why standard output could not be written.
#[derive(Clone, Copy, Debug, PartialEq, Eq)]
pub enum OutputFault {
    /// The disk is full.
    Full,
    /// The reader of a pipe is gone.
    NoReader,
    /// It is closed, or a write failed for another reason.
    Failed,
}

/// Why a command is refused.
#[derive(Clone, Copy, Debug, PartialEq, Eq)]
pub enum Refused {
    /// The image has no byte.
    Empty,
    /// It has this many.
    TooLarge { length: u32 },
    /// It is golden.
    Reserved,
    /// This version is kept.
    Stale { version: u32 },
    /// The version is kept with other bytes or another name.
    Taken,
    /// This many commits are left.
    Worn { room: u32 },
    /// An order with this number is kept.
    OldOrder { number: u32 },
    /// Nothing is kept of the image.
    Absent,
    /// This many of its pages are complete.
    NotWhole { done: u32, pages: u32 },
    /// The page has another digest than the one that is kept.
    Broken { page: u32 },
    /// The pages are not those of their length.
    Shape,
    /// The page is not one of the root.
    Foreign { page: u32 },
}

/// What a command reads from standard input.
#[derive(Clone, Copy, Debug, PartialEq, Eq)]
pub enum Reads {
    /// A script of nodes.
    Nodes,
    /// A HEX file that `wrap` made.
    Wrapped,
    /// Another HEX file, another text, or nothing.
    Other,
}

/// Why a command did not do what it was asked.
#[derive(Clone, Copy, Debug, PartialEq, Eq)]
pub enum Told<'a> {
    Memory,
    /// The command line is invalid.
    Misused(Misuse<'a>),
    /// A line is not a record of a HEX file.
    Hex { cause: HexCause, line: u32 },
    /// The first line of a HEX file that `wrap` made is not a record.
    RootLine,
    /// A line is not one of a script.
    Script { cause: LineFault, line: u32 },
    /// A line is not one of a script of nodes.
    Nodes { cause: DripFault, line: u32 },
    /// The input is not a profile of a network.
    Profile(ProfileFault),
    Input(InputFault),
    Output(OutputFault),
    /// The file of a chip is gone.
    File(FileFault),
    /// Another chip of the command has the file, by the same name or by another one.
    NamedTwice,
    /// A chip stopped.
    Stopped,
    /// A chip is not a volume.
    NotAVolume,
    /// A chip that is kept in memory is not a volume.
    InMemory,
    Refused(Refused),
    Link(LinkCause),
    /// The link failed.
    NoLink,
    TooLong,
    TooMany,
    NoBoard { need: u32, have: u32 },
    NoImage,
    /// The command ended with this status, and nothing more is known.
    Other { status: Status },
}
