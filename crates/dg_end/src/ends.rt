//! How a command that does not do what it was asked ends.
use crate::Refusal;
use dg_ihex::HexFileFault;
use dg_netcfg::ProfileFault;
use dg_script::LineFault;

/// How a command that does not do what it was asked ends.
#[derive(Clone, Copy, Debug, PartialEq, Eq)]
pub enum End {
    /// Memory ran out.
    Memory,
    /// A read of the input failed.
    ReadFault,
    /// A write of the output failed.
    WriteFault,
    /// A board that is used is stopped.
    FlashFault,
    /// A call of the link failed.
    LinkFault,
    /// A board that is used is not a volume.
    NotAVolume,
    /// A start found no image that it may run.
    NoImage,
    /// The input has more than 16,777,216 bytes.
    TooLong,
    /// The script has more than 1,000,000 events.
    TooMany,
    /// The command needs more boards than there are.
    NoBoard { need: u8, have: u32 },
    /// The input is not a HEX file.
    BadHex(HexFileFault),
    /// A line of the script is outside its grammar.
    BadLine { line: u32, fault: LineFault },
    /// The input is not a network profile.
    BadProfile(ProfileFault),
    /// The command's own rules refuse it.
    Refused(Refusal),
}
