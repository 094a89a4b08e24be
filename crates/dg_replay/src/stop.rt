//! Why a replay ends before its script does.

use dg_script::LineFault;

#[derive(Clone, Copy, Debug, PartialEq, Eq)]
pub enum Stop {
    Memory,
    /// This line is outside the grammar.
    BadInput { line: u32, fault: LineFault },
    WriteFault,
    FlashFault,
    /// A million events were played, and there is one more.
    TooMany,
    /// There are fewer boards than motes.
    NoBoard { motes: u8, boards: u32 },
    /// A start found no image.
    NoImage,
    /// A board that is used as it is is not a volume.
    NotAVolume,
}
