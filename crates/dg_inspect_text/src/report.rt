//! The report on the file of a chip.
use dg_inspect::FileSeen;

/// The moment at which a file was read: how many bytes it had, when it was changed last, how often it was read, and whether
/// the last two reads gave the same bytes.
#[derive(Clone, Copy, Debug, PartialEq, Eq)]
pub struct Moment {
    pub length: u64,
    /// Seconds since the beginning of 1970, where the system has it.
    pub modified: Option<u64>,
    pub reads: u8,
    pub settled: bool,
}

/// What a file shows.
#[derive(Debug, Drop)]
pub struct Report {
    pub name: String,
    pub moment: Moment,
    pub seen: FileSeen,
}
