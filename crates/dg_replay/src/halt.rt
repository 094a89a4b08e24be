//! Why the lines of an input are not played to its end.

use crate::stop::Stop;

#[derive(Clone, Copy, Debug, PartialEq, Eq)]
pub enum Halt {
    /// A read failed.
    ReadFault,
    /// The input has more bytes than are used, and no further line ends among the used ones.
    TooLong,
    /// The replay stopped at a line.
    Stopped(Stop),
}
