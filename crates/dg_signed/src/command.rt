//! What words ask for.
use crate::release::{ImageName, Release};

/// The names of the files of a key and of a signature.
#[derive(Debug, Drop)]
pub struct KeyFiles {
    pub key: String,
    pub signature: String,
}

/// A command, with its values.
#[derive(Debug, Drop)]
pub enum Command {
    /// Writes the line that is signed.
    Text {
        release: Release,
    },
    /// Reports whether an image is signed.
    Verify {
        files: KeyFiles,
        release: Release,
    },
    /// Receives an image that is signed on the chip in this file.
    Receive {
        files: KeyFiles,
        release: Release,
        name: ImageName,
        chip: String,
    },
}

/// What words ask for.
#[derive(Debug, Drop)]
pub enum Asked {
    /// A command.
    Command(Command),
    /// A text of help, or the version.
    Help(String),
    /// The words are none of these. The text says why.
    Usage(String),
}
