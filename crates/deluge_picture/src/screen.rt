//! A picture in a file.
ghost use Rattle.std.specs.Prelude.{None};

use dg_picture::{Screen, ShowFailed};
use std::alloc::AllocError;
use std::time::{Duration, Instant};
use std::{fs, thread};

/// The time between two pictures, in milliseconds: there are at most two in a second.
const BETWEEN: u64 = 500;

/// The suffix of the name of a picture that is not finished. The picture gets its own name when it is whole.
const UNFINISHED: &str = ".unfinished";

/// A file with a picture. Each picture is written beside it, and then gets its name.
#[derive(Drop)]
pub(crate) struct PictureFile<'r> {
    rt: &'r HostRuntime,
    name: String,
    unfinished: String,
    /// When the last picture was shown. None where the system's clock could not be read.
    last: Option<Instant>,
    faults: u64,
}

impl<'r> PictureFile<'r> {
    /// The file with this name. It is made with its first picture.
    pub(crate) fn new(rt: &'r HostRuntime, name: String) -> Result<PictureFile<'r>, AllocError> {
        let mut unfinished = String::from_str(rt.alloc(), name.as_str())?;
        unfinished.push_str(UNFINISHED)?;
        Ok(PictureFile {
            rt,
            name,
            unfinished,
            last: None,
            faults: 0,
        })
    }

    /// Writes a picture beside the file, and gives it the file's name. A cause is written to standard error.
    fn replace(&self, picture: &[u8]) -> bool {
        if let Err(error) = fs::write(self.rt, self.unfinished.as_str(), picture) {
            let _ = eprintln!(self.rt;
                "deluge_picture: {}: cannot be written: {error}",
                self.unfinished
            );
            return self.give_up();
        }
        if let Err(error) = fs::rename(self.rt, self.unfinished.as_str(), self.name.as_str()) {
            let _ = eprintln!(self.rt;
                "deluge_picture: {}: cannot be replaced: {error}",
                self.name
            );
            return self.give_up();
        }
        true
    }

    /// Removes what was not finished.
    fn give_up(&self) -> bool {
        let _ = fs::remove_file(self.rt, self.unfinished.as_str());
        false
    }

    /// The time since the last picture, if the system gives it.
    fn passed(&self) -> Option<Duration> {
        self.last?.elapsed(self.rt).ok()
    }
}

impl<'r> Screen for PictureFile<'r> {
    ghost shown = { λ _. None };

    ghost faults = { λ s. s.faults };

    fn is_due(&mut self, more: bool) -> bool {
        let left = Duration::from_millis(BETWEEN).saturating_sub(
            self.passed().unwrap_or(Duration::ZERO),
        );
        if left.is_zero() {
            return true;
        }
        if more {
            return false;
        }
        thread::sleep(self.rt, left);
        true
    }

    fn show(&mut self, picture: &[u8]) -> Result<(), ShowFailed> {
        if self.replace(picture) {
            self.last = Instant::now(self.rt).ok();
            return Ok(());
        }
        self.faults = self.faults.saturating_add(1);
        Err(ShowFailed)
    }
}
