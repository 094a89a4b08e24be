//! Files that take the place of closed streams.
use std::fs::File;

/// Files that take the numbers of standard streams that are closed. Where one is closed, the file that is opened next takes its
/// number, and gets what is written there: that is then one of these, and not a chip. Reads and writes of a closed stream then
/// fail, as they should.
#[derive(Drop)]
pub struct Guard {
    files: [Option<File>; 3],
}

impl Guard {
    /// A file that can neither be read nor written for each standard stream.
    pub fn new(rt: &HostRuntime) -> Guard {
        Guard {
            files: [nothing(rt), nothing(rt), nothing(rt)],
        }
    }

    /// Whether there is such a file for each standard stream.
    pub fn is_whole(&self) -> bool {
        self.files.iter().all(Option::is_some)
    }
}

/// A folder that is opened to be read: reads of it fail, as those of each folder, and so do writes.
fn nothing(rt: &HostRuntime) -> Option<File> {
    File::open(rt, "/").ok()
}
