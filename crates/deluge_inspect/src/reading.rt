//! The words that the program is given, and the bytes of files.
use dg_inspect_text::Moment;
use dg_nor::CHIP_SIZE;
use std::env::Args;
use std::fs::{Metadata, OpenOptions};
use std::io::{ErrorKind, Read};
use std::time::UNIX_EPOCH;
use std::{env, io};

/// The most often that a file is read.
pub(crate) const MOST_READS: u8 = 10;

/// One byte more than a chip has: what comes after them in a file is not read.
const MOST_BYTES: u64 = CHIP_SIZE as u64 + 1;

/// Words of which one is not UTF-8 become this one, which is not a command.
const NOT_TEXT: &str = "\u{fffd}";

/// The words after the program's name. None where memory runs out.
pub(crate) fn words(rt: &HostRuntime) -> Option<Vec<String>> {
    match env::args(rt) {
        Ok(args) => after_name(rt, args),
        Err(error) if error.kind() == ErrorKind::InvalidData => no_command(rt),
        Err(_) => None,
    }
}

/// All words but the first.
fn after_name(rt: &HostRuntime, args: Args) -> Option<Vec<String>> {
    let mut words = Vec::new(rt.alloc());
    for word in args.skip(1) {
        words.push(word).ok()?;
    }
    Some(words)
}

/// An invalid command line.
fn no_command(rt: &HostRuntime) -> Option<Vec<String>> {
    let mut words = Vec::new(rt.alloc());
    let word = String::from_str(rt.alloc(), NOT_TEXT).ok()?;
    words.push(word).ok()?;
    Some(words)
}

/// What one read of a file gave: its bytes, and what the system says of it.
#[derive(Drop)]
struct Copied {
    bytes: Vec<u8>,
    length: u64,
    modified: Option<u64>,
}

/// When a file was changed last, in seconds since the beginning of 1970, if the system gives it.
fn changed_at(metadata: &Metadata) -> Option<u64> {
    let modified = metadata.modified().ok()?;
    let since = modified.duration_since(UNIX_EPOCH).ok()?;
    Some(since.as_secs())
}

/// The bytes of a file as they are now, without those after a chip's.
fn read_once(rt: &HostRuntime, name: &str) -> io::Result<Copied> {
    let file = OpenOptions::new().read(true).open(rt, name)?;
    let metadata = file.metadata()?;
    let mut bytes = Vec::new(rt.alloc());
    file.take(MOST_BYTES).read_to_end(&mut bytes)?;
    Ok(Copied {
        bytes,
        length: metadata.len(),
        modified: changed_at(&metadata),
    })
}

/// The moment of a file that was read this many times.
fn moment_of(copied: &Copied, reads: u8, settled: bool) -> Moment {
    Moment {
        length: copied.length,
        modified: copied.modified,
        reads,
        settled,
    }
}

/// The bytes of a file, and the moment that was seen: it is read until two reads in a row give the same, or ten times.
pub(crate) fn read_settled(rt: &HostRuntime, name: &str) -> io::Result<(Vec<u8>, Moment)> {
    let mut last = read_once(rt, name)?;
    for reads in 2..MOST_READS + 1 {
        let again = read_once(rt, name)?;
        if again.bytes == last.bytes {
            let seen = moment_of(&again, reads, true);
            return Ok((again.bytes, seen));
        }
        last = again;
    }
    let seen = moment_of(&last, MOST_READS, false);
    Ok((last.bytes, seen))
}
