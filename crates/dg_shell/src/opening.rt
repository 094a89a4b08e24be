//! The chips of a command: in files, or in memory.
use crate::showing::shown_word;
use dg_base::MOST_MOTES;
use dg_nor::{Board, CHIP_SIZE};
use std::alloc::AllocError;
use std::fs;

/// The command that makes the file of a chip where there is none.
const FORMAT: &str = "format";

/// The commands that only look into a chip.
const LOOKS: [&str; 3] = ["ping", "dump", "check"];

/// Whether the words are those of this command.
pub(crate) fn begin_with(words: &[String], verb: &str) -> bool {
    match words.first() {
        Some(word) => word.as_str() == verb,
        None => false,
    }
}

/// Whether the words are those of `format`.
pub(crate) fn begin_with_format(words: &[String]) -> bool {
    begin_with(words, FORMAT)
}

/// Whether the words are those of a command that only looks into a chip.
fn only_look(words: &[String]) -> bool {
    for verb in LOOKS {
        if begin_with(words, verb) {
            return true;
        }
    }
    false
}

/// A chip for each of these files, or chips in memory where there are none. None where memory runs out.
pub(crate) fn chips(rt: &HostRuntime, words: &[String], names: &[String]) -> Option<Vec<Board>> {
    if names.is_empty() {
        return boards_in_memory(rt);
    }
    boards_on_files(rt, words, names)
}

/// A chip on each of these files. None where memory runs out.
fn boards_on_files(rt: &HostRuntime, words: &[String], names: &[String]) -> Option<Vec<Board>> {
    let mut boards = Vec::new(rt.alloc());
    for name in names {
        let before = length_at(rt, name.as_str());
        let board = board_on_file(rt, words, name.as_str()).ok()?;
        if board.file_fault().is_none() && before < u64::from(CHIP_SIZE) {
            tell_lengthened(rt, name.as_str(), before).ok()?;
        }
        boards.push(board).ok()?;
    }
    Some(boards)
}

/// The chip of a file, opened as the command needs it.
fn board_on_file(rt: &HostRuntime, words: &[String], name: &str) -> Result<Board, AllocError> {
    if only_look(words) {
        return Board::to_look_at(rt, rt.alloc(), name);
    }
    Board::on_file(rt, rt.alloc(), name, begin_with_format(words))
}

/// How many bytes a file has, or as many as a chip if that is not known.
fn length_at(rt: &HostRuntime, name: &str) -> u64 {
    match fs::metadata(rt, name) {
        Ok(metadata) => metadata.len(),
        Err(_) => u64::from(CHIP_SIZE),
    }
}

/// Reports on standard error that a file of an older chip was lengthened.
fn tell_lengthened(rt: &HostRuntime, name: &str, before: u64) -> Result<(), AllocError> {
    let name = shown_word(rt, name)?;
    let _ = eprintln!(rt;
        "deluge: {name}: it had {before} bytes, and was lengthened to {CHIP_SIZE} with 0xFF"
    );
    Ok(())
}

/// A chip in memory for each mote that a script may have. None where memory runs out.
fn boards_in_memory(rt: &HostRuntime) -> Option<Vec<Board>> {
    let mut boards = Vec::new(rt.alloc());
    for _ in 0..MOST_MOTES {
        boards.push(Board::memory(rt.alloc()).ok()?).ok()?;
    }
    Some(boards)
}
