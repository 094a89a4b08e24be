//! Which chip a status is about, and whether its file is named twice.
use dg_base::Status;
use dg_boot::{BootFault, Kind, start};
use dg_nor::Board;
use dg_volume::{MountFault, Volume};
use std::fs;
use std::fs::Metadata;
use std::os::unix::fs::MetadataExt;

/// The first of these chips that a status is about, if it is about one.
pub(crate) fn first_chip(
    rt: &HostRuntime,
    status: Status,
    boards: &mut Vec<Board>,
) -> Option<usize> {
    for (index, board) in boards.iter_mut().enumerate() {
        if is_about(rt, status, board) {
            return Some(index);
        }
    }
    None
}

/// Whether a status is about this chip. Only commands over one chip are refused.
fn is_about(rt: &HostRuntime, status: Status, board: &mut Board) -> bool {
    match status {
        Status::FlashFault => board.file_fault().is_some(),
        Status::NotAVolume => matches!(Volume::mount(board), Err(MountFault::NotAVolume)),
        Status::Refused => true,
        Status::NoImage => starts_nothing(rt, board),
        _ => false,
    }
}

/// Whether a start of this chip finds no image. It is tried on a copy in memory.
fn starts_nothing(rt: &HostRuntime, board: &Board) -> bool {
    match board.copy(rt.alloc()) {
        Ok(mut copy) => matches!(start(&mut copy, Kind::Power), Err(BootFault::NoImage)),
        Err(_) => false,
    }
}

/// Whether the file with this number among the names is named before, by the same name or by another one.
pub(crate) fn is_named_before(rt: &HostRuntime, names: &[String], index: usize) -> bool {
    match (names.get(index), names.get(..index)) {
        (Some(name), Some(before)) => before.iter().any(|other| are_one_file(rt, name, other)),
        _ => false,
    }
}

/// Whether two names are of one file.
fn are_one_file(rt: &HostRuntime, a: &String, b: &String) -> bool {
    if a.as_str() == b.as_str() {
        return true;
    }
    match (fs::metadata(rt, a.as_str()), fs::metadata(rt, b.as_str())) {
        (Ok(a), Ok(b)) => place_of_file(&a) == place_of_file(&b),
        _ => false,
    }
}

/// The number of the file system of a file, and its own number there.
fn place_of_file(metadata: &Metadata) -> (u64, u64) {
    (metadata.dev(), metadata.ino())
}
