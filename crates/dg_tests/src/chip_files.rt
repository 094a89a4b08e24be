//! Files of chips, opened again after each change.
ghost use Rattle.std.specs.Prelude.{◌<◌};
ghost use Rattle.dg_nor.specs.Sizes.{sectors};

use crate::chips::{erase, first_bytes, program};
use dg_nor::{
    Board, CHIP_SIZE, FileFault, Nor, SECTOR_SIZE, SECTORS, Stopped, erase_sector, program_in,
    read_in,
};
use std::process::Abort;
use std::test::Fail;
use std::{env, fs, process};

/// A new folder for the files of a test.
fn new_folder(rt: &HostRuntime, test: &str) -> Result<String, Fail> {
    let id = process::id(rt.process());
    let name = format!(in rt.alloc(); "dg_nor-{test}-{id}")?;
    let folder = env::temp_dir(rt)?.join(rt.alloc(), name.as_str())?;
    let folder = format!(in rt.alloc(); "{}", folder.display())?;
    fs::create_dir(rt, folder.as_str())?;
    Ok(folder)
}

/// The file of a chip in a folder.
fn chip_in(rt: &HostRuntime, folder: &str) -> Result<String, Fail> {
    Ok(format!(in rt.alloc(); "{folder}/chip")?)
}

/// The board of a file. It is stopped if it is not available.
fn opened(rt: &HostRuntime, name: &str, create: bool) -> Result<Board, Fail> {
    Ok(Board::on_file(rt, rt.alloc(), name, create)?)
}

/// Why the file with this name is not a file of a chip, or is not available. None if it is available.
fn fault_at(rt: &HostRuntime, name: &str, create: bool) -> Result<Option<FileFault>, Fail> {
    Ok(opened(rt, name, create)?.file_fault())
}

/// Whether a file has as many bytes as a chip, each of which is 0xFF.
fn is_blank(rt: &HostRuntime, name: &str) -> Result<bool, Fail> {
    let bytes = fs::read(rt, name)?;
    Ok(bytes.len() == CHIP_SIZE as usize && bytes.iter().all(|&byte| byte == 0xFF))
}

/// Whether a new file is stopped, and why it is not available after a program, while it is open.
fn fault_while_open(rt: &HostRuntime, name: &str) -> Result<(bool, Option<FileFault>), Fail> {
    let mut made = opened(rt, name, true)?;
    let stopped = made.is_stopped();
    program(&mut made, &[0x0F, 0x33, 0x55, 0xFE])?;
    Ok((stopped, fault_at(rt, name, true)?))
}

/// The first bytes of a file, whose sector is erased then.
fn erased(rt: &HostRuntime, name: &str) -> Result<[u8; 4], Fail> {
    let mut again = opened(rt, name, true)?;
    let found = first_bytes(&mut again)?;
    erase(&mut again)?;
    Ok(found)
}

fn try_boards(rt: &HostRuntime, test: &impl Abort, folder: &str, name: &str) -> Result<(), Fail> {
    assert_eq!(test; fault_at(rt, name, false)?, Some(FileFault::Missing));
    assert_eq!(test; fault_at(rt, folder, true)?, Some(FileFault::NoFile));
    let left = fault_while_open(rt, name)?;
    assert_eq!(test; left, (false, Some(FileFault::InUse)));
    assert_eq!(test; erased(rt, name)?, [0x0F, 0x33, 0x55, 0xFE]);
    assert!(test; is_blank(rt, name)?);
    Ok(())
}

#[test]
fn boards_on_files(rt: HostRuntime) -> Result<(), Fail> {
    let folder = new_folder(&rt, "boards")?;
    let name = chip_in(&rt, folder.as_str())?;
    try_boards(&rt, &rt, folder.as_str(), name.as_str())?;
    fs::remove_dir_all(&rt, folder.as_str())?;
    Ok(())
}

/// Writes so many bytes 0xFF.
fn write_blank(rt: &HostRuntime, name: &str, length: usize) -> Result<(), Fail> {
    let bytes = vec![in rt.alloc(); 0xFF; length]?;
    fs::write(rt, name, bytes.as_slice())?;
    Ok(())
}

/// Whether the chip of a file is stopped, and its first bytes.
fn opens(rt: &HostRuntime, name: &str) -> Result<(bool, [u8; 4]), Fail> {
    let mut board = opened(rt, name, false)?;
    let stopped = board.is_stopped();
    Ok((stopped, first_bytes(&mut board)?))
}

/// Why a file is not that of a chip, and how long it is then.
fn fault_and_length(rt: &HostRuntime, name: &str) -> Result<(Option<FileFault>, usize), Fail> {
    let fault = fault_at(rt, name, true)?;
    Ok((fault, fs::read(rt, name)?.len()))
}

fn try_lengths(rt: &HostRuntime, test: &impl Abort, name: &str) -> Result<(), Fail> {
    write_blank(rt, name, 679_936)?;
    assert_eq!(test; opens(rt, name)?, (false, [0xFF; 4]));
    assert!(test; is_blank(rt, name)?);
    write_blank(rt, name, 679_935)?;
    let shorter = (Some(FileFault::Length(679_935)), 679_935);
    assert_eq!(test; fault_and_length(rt, name)?, shorter);
    fs::write(rt, name, "short")?;
    let short = (Some(FileFault::Length(5)), 5);
    assert_eq!(test; fault_and_length(rt, name)?, short);
    Ok(())
}

#[test]
fn files_of_other_lengths(rt: HostRuntime) -> Result<(), Fail> {
    let folder = new_folder(&rt, "lengths")?;
    let name = chip_in(&rt, folder.as_str())?;
    try_lengths(&rt, &rt, name.as_str())?;
    fs::remove_dir_all(&rt, folder.as_str())?;
    Ok(())
}

fn try_unfinished(rt: &HostRuntime, test: &impl Abort, name: &str) -> Result<(), Fail> {
    let unfinished = format!(in rt.alloc(); "{name}.unfinished")?;
    fs::write(rt, unfinished.as_str(), "\u{ff}")?;
    assert_eq!(test; fault_at(rt, name, false)?, Some(FileFault::Missing));
    assert_eq!(test; fault_at(rt, name, true)?, None);
    assert!(test; !fs::exists(rt, unfinished.as_str())?);
    assert!(test; is_blank(rt, name)?);
    Ok(())
}

#[test]
fn a_file_that_was_not_finished_is_made_anew(rt: HostRuntime) -> Result<(), Fail> {
    let folder = new_folder(&rt, "unfinished")?;
    let name = chip_in(&rt, folder.as_str())?;
    try_unfinished(&rt, &rt, name.as_str())?;
    fs::remove_dir_all(&rt, folder.as_str())?;
    Ok(())
}

/// Why a file cannot be looked at.
fn fault_of_a_look(rt: &HostRuntime, name: &str) -> Result<Option<FileFault>, Fail> {
    Ok(Board::to_look_at(rt, rt.alloc(), name)?.file_fault())
}

/// The first bytes of a file that is only looked at, after a program of it.
fn looked_at(rt: &HostRuntime, name: &str) -> Result<[u8; 4], Fail> {
    let mut made = opened(rt, name, true)?;
    program(&mut made, &[0x0F, 0x33, 0x55, 0xFE])?;
    drop(made);
    let mut board = Board::to_look_at(rt, rt.alloc(), name)?;
    Ok(first_bytes(&mut board)?)
}

#[test]
fn a_board_to_look_at(rt: HostRuntime) -> Result<(), Fail> {
    let folder = new_folder(&rt, "look")?;
    let name = chip_in(&rt, folder.as_str())?;
    let missing = fault_of_a_look(&rt, name.as_str())?;
    assert_eq!(rt; missing, Some(FileFault::Missing));
    let found = looked_at(&rt, name.as_str())?;
    assert_eq!(rt; found, [0x0F, 0x33, 0x55, 0xFE]);
    fs::remove_dir_all(&rt, folder.as_str())?;
    Ok(())
}

/// The last byte of a sector.
const LAST: u32 = SECTOR_SIZE - 1;

/// The byte that a test writes for a number.
fn mark(number: u32) -> u8 {
    (number % 251) as u8
}

/// Programs the first byte of a sector and the last one, and returns whether the file, opened again, has these two alone.
fn keeps_ends(rt: &HostRuntime, name: &str, sector: u32) -> Result<bool, Fail>
    requires { sector < sectors }
{
    let mut board = opened(rt, name, true)?;
    program_in(&mut board, sector, 0, &[mark(sector)])?;
    program_in(&mut board, sector, LAST, &[!mark(sector)])?;
    drop(board);
    let mut wanted = [0xFF; SECTOR_SIZE as usize];
    wanted[0] = mark(sector);
    wanted[LAST as usize] = !mark(sector);
    has_sector(rt, name, sector, &wanted)
}

/// Whether a sector of a file has these bytes.
fn has_sector(
    rt: &HostRuntime,
    name: &str,
    sector: u32,
    wanted: &[u8; SECTOR_SIZE as usize],
) -> Result<bool, Fail>
    requires { sector < sectors }
{
    let mut board = opened(rt, name, true)?;
    let mut found = [0; SECTOR_SIZE as usize];
    read_in(&mut board, sector, 0, &mut found)?;
    Ok(found == *wanted)
}

/// Erases each sector of a file.
fn erase_all(rt: &HostRuntime, name: &str) -> Result<(), Fail> {
    let mut board = opened(rt, name, true)?;
    for sector in 0..SECTORS {
        erase_sector(&mut board, sector)?;
    }
    Ok(())
}

#[test]
fn a_file_has_the_ends_of_each_sector(rt: HostRuntime) -> Result<(), Fail> {
    let folder = new_folder(&rt, "ends")?;
    let name = chip_in(&rt, folder.as_str())?;
    for sector in 0..SECTORS {
        assert!(rt; keeps_ends(&rt, name.as_str(), sector)?, "sector {sector}");
    }
    erase_all(&rt, name.as_str())?;
    assert!(rt; is_blank(&rt, name.as_str())?);
    fs::remove_dir_all(&rt, folder.as_str())?;
    Ok(())
}

/// The bytes of a place in a sector of 32 places.
const PLACE: u32 = 64;

/// The number that the test wrote last to a place of sector 1 or 2. It wrote `count` numbers from 0 on, 32 to each of
/// the two in turn, and erased a sector before its first place was written again. None if there is no such number.
fn written_last(count: u32, sector: u32, place: u32) -> Option<u32> {
    let mut last = None;
    for number in 0..count {
        if 1 + number / 32 % 2 == sector {
            if number % 32 == 0 {
                last = None;
            }
            if number % 32 == place {
                last = Some(number);
            }
        }
    }
    last
}

/// Whether the places of sectors 1 and 2 are as this many writes leave them.
fn has_written(board: &mut Board, count: u32) -> Result<bool, Stopped> {
    let mut all = true;
    for sector in 1..3 {
        for place in 0..32 {
            let mut found = [0; PLACE as usize];
            read_in(board, sector, PLACE * place, &mut found)?;
            let wanted = match written_last(count, sector, place) {
                Some(number) => [mark(number); PLACE as usize],
                None => [0xFF; PLACE as usize],
            };
            all = all && found == wanted;
        }
    }
    Ok(all)
}

/// Writes a number to its place, and erases its sector before the first.
fn write_number(rt: &HostRuntime, name: &str, number: u32) -> Result<(), Fail> {
    let sector = 1 + number / 32 % 2;
    let mut board = opened(rt, name, true)?;
    if number % 32 == 0 {
        erase_sector(&mut board, sector)?;
    }
    program_in(
        &mut board,
        sector,
        PLACE * (number % 32),
        &[mark(number); PLACE as usize],
    )?;
    Ok(())
}

/// Whether a file, opened again, has what this many writes leave.
fn file_has_written(rt: &HostRuntime, name: &str, count: u32) -> Result<bool, Fail> {
    let mut board = opened(rt, name, true)?;
    Ok(has_written(&mut board, count)?)
}

#[test]
fn a_file_has_seventy_writes_in_turn(rt: HostRuntime) -> Result<(), Fail> {
    let folder = new_folder(&rt, "turns")?;
    let name = chip_in(&rt, folder.as_str())?;
    for number in 0..70 {
        write_number(&rt, name.as_str(), number)?;
        let written = file_has_written(&rt, name.as_str(), number + 1)?;
        assert!(rt; written, "after {number}");
    }
    fs::remove_dir_all(&rt, folder.as_str())?;
    Ok(())
}
