//! `deluge_node` runs one mote of a network profile in a process of its own. `serve_mote_of_network` of `dg_single` does all that
//! it does.
#![tactic(auto)]

mod asking;
mod telling;

use crate::asking::{Asked, Words, read_words};
use crate::telling::{Ended, tell, tell_ended, tell_lengthened, tell_scale, tell_waiting};
use dg_base::Status;
use dg_messages::{Input, Output, Told};
use dg_net::{MoteLink, SystemClock};
use dg_nor::{Board, CHIP_SIZE};
use dg_single::serve_for_program;
use std::alloc::AllocError;
use std::env::Args;
use std::fs::File;
use std::io::ErrorKind;
use std::process::ExitCode;
use std::{env, fs};

/// The words after the program's name. None where one is not UTF-8.
fn typed_words(rt: &HostRuntime) -> Result<Option<Vec<String>>, AllocError> {
    match env::args(rt) {
        Ok(args) => Ok(Some(after_name(rt, args)?)),
        Err(error) if error.kind() == ErrorKind::InvalidData => Ok(None),
        Err(_) => Err(AllocError),
    }
}

/// All words but the first.
fn after_name(rt: &HostRuntime, args: Args) -> Result<Vec<String>, AllocError> {
    let mut words = Vec::new(rt.alloc());
    for word in args.skip(1) {
        words.push(word)?;
    }
    Ok(words)
}

/// Files that take the numbers of standard streams that are closed. Where one is closed, the file that is opened next takes its
/// number, and gets what is written there: that is then one of these, and not a chip. Reads and writes of a closed stream then
/// fail, as they should.
#[derive(Drop)]
struct Guard {
    files: [Option<File>; 3],
}

impl Guard {
    /// A file that can neither be read nor written for each standard stream.
    fn new(rt: &HostRuntime) -> Guard {
        Guard {
            files: [nothing(rt), nothing(rt), nothing(rt)],
        }
    }
}

/// A folder that is opened to be read: reads of it fail, as those of each folder, and so do writes.
fn nothing(rt: &HostRuntime) -> Option<File> {
    File::open(rt, "/").ok()
}

/// How many bytes a file has, or as many as a chip if that is not known.
fn length_at(rt: &HostRuntime, name: &str) -> u64 {
    match fs::metadata(rt, name) {
        Ok(metadata) => metadata.len(),
        Err(_) => u64::from(CHIP_SIZE),
    }
}

/// The chip of a file.
fn chip_of(rt: &HostRuntime, name: &str) -> Result<Board, AllocError> {
    let before = length_at(rt, name);
    let board = Board::on_file(rt, rt.alloc(), name, false)?;
    if board.file_fault().is_none() && before < u64::from(CHIP_SIZE) {
        tell_lengthened(rt, name, before, CHIP_SIZE);
    }
    Ok(board)
}

/// Runs the mote that is asked for, over standard input and output, its chip, a socket of this machine and its clock. The guard
/// is held while the file of the chip is open.
fn run(rt: &HostRuntime, _guard: &Guard, asked: &Asked) -> Result<Status, AllocError> {
    let mut board = chip_of(rt, asked.chip.as_str())?;
    let mut input = Input::new(rt.stdin());
    let mut out = Output::new(rt.stdout());
    let mut link = MoteLink::new(rt, u16::from(asked.id), asked.scale);
    let mut clock = SystemClock::scaled(rt, asked.scale);
    let mut watch = SystemClock::scaled(rt, asked.scale);
    tell_scale(rt, asked.scale);
    tell_waiting(rt);
    let status = serve_for_program(
        rt.alloc(),
        &mut input,
        asked.id,
        &mut board,
        &mut link,
        &mut clock,
        &mut watch,
        asked.seed,
        asked.turns,
        &mut out,
    );
    let ended = Ended {
        status,
        id: asked.id,
        chip: asked.chip.as_str(),
        file: board.file_fault(),
        link: link.cause(),
    };
    tell_ended(rt, &ended, &input, &out);
    Ok(status)
}

/// Words that it does not know: `usage` is written, and the reason is reported.
fn misused(rt: &HostRuntime, why: &str) -> Status {
    let _ = eprintln!(rt; "deluge_node: {why}");
    match rt.print("usage\n") {
        Ok(()) => Status::Usage,
        Err(_) => Status::WriteFault,
    }
}

/// Writes a text of help.
fn help(rt: &HostRuntime, text: &str) -> Status {
    match rt.print(text) {
        Ok(()) => Status::Done,
        Err(_) => Status::WriteFault,
    }
}

/// Does what the words ask for.
fn done(rt: &HostRuntime, guard: &Guard) -> Result<Status, AllocError> {
    let Some(words) = typed_words(rt)? else {
        return Ok(misused(rt, "a word is not UTF-8"));
    };
    match read_words(rt.alloc(), &words)? {
        Words::Run(asked) => run(rt, guard, &asked),
        Words::Help(text) => Ok(help(rt, text.as_str())),
        Words::Usage(why) => Ok(misused(rt, why.as_str())),
    }
}

fn main(rt: HostRuntime) -> ExitCode {
    let guard = Guard::new(&rt);
    match done(&rt, &guard) {
        Ok(status) => ExitCode::from(status.code()),
        Err(AllocError) => {
            let _ = tell(&rt, "", &Told::Memory);
            ExitCode::from(Status::Memory.code())
        }
    }
}
