//! `deluge_sign` reports whether images are signed, and receives those that are, by the calls of `dg_signed`.
#![tactic(auto)]

mod telling;

use crate::telling::{Ended, UNREAD, Why, tell, tell_memory, unread, unreadable};
use dg_base::{Sink, Source, Status, WriteFailed};
use dg_input::{ReadStop, read_whole};
use dg_messages::{Input, Output};
use dg_nor::Board;
use dg_sign_tool::{misuse, receive_for_program, text, verify};
use dg_signed::{
    Asked, Command, ImageName, KeyFiles, Release, SignedImage, Unsigned, asked, signed_image,
};
use std::env;
use std::env::Args;
use std::fs::File;
use std::io::ErrorKind;
use std::process::ExitCode;

/// What is passed on in place of words of which one is not UTF-8. It is not a command.
const NOT_TEXT: &str = "\u{fffd}";

/// The words after the program's name. None where memory runs out.
fn words(rt: &HostRuntime) -> Option<Vec<String>> {
    match env::args(rt) {
        Ok(args) => after_name(rt, args),
        Err(error) if error.kind() == ErrorKind::InvalidData => no_command(rt),
        Err(_) => None,
    }
}

/// All words but the first.
fn after_name(rt: &HostRuntime, args: Args) -> Option<Vec<String>> {
    let mut words = Vec::new(rt.alloc());
    for word in args.skip(1) {
        words.push(word).ok()?;
    }
    Some(words)
}

/// An invalid command line.
fn no_command(rt: &HostRuntime) -> Option<Vec<String>> {
    let mut words = Vec::new(rt.alloc());
    let word = String::from_str(rt.alloc(), NOT_TEXT).ok()?;
    words.push(word).ok()?;
    Some(words)
}

/// Files that take the numbers of standard streams that are closed. Where one is closed, the file that is opened next takes its
/// number, and gets what is written there: that is then one of these, and not a chip. Reads and writes of a closed stream then
/// fail, as they should.
#[derive(Drop)]
struct Guard {
    files: [Option<File>; 3],
}

impl Guard {
    /// A file that can neither be read nor written for each standard stream.
    fn new(rt: &HostRuntime) -> Guard {
        Guard {
            files: [nothing(rt), nothing(rt), nothing(rt)],
        }
    }
}

/// A folder that is opened to be read: reads of it fail, as those of each folder, and so do writes.
fn nothing(rt: &HostRuntime) -> Option<File> {
    File::open(rt, "/").ok()
}

/// How the program ends, by how its command ended.
fn exit_code(status: Status) -> ExitCode {
    ExitCode::from(status.code())
}

/// How the program ends without memory for its words.
fn without_memory(rt: &HostRuntime) -> ExitCode {
    tell_memory(rt);
    exit_code(Status::Memory)
}

/// The bytes of a file, as far as a key or a signature could have them.
fn contents(rt: &HostRuntime, name: &str) -> Result<Vec<u8>, Ended> {
    let file = match File::open(rt, name) {
        Ok(file) => file,
        Err(error) => return Err(unreadable(rt, name, unread(error.kind()))),
    };
    let mut source = Input::new(file);
    match read_whole(rt.alloc(), &mut source) {
        Ok(bytes) => Ok(bytes),
        Err(ReadStop::ReadFault) => Err(unreadable(rt, name, UNREAD)),
        Err(ReadStop::Memory) => Err(Ended::of(Status::Memory)),
    }
}

/// Whether an image is signed, by the files of a key and of a signature.
fn found(
    rt: &HostRuntime,
    files: &KeyFiles,
    release: Release,
) -> Result<Result<SignedImage, Unsigned>, Ended> {
    let key = contents(rt, files.key.as_str())?;
    let signature = contents(rt, files.signature.as_str())?;
    Ok(signed_image(rt.alloc(), &key, &signature, release))
}

/// A chip on the file with this name. None where memory runs out.
fn board(rt: &HostRuntime, name: &str) -> Option<Vec<Board>> {
    let board = Board::on_file(rt, rt.alloc(), name, false).ok()?;
    let mut boards = Vec::new(rt.alloc());
    boards.push(board).ok()?;
    Some(boards)
}

/// Reports by the status whether an image is signed.
fn verify_signed<K: Sink>(
    files: KeyFiles,
    found: &Result<SignedImage, Unsigned>,
    out: &mut K,
) -> Ended {
    let status = verify(found, out);
    Ended::unsigned(status, files, found)
}

/// Receives an image, if it is signed: the file of the chip is opened only then. The guard is held while it is open.
fn receive_signed<S: Source, K: Sink>(
    rt: &HostRuntime,
    _guard: &Guard,
    found: &Result<SignedImage, Unsigned>,
    name: &ImageName,
    chip: String,
    input: &mut S,
    out: &mut K,
) -> Ended {
    let alloc = rt.alloc();
    let Some(mut boards) = board(rt, chip.as_str()) else {
        return Ended::of(Status::Memory);
    };
    let status = receive_for_program(alloc, found, name, input, out, &mut boards);
    let fault = match boards.first() {
        Some(board) => board.file_fault(),
        None => None,
    };
    Ended {
        status,
        why: Why::Chip { name: chip, fault },
    }
}

/// Writes a text of help.
fn help<K: Sink>(out: &mut K, text: &str) -> Status {
    match out.write(text.as_bytes()) {
        Ok(()) => Status::Done,
        Err(WriteFailed) => Status::WriteFault,
    }
}

/// Runs a command over an input and an output.
fn run<S: Source, K: Sink>(
    rt: &HostRuntime,
    guard: &Guard,
    command: Command,
    input: &mut S,
    out: &mut K,
) -> Result<Ended, Ended> {
    match command {
        Command::Text { release } => Ok(Ended::of(text(rt.alloc(), &release, out))),
        Command::Verify { files, release } => {
            let found = found(rt, &files, release)?;
            Ok(verify_signed(files, &found, out))
        }
        Command::Receive {
            files,
            release,
            name,
            chip,
        } => {
            let found = found(rt, &files, release)?;
            if found.is_err() {
                return Ok(verify_signed(files, &found, out));
            }
            Ok(receive_signed(rt, guard, &found, &name, chip, input, out))
        }
    }
}

/// Runs the command of these words over an input and an output.
fn run_words<S: Source, K: Sink>(
    rt: &HostRuntime,
    guard: &Guard,
    words: &Vec<String>,
    input: &mut S,
    out: &mut K,
) -> Ended {
    match asked(rt.alloc(), words) {
        Ok(Asked::Command(command)) => match run(rt, guard, command, input, out) {
            Ok(ended) | Err(ended) => ended,
        },
        Ok(Asked::Help(text)) => Ended::of(help(out, text.as_str())),
        Ok(Asked::Usage(_text)) => Ended::of(misuse(out)),
        Err(_) => Ended::of(Status::Memory),
    }
}

fn main(rt: HostRuntime) -> ExitCode {
    let guard = Guard::new(&rt);
    let Some(words) = words(&rt) else {
        return without_memory(&rt);
    };
    let mut input = Input::new(rt.stdin());
    let mut out = Output::new(rt.stdout());
    let ended = run_words(&rt, &guard, &words, &mut input, &mut out);
    tell(&rt, &words, &ended, &input, &out);
    exit_code(ended.status)
}
