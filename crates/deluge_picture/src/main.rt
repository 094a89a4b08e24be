//! `deluge_picture` draws how an image spread. `picture` and `follow` of `dg_picture` do all that it does.
#![tactic(auto)]

mod screen;
#[cfg(test)]
mod tests;

use dg_base::{Status, StdSink, StdSource};
use dg_picture::{PictureFault, follow, picture};
use screen::PictureFile;
use std::alloc::AllocError;
use std::env;
use std::env::Args;
use std::io::ErrorKind;
use std::process::ExitCode;

const HELP: &str = "\
deluge_picture: draws how an image spread

Usage: deluge_picture <REPORT >PICTURE
       deluge_picture --follow FILE <REPORT

It reads a report from standard input, as `deluge replay` and `deluge_cost --timed` write it, and writes an
SVG to standard output.

Options:
  --follow FILE  writes the picture to FILE, while the report comes: of what has come so far at most twice
                 a second, and of all of it at the end. Each is written to FILE.unfinished, which gets the
                 name FILE when it is whole
  --help         writes this text
  --version      writes the version

Statuses: 0 the picture is written, 1 out of memory, 2 usage, 3 a line is none of a report, 4 a read failed,
5 a write failed, 10 the report has too many bytes, 11 it has too many lines.
";

const VERSION: &str = "deluge_picture 0.9\n";

/// What the words after the program's name ask for.
#[derive(Drop)]
enum Asked {
    Picture,
    Follow { file: String },
    Help,
    Version,
    Other,
}

/// What words with this first and this second one ask for.
fn asked_by(first: Option<String>, second: Option<String>) -> Asked {
    let Some(word) = first else {
        return Asked::Picture;
    };
    match (word.as_str(), second) {
        ("--help", None) => Asked::Help,
        ("--version", None) => Asked::Version,
        ("--follow", Some(file)) => Asked::Follow { file },
        _ => Asked::Other,
    }
}

/// What these words ask for, the program's name aside.
fn read_words(mut words: Args) -> Asked {
    let _name = words.next();
    let first = words.next();
    let second = words.next();
    if words.next().is_some() {
        return Asked::Other;
    }
    asked_by(first, second)
}

/// Reports on standard error why there is no picture.
fn tell(rt: &HostRuntime, fault: PictureFault) {
    if let PictureFault::NoReport { line } = fault {
        let _ = eprintln!(rt; "deluge_picture: line {line} is no line of a report");
    }
}

/// The status of a call that ended. Its fault is reported on standard error.
fn ended(rt: &HostRuntime, outcome: Result<(), PictureFault>) -> Status {
    match outcome {
        Ok(()) => Status::Done,
        Err(fault) => {
            tell(rt, fault);
            fault.status()
        }
    }
}

/// Draws the report that comes by standard input.
fn draw(rt: &HostRuntime) -> Status {
    let mut source = StdSource::new(rt.stdin());
    let mut sink = StdSink::new(rt.stdout());
    ended(rt, picture(rt.alloc(), &mut source, &mut sink))
}

/// Draws the report that comes by standard input into a file, while it comes.
fn draw_while_it_comes(rt: &HostRuntime, file: String) -> Status {
    let mut source = StdSource::new(rt.stdin());
    match PictureFile::new(rt, file) {
        Ok(mut screen) => ended(rt, follow(rt.alloc(), &mut source, &mut screen)),
        Err(AllocError) => Status::Memory,
    }
}

/// Writes a text to standard output.
fn write(rt: &HostRuntime, text: &str) -> Status {
    match rt.print(text) {
        Ok(()) => Status::Done,
        Err(_) => Status::WriteFault,
    }
}

/// Does what is asked for.
fn answer(rt: &HostRuntime, asked: Asked) -> Status {
    match asked {
        Asked::Picture => draw(rt),
        Asked::Follow { file } => draw_while_it_comes(rt, file),
        Asked::Help => write(rt, HELP),
        Asked::Version => write(rt, VERSION),
        Asked::Other => {
            let _ = rt.eprintln("deluge_picture: try deluge_picture --help");
            Status::Usage
        }
    }
}

/// How the program ends.
fn exit_code(status: Status) -> ExitCode {
    ExitCode::from(status.code())
}

/// Does what the words ask for. A word that is not UTF-8 is not an option.
fn done(rt: &HostRuntime) -> Status {
    match env::args(rt) {
        Ok(words) => answer(rt, read_words(words)),
        Err(error) if error.kind() == ErrorKind::InvalidData => answer(rt, Asked::Other),
        Err(_) => Status::Memory,
    }
}

fn main(rt: HostRuntime) -> ExitCode {
    exit_code(done(&rt))
}
