//! The line of some causes. The cause in a last line, and the sentence of each cause, are clauses.

use dg_base::{Sink, Status};
use dg_drip_script::DripFault;
use dg_messages::{
    Causes, InputFault, Misuse, Output, OutputFault, Reads, Refused, Told, message, shown, told,
};
use dg_net::LinkCause;
use dg_nor::FileFault;
use std::io;
use std::io::Write;
use std::test::Fail;

/// Nothing is known but a last line.
const NOTHING: Causes<'static> = Causes {
    misuse: Misuse::NoWord,
    reads: Reads::Other,
    in_memory: false,
    file: None,
    named_twice: false,
    input: InputFault::Failed,
    output: OutputFault::Failed,
    link: None,
};

#[test]
fn causes_are_told(rt: HostRuntime) {
    let causes = Causes {
        file: Some(FileFault::InUse),
        link: Some(LinkCause::PortInUse { port: 17000 }),
        ..NOTHING
    };
    let in_use = Told::File(FileFault::InUse);
    assert_eq!(rt; told(Status::FlashFault, b"", &causes), Some(in_use));
    let link = Told::Link(LinkCause::PortInUse { port: 17000 });
    assert_eq!(rt; told(Status::LinkFault, b"", &causes), Some(link));
    let twice = Causes {
        named_twice: true,
        ..causes
    };
    assert_eq!(rt;
        told(Status::FlashFault, b"", &twice),
        Some(Told::NamedTwice)
    );
    assert_eq!(rt; told(Status::Done, b"", &causes), None);
    assert_eq!(rt;
        told(Status::TooMany, b"toomany", &NOTHING),
        Some(Told::TooMany)
    );
    assert_eq!(rt;
        told(Status::TooLong, b"toolong", &NOTHING),
        Some(Told::TooLong)
    );
    let nodes = Causes {
        reads: Reads::Nodes,
        ..NOTHING
    };
    let place = Told::Nodes {
        cause: DripFault::Place,
        line: 12,
    };
    assert_eq!(rt;
        told(Status::BadInput, b"line 12 place", &nodes),
        Some(place)
    );
}

/// The line of a cause.
fn line(rt: &HostRuntime, verb: &str, place: &str, told: &Told<'_>) -> Result<String, Fail> {
    let line = message(rt.alloc(), "deluge", verb, place, told)?;
    Ok(String::from_str(rt.alloc(), str::from_utf8(&line)?)?)
}

#[test]
fn a_line_names_the_command_and_the_file(rt: HostRuntime) -> Result<(), Fail> {
    let stale = Told::Refused(Refused::Stale { version: 5 });
    let found = line(&rt, "inject", "chip", &stale)?;
    let wanted = "deluge: inject: chip: version 5 is kept already; give a larger --ver\n";
    assert_eq!(rt; found.as_str(), wanted);
    let word = Told::Misused(Misuse::NoCommand { word: "fly" });
    let found = line(&rt, "", "", &word)?;
    let wanted = "deluge: no command has the name fly; deluge --help tells which there are\n";
    assert_eq!(rt; found.as_str(), wanted);
    Ok(())
}

/// Words, and how they are shown.
const WORDS: [(&str, &str); 4] = [
    ("chip", "chip"),
    ("a\nb", "a\\x0ab"),
    ("\u{1b}[31m\u{7f}", "\\x1b[31m\\x7f"),
    ("\u{9b}ä°\u{a0}€", "\\x9bä°\u{a0}€"),
];

#[test]
fn control_characters_are_shown(rt: HostRuntime) -> Result<(), Fail> {
    for (word, wanted) in WORDS {
        assert_eq!(rt; shown(rt.alloc(), word)?.as_slice(), wanted.as_bytes());
    }
    Ok(())
}

/// A writer that takes all that it gets, and keeps nothing.
#[derive(Drop)]
struct Taking;

impl Write for Taking {
    fn write(&mut self, buf: &[u8]) -> io::Result<usize> {
        Ok(buf.len())
    }

    fn flush(&mut self) -> io::Result<()> {
        Ok(())
    }
}

/// What is written, in turn, and the line that is kept then: lines that begin with `s` are not.
const WRITTEN: [(&[u8], &[u8]); 4] = [
    (b"line 2 verb\n", b"line 2 verb"),
    (b"start 0 0 1 1 58e5\n", b"line 2 verb"),
    (b"refused stale 5\n", b"refused stale 5"),
    (b"toomany\n", b"toomany"),
];

#[test]
fn the_last_line_is_kept(rt: HostRuntime) {
    let mut output = Output::new(Taking);
    assert_eq!(rt; output.last_line(), b"".as_slice());
    for (line, kept) in WRITTEN {
        assert_eq!(rt; output.write(line), Ok(()));
        assert_eq!(rt; output.last_line(), kept);
    }
}
