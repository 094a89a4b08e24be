//! What is written to standard error after a command ended.
use dg_base::Status;
use dg_messages::{Causes, Input, Misuse, Output, Reads, message, shown, told};
use dg_nor::FileFault;
use dg_signed::{Asked, KeyFiles, SignedImage, Unsigned, asked};
use std::alloc::AllocError;
use std::io::{ErrorKind, Read, Write};

/// The program.
const PROGRAM: &str = "deluge_sign";

/// Why a file could not be read, and what to do.
pub(crate) const UNREAD: &str =
    "it is a folder, or a read of it failed; name the file of a key or a signature";

/// What is known of a command that ended, besides its status and its last line.
#[derive(Drop)]
pub(crate) enum Why {
    /// Nothing more.
    Known,
    /// A file of a key or of a signature cannot be read.
    Unread {
        name: String,
        what: String,
    },
    /// The image is not signed.
    Unsigned {
        files: KeyFiles,
        cause: Unsigned,
    },
    /// The chip that was used, and why its file is gone, if it is.
    Chip {
        name: String,
        fault: Option<FileFault>,
    },
}

/// How a command ended.
#[derive(Drop)]
pub(crate) struct Ended {
    pub(crate) status: Status,
    pub(crate) why: Why,
}

impl Ended {
    /// An end that is known by its status and its last line.
    pub(crate) fn of(status: Status) -> Ended {
        Ended {
            status,
            why: Why::Known,
        }
    }

    /// The end of a command with this finding of an image.
    pub(crate) fn unsigned(
        status: Status,
        files: KeyFiles,
        found: &Result<SignedImage, Unsigned>,
    ) -> Ended {
        match found {
            Ok(_) => Ended::of(status),
            Err(cause) => Ended {
                status,
                why: Why::Unsigned {
                    files,
                    cause: *cause,
                },
            },
        }
    }
}

/// The end of a command whose file of a key or of a signature cannot be read.
pub(crate) fn unreadable(rt: &HostRuntime, name: &str, what: &str) -> Ended {
    match unreadable_by(rt, name, what) {
        Ok(why) => Ended {
            status: Status::ReadFault,
            why,
        },
        Err(AllocError) => Ended::of(Status::Memory),
    }
}

fn unreadable_by(rt: &HostRuntime, name: &str, what: &str) -> Result<Why, AllocError> {
    Ok(Why::Unread {
        name: String::from_str(rt.alloc(), name)?,
        what: String::from_str(rt.alloc(), what)?,
    })
}

/// Why a file could not be opened, and what to do.
pub(crate) fn unread<'a>(kind: ErrorKind) -> &'a str {
    match kind {
        ErrorKind::NotFound => "there is no such file; look at its name",
        ErrorKind::PermissionDenied => {
            "the system does not let it be read; look at its rights (ls -l)"
        }
        _ => "it cannot be opened; look at its name and its folder",
    }
}

/// Reports that memory ran out.
pub(crate) fn tell_memory(rt: &HostRuntime) {
    let _ = rt.eprintln("deluge_sign: memory ran out; give the program more of it");
}

/// Reports why a command did not do what it was asked, if it did not.
pub(crate) fn tell<R: Read, W: Write>(
    rt: &HostRuntime,
    words: &[String],
    ended: &Ended,
    input: &Input<R>,
    out: &Output<W>,
) {
    let told = match (ended.status, &ended.why) {
        (Status::Done, _) => Ok(()),
        (Status::Usage, _) => tell_usage(rt, words),
        (Status::ReadFault, Why::Unread { name, what }) => tell_of(rt, words, name, what.as_str()),
        (Status::Refused, Why::Unsigned { files, cause }) => tell_unsigned(
            rt, words, files, *cause,
        ),
        _ => tell_by(rt, words, ended, input, out),
    };
    if told.is_err() {
        tell_memory(rt);
    }
}

/// Reports what `clap` says of words, of which each is as it is shown.
fn tell_usage(rt: &HostRuntime, words: &[String]) -> Result<(), AllocError> {
    let mut all = Vec::new(rt.alloc());
    for word in words {
        all.push(shown_word(rt, word.as_str())?)?;
    }
    if let Asked::Usage(text) = asked(rt.alloc(), &all)? {
        let _ = rt.eprint(text.as_str());
    }
    Ok(())
}

/// Reports something of a file.
fn tell_of(
    rt: &HostRuntime,
    words: &[String],
    name: &String,
    what: &str,
) -> Result<(), AllocError> {
    let verb = verb_of(words);
    let name = shown_word(rt, name.as_str())?;
    let _ = eprintln!(rt; "{PROGRAM}: {verb}: {name}: {what}");
    Ok(())
}

/// Reports why an image is not signed, the file that is at fault, and what to do.
fn tell_unsigned(
    rt: &HostRuntime,
    words: &[String],
    files: &KeyFiles,
    cause: Unsigned,
) -> Result<(), AllocError> {
    let (name, advice) = match cause {
        Unsigned::Memory => return Err(AllocError),
        Unsigned::Key(_) => (&files.key, "give the public key of who signed"),
        Unsigned::Text(_) | Unsigned::Signature(_) => (
            &files.signature,
            "do not use the image, or give its own signature, key, root and version",
        ),
    };
    let what = format!(in rt.alloc(); "{cause}; {advice}")?;
    tell_of(rt, words, name, what.as_str())
}

/// Reports the cause that status and last line give, and the chip that it is about, if there is one.
fn tell_by<R: Read, W: Write>(
    rt: &HostRuntime,
    words: &[String],
    ended: &Ended,
    input: &Input<R>,
    out: &Output<W>,
) -> Result<(), AllocError> {
    let (chip, fault) = chip_of(ended);
    let causes = Causes {
        misuse: Misuse::NoWord,
        reads: Reads::Wrapped,
        in_memory: false,
        file: fault,
        named_twice: false,
        input: input.fault(),
        output: out.fault(),
        link: None,
    };
    if let Some(told) = told(ended.status, out.last_line(), &causes) {
        let line = message(rt.alloc(), PROGRAM, verb_of(words), chip, &told)?;
        if let Ok(line) = str::from_utf8(&line) {
            let _ = rt.eprint(line);
        }
    }
    Ok(())
}

/// The chip that a status is about, and why its file is gone, if it is.
fn chip_of(ended: &Ended) -> (&str, Option<FileFault>) {
    match (ended.status, &ended.why) {
        (Status::FlashFault | Status::NotAVolume | Status::Refused, Why::Chip { name, fault }) => (
            name.as_str(),
            *fault,
        ),
        _ => ("", None),
    }
}

/// The command.
fn verb_of(words: &[String]) -> &str {
    words.first().map_or("", |verb| verb.as_str())
}

/// A word as it is shown.
fn shown_word(rt: &HostRuntime, word: &str) -> Result<String, AllocError> {
    let text = shown(rt.alloc(), word)?;
    String::from_str(rt.alloc(), str::from_utf8(&text).unwrap_or(""))
}
