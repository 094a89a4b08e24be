//! What is written to standard error after a command ended.
use crate::finding::is_named_before;
use crate::opening::begin_with;
use crate::showing::shown_word;
use crate::words::NOT_TEXT;
use dg_base::Status;
use dg_command::misuse;
use dg_messages::{Causes, Input, Misuse, Output, Reads, message, told};
use dg_net::LinkCause;
use dg_nor::FileFault;
use std::alloc::AllocError;
use std::io::{Read, Write};
use std::process::ExitCode;

/// The program.
const PROGRAM: &str = "deluge";

/// How a command ended, the files that it named, the chip that its status is about, by its number among these, why its file is
/// gone, and why a call of its link failed.
#[derive(Drop)]
pub(crate) struct Ended {
    pub(crate) names: Vec<String>,
    pub(crate) status: Status,
    pub(crate) chip: Option<usize>,
    pub(crate) file: Option<FileFault>,
    pub(crate) link: Option<LinkCause>,
}

/// Reports why a command did not do what it was asked, if it did not.
pub(crate) fn tell<R: Read, W: Write>(
    rt: &HostRuntime,
    words: &[String],
    ended: &Ended,
    input: &Input<R>,
    out: &Output<W>,
) {
    let wrong = match ended.status {
        Status::Usage => misuse_of(rt, words).unwrap_or(None),
        _ => None,
    };
    let causes = Causes {
        misuse: misuse_told(words, &wrong),
        reads: what_is_read(words),
        in_memory: ended.names.is_empty(),
        file: ended.file,
        named_twice: ended
            .chip
            .is_some_and(|chip| is_named_before(rt, &ended.names, chip)),
        input: input.fault(),
        output: out.fault(),
        link: ended.link,
    };
    let _ = tell_by(rt, words, ended, out.last_line(), &causes);
}

/// What a command reads, as far as its causes depend on that.
fn what_is_read(words: &[String]) -> Reads {
    if begin_with(words, "drip") {
        return Reads::Nodes;
    }
    if begin_with(words, "receive") {
        return Reads::Wrapped;
    }
    Reads::Other
}

/// What is wrong with words, of which each is as it is shown.
fn misuse_of(rt: &HostRuntime, words: &[String]) -> Result<Option<String>, AllocError> {
    let mut all = Vec::new(rt.alloc());
    for word in words {
        all.push(shown_word(rt, word.as_str())?)?;
    }
    misuse(rt.alloc(), &all)
}

/// What is wrong with the words, if something is.
fn misuse_told<'a>(words: &'a [String], wrong: &'a Option<String>) -> Misuse<'a> {
    match (words.first(), wrong) {
        (Some(verb), Some(what)) => Misuse::Words {
            what: what.as_str(),
            verb: verb.as_str(),
        },
        (Some(word), None) if word.as_str() == NOT_TEXT => Misuse::NotText,
        (Some(word), None) => Misuse::NoCommand {
            word: word.as_str(),
        },
        (None, _) => Misuse::NoWord,
    }
}

/// Reports why the command ended so, and the file that it is about, if there is one.
fn tell_by(
    rt: &HostRuntime,
    words: &[String],
    ended: &Ended,
    last: &[u8],
    causes: &Causes<'_>,
) -> Result<(), AllocError> {
    if let Some(told) = told(ended.status, last, causes) {
        let line = message(
            rt.alloc(),
            PROGRAM,
            verb_of(words, ended),
            place_of(ended),
            &told,
        )?;
        if let Ok(line) = str::from_utf8(&line) {
            let _ = rt.eprint(line);
        }
    }
    Ok(())
}

/// The command, or nothing if the words are not one.
fn verb_of<'a>(words: &'a [String], ended: &Ended) -> &'a str {
    match (ended.status, words.first()) {
        (Status::Usage, _) | (_, None) => "",
        (_, Some(verb)) => verb.as_str(),
    }
}

/// The file of the chip that a status is about, or nothing if there is none.
fn place_of(ended: &Ended) -> &str {
    match ended.chip {
        Some(chip) => ended.names.get(chip).map_or("", |name| name.as_str()),
        None => "",
    }
}

/// How a program ends without memory for its words or its chips.
pub(crate) fn without_memory(rt: &HostRuntime) -> ExitCode {
    let _ = rt.eprintln("deluge: memory ran out; give the program more of it");
    exit_code(Status::Memory)
}

/// How a program ends, by how its command ended.
pub fn exit_code(status: Status) -> ExitCode {
    ExitCode::from(status.code())
}
