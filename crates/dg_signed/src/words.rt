//! The words of the program: which command they are, and with what values. `clap` reads them.
use crate::apps::command_for;
use crate::command::{Asked, Command, KeyFiles};
use crate::release::{ImageName, Release};
use clap::error::ErrorKind;
use clap::{ArgMatches, Error};
use dg_base::{HexFault, parse_hex};
use dg_xmss::NODE_SIZE;
use std::alloc::{AllocError, Global};

/// The first word of a command.
#[derive(Clone, Copy)]
pub(crate) enum Verb {
    Text,
    Verify,
    Receive,
}

impl Verb {
    fn of(word: &str) -> Option<Verb> {
        match word {
            "text" => Some(Verb::Text),
            "verify" => Some(Verb::Verify),
            "receive" => Some(Verb::Receive),
            _ => None,
        }
    }

    /// The word of a verb.
    pub(crate) fn word<'a>(self) -> &'a str {
        match self {
            Verb::Text => "text",
            Verb::Verify => "verify",
            Verb::Receive => "receive",
        }
    }
}

// Why words that `clap` takes are not a command.
#[derive(Debug, Drop)]
enum Misuse {
    Memory,
    Told(String),
}

impl From<AllocError> for Misuse {
    fn from(_error: AllocError) -> Misuse {
        Misuse::Memory
    }
}

/// What words ask for. The first word is the verb.
pub fn asked(alloc: Global, words: &Vec<String>) -> Result<Asked, AllocError> {
    let verb = match words.first() {
        Some(word) => Verb::of(word.as_str()),
        None => None,
    };
    let command = command_for(alloc, verb)?;
    match command.try_get_matches_from(words.as_slice()) {
        Ok(matches) => taken(alloc, verb, &matches),
        Err(error) => refused(alloc, &error),
    }
}

// Words that `clap` takes.
fn taken(alloc: Global, verb: Option<Verb>, matches: &ArgMatches<'_>) -> Result<Asked, AllocError> {
    let Some(verb) = verb else {
        let text = "error: a command is wanted: text, verify or receive\n";
        return Ok(Asked::Usage(String::from_str(alloc, text)?));
    };
    match command_at(alloc, verb, matches) {
        Ok(command) => Ok(Asked::Command(command)),
        Err(Misuse::Told(text)) => Ok(Asked::Usage(text)),
        Err(Misuse::Memory) => Err(AllocError),
    }
}

// Words that it refuses: a text of help, or a mistake.
fn refused(alloc: Global, error: &Error) -> Result<Asked, AllocError> {
    match error.kind() {
        ErrorKind::DisplayHelp | ErrorKind::DisplayVersion => {
            Ok(Asked::Help(format!(in alloc; "{error}")?))
        }
        ErrorKind::OutOfMemory => Err(AllocError),
        _ => Ok(Asked::Usage(format!(in alloc; "{error}")?)),
    }
}

// The values of a command.
fn command_at(alloc: Global, verb: Verb, matches: &ArgMatches<'_>) -> Result<Command, Misuse> {
    let release = release_at(alloc, matches)?;
    match verb {
        Verb::Text => Ok(Command::Text { release }),
        Verb::Verify => Ok(Command::Verify {
            files: files_at(alloc, matches)?,
            release,
        }),
        Verb::Receive => Ok(Command::Receive {
            files: files_at(alloc, matches)?,
            release,
            name: name_at(alloc, matches)?,
            chip: text_at(alloc, matches, "CHIP")?,
        }),
    }
}

// What is signed. Its numbers are in the ranges that `clap` was given.
fn release_at(alloc: Global, matches: &ArgMatches<'_>) -> Result<Release, Misuse> {
    let root = root_at(alloc, matches)?;
    let image = matches.get_one::<u8>("image").unwrap_or(0);
    let version = matches.get_one::<u32>("ver").unwrap_or(0);
    match Release::new(image, version, root) {
        Some(release) => Ok(release),
        None => {
            let text = format!(in alloc; "error: image {image} or version {version} is none\n")?;
            Err(Misuse::Told(text))
        }
    }
}

// A root: 64 hex digits of either case.
fn root_at(alloc: Global, matches: &ArgMatches<'_>) -> Result<[u8; NODE_SIZE], Misuse> {
    let text = matches.get_str("root").unwrap_or("");
    match parse_hex(alloc, text.as_bytes()) {
        Ok(bytes) if bytes.len() == NODE_SIZE => {
            let mut root = [0; NODE_SIZE];
            root.copy_from_slice(&bytes);
            Ok(root)
        }
        Err(HexFault::Memory) => Err(Misuse::Memory),
        _ => {
            let text = format!(in alloc; "error: '{text}' is no root, which has 64 hex digits\n")?;
            Err(Misuse::Told(text))
        }
    }
}

fn name_at(alloc: Global, matches: &ArgMatches<'_>) -> Result<ImageName, Misuse> {
    let text = text_at(alloc, matches, "name")?;
    match ImageName::new(text) {
        Some(name) => Ok(name),
        None => {
            let text = String::from_str(
                alloc,
                "error: no name, which has 1 to 16 letters, digits, '_', '-' and '.'\n",
            )?;
            Err(Misuse::Told(text))
        }
    }
}

fn files_at(alloc: Global, matches: &ArgMatches<'_>) -> Result<KeyFiles, Misuse> {
    Ok(KeyFiles {
        key: text_at(alloc, matches, "key")?,
        signature: text_at(alloc, matches, "signature")?,
    })
}

fn text_at(alloc: Global, matches: &ArgMatches<'_>, name: &str) -> Result<String, AllocError> {
    String::from_str(alloc, matches.get_str(name).unwrap_or(""))
}
