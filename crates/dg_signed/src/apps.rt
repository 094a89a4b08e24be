//! The commands of `clap`, one for each verb, and the one for words without a verb.
use crate::words::Verb;
use clap::{Arg, ArgAction, Command, value_parser};
use dg_object::SLOTS;
use std::alloc::{AllocError, Global};

const VERSION: &str = "0.9";

const VERBS: &str = "Commands:
  text --root HEX --image I --ver V
                        write the line that is signed
  verify --key KEY --signature SIG --root HEX --image I --ver V
                        tell by the status whether an image is signed
  receive --key KEY --signature SIG --root HEX --image I --ver V --name NAME CHIP
                        put a hash-chained image into a chip, if it is signed

KEY and SIG are files, as botan writes them or raw.";

/// An option that must be there, whose value is a number within bounds.
fn number<'a>(alloc: Global, name: &'a str, help: &'a str, low: u32, high: u32) -> Arg<'a> {
    text(alloc, name, help).value_parser(value_parser!(u32).range(i64::from(low)..=i64::from(high)))
}

/// An option that must be there, whose value is a text.
fn text<'a>(alloc: Global, name: &'a str, help: &'a str) -> Arg<'a> {
    Arg::new(alloc, name)
        .long(name)
        .help(help)
        .required(true)
        .action(ArgAction::Set)
}

/// The options that say what is signed. The image has this number or a larger one.
fn release<'a>(alloc: Global, least: u32, help: &'a str) -> Result<Vec<Arg<'a>>, AllocError> {
    let root = text(
        alloc,
        "root",
        "The root of the chain: the 64 hex digits that deluge wrap wrote",
    );
    let image = number(alloc, "image", help, least, u32::from(SLOTS - 1));
    let version = number(alloc, "ver", "The version, 1 to 4294967295", 1, u32::MAX);
    Ok(vec![in alloc; root, image, version]?)
}

/// Adds the files of a key and of a signature.
fn add_files<'a>(alloc: Global, arguments: &mut Vec<Arg<'a>>) -> Result<(), AllocError> {
    arguments.push(text(
        alloc,
        "key",
        "The file of the public key: PEM, 136 hex digits, or 68 raw bytes",
    ))?;
    arguments.push(text(
        alloc,
        "signature",
        "The file of the signature: one line of base64, or 2500 raw bytes",
    ))?;
    Ok(())
}

/// What the words after a verb may be.
fn arguments<'a>(alloc: Global, verb: Verb) -> Result<Vec<Arg<'a>>, AllocError> {
    match verb {
        Verb::Text => release(alloc, 0, "The image, 0 to 6; 0 is golden"),
        Verb::Verify => {
            let mut arguments = release(alloc, 0, "The image, 0 to 6; 0 is golden")?;
            add_files(alloc, &mut arguments)?;
            Ok(arguments)
        }
        Verb::Receive => {
            let mut arguments = release(alloc, 1, "The image, 1 to 6")?;
            add_files(alloc, &mut arguments)?;
            arguments.push(text(alloc, "name", "The name of the image, 1 to 16 bytes"))?;
            arguments.push(chip(alloc))?;
            Ok(arguments)
        }
    }
}

/// The file of a chip.
fn chip<'a>(alloc: Global) -> Arg<'a> {
    Arg::new(alloc, "CHIP")
        .help("The file of the chip")
        .required(true)
        .action(ArgAction::Set)
}

/// How a verb is called, and what it does.
fn description<'a>(verb: Verb) -> (&'a str, &'a str) {
    match verb {
        Verb::Text => ("deluge_sign text", "Writes the line that is signed"),
        Verb::Verify => (
            "deluge_sign verify",
            "Tells by the status whether an image is signed",
        ),
        Verb::Receive => (
            "deluge_sign receive",
            "Puts a hash-chained image into a chip, if it is signed",
        ),
    }
}

/// The command of a verb.
fn verb_command<'a>(alloc: Global, verb: Verb) -> Result<Command<'a>, AllocError> {
    let (called, does) = description(verb);
    let arguments = arguments(alloc, verb)?;
    let command = Command::new(alloc, verb.word())
        .about(does)
        .bin_name(called)?;
    command.args(arguments)
}

/// The command for words without a verb.
fn top_command<'a>(alloc: Global) -> Command<'a> {
    Command::new(alloc, "deluge_sign")
        .about("Tells whether images are signed, and receives those that are")
        .override_usage("deluge_sign COMMAND [OPTIONS] [CHIP]")
        .after_help(VERBS)
        .version(VERSION)
        .no_binary_name(true)
}

/// The command for words that begin with a verb, or without one.
pub(crate) fn command_for<'a>(
    alloc: Global,
    verb: Option<Verb>,
) -> Result<Command<'a>, AllocError> {
    match verb {
        Some(verb) => verb_command(alloc, verb),
        None => Ok(top_command(alloc)),
    }
}
