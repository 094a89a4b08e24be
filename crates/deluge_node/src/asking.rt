//! What the words after the program's name ask for. `clap` reads them.
use clap::error::ErrorKind;
use clap::{Arg, ArgAction, ArgMatches, Command, Error, value_parser};
use dg_base::MOST_MOTES;
use std::alloc::{AllocError, Global};

const VERSION: &str = "0.9";

const CALLED: &str = "deluge_node --id K --seed S [--turns T] [--scale N] CHIP <PROFILE";

const ABOUT: &str = "Runs one mote of a network profile over its chip, and writes the trace of it";

const MORE: &str = "\
It reads the network profile (TOML) from standard input, opens the port of mote K, and hands each frame that the mote sends
to the ports of its neighbours. The other motes are run by other processes, on this machine. Without --turns it runs until
it is ended, as by Ctrl-C or kill. The trace is a script: `deluge replay` plays it over copies of the chips.

Statuses are those of `deluge serve`; docs/COMMANDS.md, \"One mote a process\", tells more.";

/// The turns of a service that has no end: this many never pass.
const ENDLESS: u64 = u64::MAX;

/// The mote that is asked for.
#[derive(Drop)]
pub(crate) struct Asked {
    pub(crate) id: u8,
    pub(crate) seed: u32,
    pub(crate) turns: u64,
    /// A millisecond of the clock counts as this many of the rules.
    pub(crate) scale: u64,
    /// The file of the chip.
    pub(crate) chip: String,
}

/// What words ask for.
#[derive(Drop)]
pub(crate) enum Words {
    Run(Asked),
    /// A text of help, or the version.
    Help(String),
    /// It does not know them, for this reason.
    Usage(String),
}

/// An option whose value is a number within bounds.
fn number<'a>(alloc: Global, name: &'a str, help: &'a str, low: u32, high: u32) -> Arg<'a> {
    Arg::new(alloc, name)
        .long(name)
        .help(help)
        .action(ArgAction::Set)
        .value_parser(value_parser!(u32).range(i64::from(low)..=i64::from(high)))
}

/// The file of the chip.
fn chip<'a>(alloc: Global) -> Arg<'a> {
    Arg::new(alloc, "CHIP")
        .help("The file of the chip")
        .required(true)
        .action(ArgAction::Set)
}

/// What the words may be.
fn arguments<'a>(alloc: Global) -> Result<Vec<Arg<'a>>, AllocError> {
    let id = number(
        alloc,
        "id",
        "The number of the mote in the profile, from 0",
        0,
        MOST_MOTES as u32 - 1,
    )
    .required(true);
    let seed = number(
        alloc,
        "seed",
        "The number that all draws are made from, 0 to 4294967295; another one at each mote",
        0,
        u32::MAX,
    )
    .required(true);
    let turns = number(
        alloc,
        "turns",
        "How many turns it takes, 1 to 1000000; without it, it runs until it is ended",
        1,
        1_000_000,
    );
    let scale = number(
        alloc,
        "scale",
        "A millisecond of the clock counts as so many of the rules, 1 to 100; 1 where none is given",
        1,
        100,
    );
    Ok(vec![in alloc; id, seed, turns, scale, chip(alloc)]?)
}

/// What these words ask for.
pub(crate) fn read_words(alloc: Global, words: &Vec<String>) -> Result<Words, AllocError> {
    let command = Command::new(alloc, "deluge_node")
        .about(ABOUT)
        .override_usage(CALLED)
        .after_help(MORE)
        .version(VERSION)
        .no_binary_name(true)
        .args(arguments(alloc)?)?;
    match command.try_get_matches_from(words.as_slice()) {
        Ok(matches) => Ok(Words::Run(values(alloc, &matches)?)),
        Err(error) => refused(alloc, &error),
    }
}

/// The values of words that `clap` takes, in the ranges that it was given.
fn values(alloc: Global, matches: &ArgMatches<'_>) -> Result<Asked, AllocError> {
    let id = matches.get_one::<u32>("id").unwrap_or(0);
    let turns = match matches.get_one::<u32>("turns") {
        Some(turns) => u64::from(turns),
        None => ENDLESS,
    };
    Ok(Asked {
        id: u8::try_from(id).unwrap_or(u8::MAX),
        seed: matches.get_one::<u32>("seed").unwrap_or(0),
        turns,
        scale: u64::from(matches.get_one::<u32>("scale").unwrap_or(1)),
        chip: String::from_str(alloc, matches.get_str("CHIP").unwrap_or(""))?,
    })
}

/// Words that `clap` refuses: they ask for a text of help, or are a mistake.
fn refused(alloc: Global, error: &Error) -> Result<Words, AllocError> {
    match error.kind() {
        ErrorKind::DisplayHelp | ErrorKind::DisplayVersion => {
            Ok(Words::Help(format!(in alloc; "{error}")?))
        }
        ErrorKind::OutOfMemory => Err(AllocError),
        _ => Ok(Words::Usage(format!(in alloc; "{error}")?)),
    }
}
