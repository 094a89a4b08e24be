//! What words ask for, and the flash files that they name.
ghost use Rattle.std.specs.Prelude.{◌≡◌, ◌≢◌, [], ◌∷◌, IfOk, map, string_bytes, Some};
ghost use Rattle.clap.specs.Words.{found_of, kind_of, rows_of};
ghost use Rattle.dg_command.specs.Bounds.{FitsRanges};
ghost use Rattle.dg_command.specs.Asking.{HelpsBySome, asked_of, asking_of, flashes_of, flashes_said, is_well_formed, asks_named};
ghost use Rattle.dg_command.specs.Asking.{refused_words, said_at, said_of_command, taken_by};

use crate::apps::{CALLED, command_for};
use crate::command::{Asked, Command};
use crate::roots::is_root;
use crate::values::{form, number, short_number, small_number, text, texts};
use crate::verbs::Verb;
use clap::error::ErrorKind;
use clap::{ArgMatches, Error};
use dg_base::is_name;
use dg_control::Order;
use std::alloc::{AllocError, Global};
use std::mem::replace;

/// What words ask for. The first word is the verb.
pub fn asked(alloc: Global, words: &Vec<String>) -> Result<Asked, AllocError>
    ensures answer { IfOk result (λ a. asking_of a ≡ asked_of (map string_bytes words.now.items)) }

    // A command's numbers are in their ranges, the name that it gives an image is valid, and so is a root.
    ensures fits { IfOk result (λ a. FitsRanges (asking_of a)) }
    ensures some { IfOk result HelpsBySome }
{
    let verb = Verb::among(words);
    let command = command_for(alloc, verb)?;
    let outcome = command.try_get_matches_from(words.as_slice());
    match outcome {
        Ok(matches) => taken(alloc, verb, &matches),
        Err(error) => refused(alloc, &error),
    }
}

/// The names of the flash files that words name, in their order. An invalid command line names no file.
pub fn flash_names(alloc: Global, words: &Vec<String>) -> Result<Vec<String>, AllocError>
    ensures { IfOk result (λ names. map string_bytes names.items ≡ flashes_of (asked_of (map string_bytes words.now.items))) }
{
    match asked(alloc, words)? {
        Asked::Command(command) => flashes(alloc, command),
        Asked::Help(_text) => Ok(Vec::new(alloc)),
        Asked::Version | Asked::Usage => Ok(Vec::new(alloc)),
    }
}

// The flash files of a command.
fn flashes(alloc: Global, mut command: Command) -> Result<Vec<String>, AllocError>
    ensures { IfOk result (λ names. map string_bytes names.items ≡ flashes_said (said_of_command command)) }
{
    match &mut command {
        Command::Replay { flashes } | Command::Serve { flashes, .. } => {
            Ok(replace(flashes, Vec::new(alloc)))
        }
        Command::Format { flash, .. }
        | Command::Inject { flash, .. }
        | Command::Order { flash, .. }
        | Command::Boot { flash }
        | Command::Ping { flash }
        | Command::Migrate { flash }
        | Command::Dump { flash, .. }
        | Command::Check { flash, .. }
        | Command::Receive { flash, .. }
        | Command::Base { flash, .. } => Ok(vec![in alloc; replace(flash, String::new(alloc))]?),
        Command::Trial { .. } | Command::Wrap | Command::Drip => Ok(Vec::new(alloc)),
    }
}

// Words that are taken.
fn taken(alloc: Global, verb: Option<Verb>, matches: &ArgMatches<'_>) -> Result<Asked, AllocError>
    ensures taken { IfOk result (λ a. asking_of a ≡ taken_by verb (rows_of (found_of matches.now))) }
    ensures some { IfOk result HelpsBySome }
{
    match verb {
        Some(verb) => {
            let command = command_at(alloc, verb, matches)?;
            Ok(asks_named(command))
        }
        None => Ok(Asked::Usage),
    }
}

// A command, unless the name that it gives an image is invalid, or a root is.
fn asks_named(command: Command) -> Asked
    ensures named { asking_of result ≡ asks_named (said_of_command command) }
    ensures some { HelpsBySome result }
{
    if is_well_formed(&command) {
        Asked::Command(command)
    } else {
        Asked::Usage
    }
}

fn is_well_formed(command: &Command) -> bool
    ensures { result ≡ is_well_formed (said_of_command command.now) }
{
    match command {
        Command::Format { name, .. } | Command::Inject { name, .. } => is_name(name.as_bytes()),
        Command::Check { root, .. } => is_root(root.as_bytes()),
        Command::Receive { name, root, .. } => {
            is_name(name.as_bytes()) && is_root(root.as_bytes())
        }
        _ => true,
    }
}

// Words that are refused: a text of help, the version, or a mistake.
fn refused(alloc: Global, error: &Error) -> Result<Asked, AllocError>
    ensures refused { IfOk result (λ a. (asking_of a ≡ refused_words (kind_of error.now))
        × (kind_of error.now ≢ ErrorKind.OutOfMemory)) }
    ensures some { IfOk result HelpsBySome }
{
    match error.kind() {
        ErrorKind::DisplayHelp => Ok(Asked::Help(help_text(alloc, error)?)),
        ErrorKind::DisplayVersion => Ok(Asked::Version),
        ErrorKind::OutOfMemory => Err(AllocError),
        _ => Ok(Asked::Usage),
    }
}

// The text of help that `clap` made. Were it empty, it is how the program is called.
fn help_text(alloc: Global, error: &Error) -> Result<String, AllocError>
    ensures { IfOk result (λ text. string_bytes text ≢ []) }
{
    let text = format!(in alloc; "{error}")?;
    if text.is_empty() {
        return String::from_str(alloc, CALLED);
    }
    Ok(text)
}

// The values of a command.
pub(crate) fn command_at(
    alloc: Global,
    verb: Verb,
    matches: &ArgMatches<'_>,
) -> Result<Command, AllocError>
    ensures { IfOk result (λ c. said_of_command c ≡ said_at verb (rows_of (found_of matches.now))) }
{
    match verb {
        Verb::Replay => Ok(Command::Replay {
            flashes: texts(alloc, matches, "FLASH")?,
        }),
        Verb::Serve => serve_at(alloc, matches),
        Verb::Format => format_at(alloc, matches),
        Verb::Inject => inject_at(alloc, matches),
        Verb::Order => order_at(alloc, matches),
        Verb::Boot => Ok(Command::Boot {
            flash: text(alloc, matches, "FLASH")?,
        }),
        Verb::Ping => Ok(Command::Ping {
            flash: text(alloc, matches, "FLASH")?,
        }),
        Verb::Dump => dump_at(alloc, matches),
        Verb::Migrate => Ok(Command::Migrate {
            flash: text(alloc, matches, "FLASH")?,
        }),
        Verb::Trial => Ok(trial_at(matches)),
        Verb::Wrap => Ok(Command::Wrap),
        Verb::Check => check_at(alloc, matches),
        Verb::Receive => receive_at(alloc, matches),
        Verb::Drip => Ok(Command::Drip),
        Verb::Base => base_at(alloc, matches),
    }
}

fn serve_at(alloc: Global, matches: &ArgMatches<'_>) -> Result<Command, AllocError>
    ensures { IfOk result (λ c. said_of_command c ≡ said_at Verb.Serve (rows_of (found_of matches.now))) }
{
    Ok(Command::Serve {
        turns: number(matches, "turns"),
        seed: number(matches, "seed"),
        flashes: texts(alloc, matches, "FLASH")?,
    })
}

fn format_at(alloc: Global, matches: &ArgMatches<'_>) -> Result<Command, AllocError>
    ensures { IfOk result (λ c. said_of_command c ≡ said_at Verb.Format (rows_of (found_of matches.now))) }
{
    Ok(Command::Format {
        name: text(alloc, matches, "name")?,
        used: number(matches, "used"),
        form: form(matches, "form"),
        flash: text(alloc, matches, "FLASH")?,
    })
}

fn inject_at(alloc: Global, matches: &ArgMatches<'_>) -> Result<Command, AllocError>
    ensures { IfOk result (λ c. said_of_command c ≡ said_at Verb.Inject (rows_of (found_of matches.now))) }
{
    Ok(Command::Inject {
        image: small_number(matches, "image"),
        version: number(matches, "ver"),
        name: text(alloc, matches, "name")?,
        flash: text(alloc, matches, "FLASH")?,
    })
}

fn order_at(alloc: Global, matches: &ArgMatches<'_>) -> Result<Command, AllocError>
    ensures { IfOk result (λ c. said_of_command c ≡ said_at Verb.Order (rows_of (found_of matches.now))) }
{
    let order = Order {
        number: number(matches, "number"),
        image: small_number(matches, "image"),
        version: number(matches, "ver"),
    };
    Ok(Command::Order {
        order,
        flash: text(alloc, matches, "FLASH")?,
    })
}

fn dump_at(alloc: Global, matches: &ArgMatches<'_>) -> Result<Command, AllocError>
    ensures { IfOk result (λ c. said_of_command c ≡ said_at Verb.Dump (rows_of (found_of matches.now))) }
{
    Ok(Command::Dump {
        image: small_number(matches, "image"),
        flash: text(alloc, matches, "FLASH")?,
    })
}

fn trial_at(matches: &ArgMatches<'_>) -> Command
    ensures { said_of_command result ≡ said_at Verb.Trial (rows_of (found_of matches.now)) }
{
    Command::Trial {
        motes: small_number(matches, "motes"),
        pages: small_number(matches, "pages"),
        seed: number(matches, "seed"),
    }
}

fn check_at(alloc: Global, matches: &ArgMatches<'_>) -> Result<Command, AllocError>
    ensures { IfOk result (λ c. said_of_command c ≡ said_at Verb.Check (rows_of (found_of matches.now))) }
{
    Ok(Command::Check {
        image: small_number(matches, "image"),
        root: text(alloc, matches, "root")?,
        flash: text(alloc, matches, "FLASH")?,
    })
}

fn receive_at(alloc: Global, matches: &ArgMatches<'_>) -> Result<Command, AllocError>
    ensures { IfOk result (λ c. said_of_command c ≡ said_at Verb.Receive (rows_of (found_of matches.now))) }
{
    Ok(Command::Receive {
        image: small_number(matches, "image"),
        version: number(matches, "ver"),
        name: text(alloc, matches, "name")?,
        root: text(alloc, matches, "root")?,
        flash: text(alloc, matches, "FLASH")?,
    })
}

fn base_at(alloc: Global, matches: &ArgMatches<'_>) -> Result<Command, AllocError>
    ensures { IfOk result (λ c. said_of_command c ≡ said_at Verb.Base (rows_of (found_of matches.now))) }
{
    Ok(Command::Base {
        id: short_number(matches, "id"),
        step: number(matches, "step"),
        seed: number(matches, "seed"),
        flash: text(alloc, matches, "FLASH")?,
    })
}
