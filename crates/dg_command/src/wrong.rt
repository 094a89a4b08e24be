//! What is wrong with an invalid command line.
ghost use Rattle.std.specs.Prelude.{◌≡◌, None, IfOk, map, string_bytes};
ghost use Rattle.dg_command.specs.Verbs.{verb_in};

use crate::apps::command_for;
use crate::command::Command;
use crate::ranges::ROOT_DIGITS;
use crate::reading::command_at;
use crate::roots::{has_hex_digits, is_root};
use crate::verbs::Verb;
use clap::ArgMatches;
use dg_base::is_name;
use std::alloc::{AllocError, Global};

/// The most bytes of a name.
const LONGEST_NAME: usize = 16;

/// What is wrong with words that begin with a verb and are not a command: a text for an operator, which names the option and its
/// range, or the word. None if they do not begin with a verb, or nothing is wrong with them.
pub fn misuse(alloc: Global, words: &Vec<String>) -> Result<Option<String>, AllocError>
    ensures { verb_in (map string_bytes words.now.items) ≡ None → IfOk result (λ text. text ≡ None) }
{
    match Verb::among(words) {
        Some(verb) => misuse_of(alloc, verb, words),
        None => Ok(None),
    }
}

/// What is wrong with words that begin with this verb.
fn misuse_of(alloc: Global, verb: Verb, words: &Vec<String>) -> Result<Option<String>, AllocError> {
    let command = command_for(alloc, Some(verb))?;
    match command.try_get_matches_from(words.as_slice()) {
        Ok(matches) => misuse_of_values(alloc, verb, &matches),
        Err(error) if error.use_stderr() => {
            let text = format!(in alloc; "{error}")?;
            Ok(Some(first_part(alloc, text.as_str())?))
        }
        Err(_help) => Ok(None),
    }
}

/// What is wrong with the values that `clap` read.
fn misuse_of_values(
    alloc: Global,
    verb: Verb,
    matches: &ArgMatches<'_>,
) -> Result<Option<String>, AllocError> {
    let command = command_at(alloc, verb, matches)?;
    misuse_in(alloc, &command)
}

/// What is wrong with the values of a command: a name, or a root.
fn misuse_in(alloc: Global, command: &Command) -> Result<Option<String>, AllocError> {
    match command {
        Command::Format { name, .. } | Command::Inject { name, .. } => name_misuse(alloc, name),
        Command::Check { root, .. } => root_misuse(alloc, root),
        Command::Receive { name, root, .. } => name_or_root_misuse(alloc, name, root),
        _ => Ok(None),
    }
}

fn name_or_root_misuse(
    alloc: Global,
    name: &String,
    root: &String,
) -> Result<Option<String>, AllocError> {
    if is_name(name.as_bytes()) {
        return root_misuse(alloc, root);
    }
    name_misuse(alloc, name)
}

fn name_misuse(alloc: Global, name: &String) -> Result<Option<String>, AllocError> {
    if is_name(name.as_bytes()) {
        return Ok(None);
    }
    let what = if has_name_bytes(name.as_bytes()) {
        let length = name.len();
        format!(in alloc; "it has {length} bytes, and a name has 1 to {LONGEST_NAME}")?
    } else {
        String::from_str(
            alloc,
            "it has another byte than letters, digits, _, - and .",
        )?
    };
    Ok(Some(format!(in alloc; "invalid value '{name}' for '--name <name>': {what}")?))
}

/// Whether each byte is a name by itself.
fn has_name_bytes(name: &[u8]) -> bool {
    name.iter().all(|byte| is_name(&[*byte]))
}

fn root_misuse(alloc: Global, root: &String) -> Result<Option<String>, AllocError> {
    if is_root(root.as_bytes()) {
        return Ok(None);
    }
    let what = if has_hex_digits(root.as_bytes()) {
        let length = root.len();
        format!(in alloc; "it has {length} hex digits, and a root has {ROOT_DIGITS}")?
    } else {
        String::from_str(alloc, "it has another byte than hex digits")?
    };
    Ok(Some(format!(in alloc; "invalid value '{root}' for '--root <root>': {what}")?))
}

/// What `clap` says of words before their usage, in one line.
fn first_part(alloc: Global, text: &str) -> Result<String, AllocError> {
    let text = text.strip_prefix("error: ").unwrap_or(text);
    let first = match text.split_once("\n\n") {
        Some((first, _usage)) => first,
        None => text,
    };
    let mut part = String::new(alloc);
    for word in first.split_whitespace() {
        if !part.is_empty() {
            part.push_str(" ")?;
        }
        part.push_str(word)?;
    }
    Ok(part)
}
