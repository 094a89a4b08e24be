//! The values of a command that `clap` read.
ghost use Rattle.std.specs.Prelude.{◌≡◌, IfOk, map, string_bytes};
ghost use Rattle.clap.specs.Words.{found_of, rows_of};
ghost use Rattle.dg_command.specs.Values.{number_under, form_asked, text_at, texts_at};

use clap::ArgMatches;
use dg_control::{FORM, OLD_FORM};
use std::alloc::{AllocError, Global};

/// The number under a name.
pub fn number(matches: &ArgMatches<'_>, name: &str) -> u32
    ensures { result ≡ number_under 32 name.now (rows_of (found_of matches.now)) }
{
    matches.get_one::<u32>(name).unwrap_or(0)
}

/// The short number under a name.
pub fn short_number(matches: &ArgMatches<'_>, name: &str) -> u16
    ensures { result ≡ number_under 16 name.now (rows_of (found_of matches.now)) }
{
    matches.get_one::<u16>(name).unwrap_or(0)
}

/// The small number under a name.
pub fn small_number(matches: &ArgMatches<'_>, name: &str) -> u8
    ensures { result ≡ number_under 8 name.now (rows_of (found_of matches.now)) }
{
    matches.get_one::<u8>(name).unwrap_or(0)
}

/// The form of a chip under a name: form 1 where it is asked for, and else form 2.
pub fn form(matches: &ArgMatches<'_>, name: &str) -> u8
    ensures { result ≡ form_asked (number_under 8 name.now (rows_of (found_of matches.now))) }
{
    if small_number(matches, name) == OLD_FORM {
        OLD_FORM
    } else {
        FORM
    }
}

/// The text under a name.
pub fn text(alloc: Global, matches: &ArgMatches<'_>, name: &str) -> Result<String, AllocError>
    ensures { IfOk result (λ t. string_bytes t ≡ text_at name.now (rows_of (found_of matches.now))) }
{
    match matches.get_str(name) {
        Some(text) => String::from_str(alloc, text),
        None => Ok(String::new(alloc)),
    }
}

/// All the texts under a name.
pub fn texts(alloc: Global, matches: &ArgMatches<'_>, name: &str) -> Result<Vec<String>, AllocError>
    ensures { IfOk result (λ v. map string_bytes v.items ≡ texts_at name.now (rows_of (found_of matches.now))) }
{
    match matches.get_strs(name) {
        Some(found) => copies(alloc, found),
        None => Ok(Vec::new(alloc)),
    }
}

// The same texts, as strings.
fn copies(alloc: Global, found: &[&str]) -> Result<Vec<String>, AllocError>
    ensures { IfOk result (λ v. map string_bytes v.items ≡ map (λ t. t.now) found.now) }
{
    let mut copies = Vec::new(alloc);
    for text in found {
        copies.push(String::from_str(alloc, text)?)?;
    }
    Ok(copies)
}
