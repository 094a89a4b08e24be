//! The cause in a last line (docs/COMMANDS.md, "How a command ends").
ghost use Rattle.std.specs.Prelude.{◌≡◌};
ghost use Rattle.dg_base.specs.declared.answers.Status.TheVariants as statuses;
ghost use Rattle.dg_script.specs.Words.{same, words_of};
ghost use Rattle.dg_messages.specs.LastLines.{words_behind, first_of, first_number};
ghost use Rattle.dg_messages.specs.LastLines.{bad_input_told, hex_cause_of, hex_told, line_fault_of, line_reported};
ghost use Rattle.dg_messages.specs.LastLines.{no_board_told};
ghost use Rattle.dg_messages.specs.LastLines.{field_fault_of, nodes_fault_of, nodes_told, plain_refusal_of, profile_fault_of};
ghost use Rattle.dg_messages.specs.LastLines.{profile_told, refusal_of, refused_told, script_told};
ghost use Rattle.dg_messages.specs.Saying.{status_told};

use crate::causes::{Reads, Refused, Told};
use dg_base::{Status, parse_u32};
use dg_drip_script::DripFault;
use dg_ihex::HexCause;
use dg_netcfg::ProfileFault;
use dg_script::{LineFault, next_word};

fn is_same(word: &[u8], other: &[u8]) -> bool
    ensures { result ≡ same word.now other.now }
{
    word == other
}

/// The first word of a text, which is empty where there is none, and the text after it.
fn first_word(text: &[u8]) -> (&[u8], &[u8])
    ensures word { result.0.now ≡ first_of (words_of text.now) }
    ensures rest { words_of result.1.now ≡ words_behind (words_of text.now) }
{
    match next_word(text) {
        Some(parts) => parts,
        None => (b"", text),
    }
}

/// The number that the first word of a text is, which is 0 where it is not one, and the text after it.
fn first_number(text: &[u8]) -> (u32, &[u8])
    ensures number { result.0 ≡ first_number (words_of text.now) }
    ensures rest { words_of result.1.now ≡ words_behind (words_of text.now) }
{
    let (word, rest) = first_word(text);
    (parse_u32(word).unwrap_or(0), rest)
}

/// The cause that says how many chips are missing.
pub(crate) fn no_board<'a>(last: &[u8]) -> Told<'a>
    ensures read { result ≡ no_board_told (words_of last.now) }
    ensures status { status_told result ≡ statuses.NoBoard }
{
    let (_noboard, rest) = first_word(last);
    let (need, rest) = first_number(rest);
    let (have, _) = first_number(rest);
    Told::NoBoard { need, have }
}

/// The cause of an invalid input.
pub(crate) fn bad_input<'a>(reads: Reads, last: &[u8]) -> Told<'a>
    ensures read { result ≡ bad_input_told reads (words_of last.now) }
    ensures status { status_told result ≡ statuses.BadInput }
{
    let (first, rest) = first_word(last);
    if is_same(first, b"profile") {
        let (cause, _) = first_word(rest);
        return bad_profile(cause);
    }
    let (line, rest) = first_number(rest);
    let (cause, _) = first_word(rest);
    bad_line(reads, line, cause)
}

fn bad_profile<'a>(cause: &[u8]) -> Told<'a>
    ensures read { result ≡ profile_told cause.now }
    ensures status { status_told result ≡ statuses.BadInput }
{
    match profile_fault(cause) {
        Some(fault) => Told::Profile(fault),
        None => Told::Other {
            status: Status::BadInput,
        },
    }
}

fn profile_fault(word: &[u8]) -> Option<ProfileFault>
    ensures { result ≡ profile_fault_of word.now }
{
    if is_same(word, b"nottoml") {
        return Some(ProfileFault::NotToml);
    }
    if is_same(word, b"key") {
        return Some(ProfileFault::Key);
    }
    if is_same(word, b"id") {
        return Some(ProfileFault::Id);
    }
    if is_same(word, b"link") {
        return Some(ProfileFault::Link);
    }
    if is_same(word, b"port") {
        return Some(ProfileFault::Port);
    }
    None
}

/// The cause of a line of what is read.
fn bad_line<'a>(reads: Reads, line: u32, word: &[u8]) -> Told<'a>
    ensures read { result ≡ line_reported reads line word.now }
    ensures status { status_told result ≡ statuses.BadInput }
{
    if reads == Reads::Nodes {
        return bad_nodes_line(line, word);
    }
    match hex_cause(word) {
        Some(cause) => bad_hex_line(reads, line, cause),
        None => bad_script_line(line, word),
    }
}

/// Of what `wrap` wrote the first line is the root.
fn bad_hex_line<'a>(reads: Reads, line: u32, cause: HexCause) -> Told<'a>
    ensures read { result ≡ hex_told reads line cause }
    ensures status { status_told result ≡ statuses.BadInput }
{
    match (reads, cause, line) {
        (Reads::Wrapped, HexCause::Start, 1) => Told::RootLine,
        _ => Told::Hex { cause, line },
    }
}

/// The causes of a HEX file and of a script have different words.
fn bad_script_line<'a>(line: u32, word: &[u8]) -> Told<'a>
    ensures read { result ≡ script_told line word.now }
    ensures status { status_told result ≡ statuses.BadInput }
{
    match line_fault(word) {
        Some(cause) => Told::Script { cause, line },
        None => Told::Other {
            status: Status::BadInput,
        },
    }
}

fn bad_nodes_line<'a>(line: u32, word: &[u8]) -> Told<'a>
    ensures read { result ≡ nodes_told line word.now }
    ensures status { status_told result ≡ statuses.BadInput }
{
    match nodes_fault(word) {
        Some(cause) => Told::Nodes { cause, line },
        None => Told::Other {
            status: Status::BadInput,
        },
    }
}

fn hex_cause(word: &[u8]) -> Option<HexCause>
    ensures { result ≡ hex_cause_of word.now }
{
    if is_same(word, b"start") {
        return Some(HexCause::Start);
    }
    if is_same(word, b"hex") {
        return Some(HexCause::Hex);
    }
    if is_same(word, b"count") {
        return Some(HexCause::Count);
    }
    if is_same(word, b"check") {
        return Some(HexCause::Check);
    }
    if is_same(word, b"kind") {
        return Some(HexCause::Kind);
    }
    if is_same(word, b"shape") {
        return Some(HexCause::Shape);
    }
    if is_same(word, b"overlap") {
        return Some(HexCause::Overlap);
    }
    if is_same(word, b"span") {
        return Some(HexCause::Span);
    }
    if is_same(word, b"end") {
        return Some(HexCause::End);
    }
    None
}

fn line_fault(word: &[u8]) -> Option<LineFault>
    ensures { result ≡ line_fault_of word.now }
{
    if is_same(word, b"verb") {
        return Some(LineFault::Verb);
    }
    if is_same(word, b"few") {
        return Some(LineFault::Few);
    }
    if is_same(word, b"many") {
        return Some(LineFault::Many);
    }
    if is_same(word, b"place") {
        return Some(LineFault::Place);
    }
    if is_same(word, b"cut") {
        return Some(LineFault::Cut);
    }
    if is_same(word, b"long") {
        return Some(LineFault::Long);
    }
    field_fault(word)
}

/// The same of a field of a line.
fn field_fault(word: &[u8]) -> Option<LineFault>
    ensures { result ≡ field_fault_of word.now }
{
    if is_same(word, b"number") {
        return Some(LineFault::Number);
    }
    if is_same(word, b"mote") {
        return Some(LineFault::Mote);
    }
    if is_same(word, b"image") {
        return Some(LineFault::Image);
    }
    if is_same(word, b"version") {
        return Some(LineFault::Version);
    }
    if is_same(word, b"name") {
        return Some(LineFault::Name);
    }
    if is_same(word, b"content") {
        return Some(LineFault::Content);
    }
    if is_same(word, b"mask") {
        return Some(LineFault::Mask);
    }
    None
}

fn nodes_fault(word: &[u8]) -> Option<DripFault>
    ensures { result ≡ nodes_fault_of word.now }
{
    if is_same(word, b"long") {
        return Some(DripFault::Long);
    }
    if is_same(word, b"verb") {
        return Some(DripFault::Verb);
    }
    if is_same(word, b"place") {
        return Some(DripFault::Place);
    }
    if is_same(word, b"number") {
        return Some(DripFault::Number);
    }
    None
}

/// The cause of a command that is refused.
pub(crate) fn refused<'a>(last: &[u8]) -> Told<'a>
    ensures read { result ≡ refused_told (words_of last.now) }
    ensures status { status_told result ≡ statuses.Refused }
{
    let (_refused, rest) = first_word(last);
    let (cause, rest) = first_word(rest);
    let (first, rest) = first_number(rest);
    let (second, _) = first_number(rest);
    match refusal(cause, first, second) {
        Some(refusal) => Told::Refused(refusal),
        None => Told::Other {
            status: Status::Refused,
        },
    }
}

/// The refusal that a word names, and the values after it.
fn refusal(word: &[u8], first: u32, second: u32) -> Option<Refused>
    ensures { result ≡ refusal_of word.now first second }
{
    if is_same(word, b"notwhole") {
        return Some(Refused::NotWhole {
            done: first,
            pages: second,
        });
    }
    if is_same(word, b"toolarge") {
        return Some(Refused::TooLarge { length: first });
    }
    if is_same(word, b"stale") {
        return Some(Refused::Stale { version: first });
    }
    if is_same(word, b"worn") {
        return Some(Refused::Worn { room: first });
    }
    if is_same(word, b"oldorder") {
        return Some(Refused::OldOrder { number: first });
    }
    if is_same(word, b"broken") {
        return Some(Refused::Broken { page: first });
    }
    if is_same(word, b"foreign") {
        return Some(Refused::Foreign { page: first });
    }
    plain_refusal(word)
}

/// The refusal that a word names by itself.
fn plain_refusal(word: &[u8]) -> Option<Refused>
    ensures { result ≡ plain_refusal_of word.now }
{
    if is_same(word, b"empty") {
        return Some(Refused::Empty);
    }
    if is_same(word, b"reserved") {
        return Some(Refused::Reserved);
    }
    if is_same(word, b"taken") {
        return Some(Refused::Taken);
    }
    if is_same(word, b"none") {
        return Some(Refused::Absent);
    }
    if is_same(word, b"shape") {
        return Some(Refused::Shape);
    }
    None
}
