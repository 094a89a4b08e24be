//! Reads a line of a script of nodes.
ghost use Rattle.std.specs.Prelude.{◌≡◌, ◌<◌, ◌==◌, IfSome, IfOk};
ghost use Rattle.dg_script.specs.Words.{same, words_of};
ghost use Rattle.dg_drip_script.specs.Fields.{four_numbers, five_numbers};
ghost use Rattle.dg_drip_script.specs.inner.Words.{numbers_of_words};
ghost use Rattle.dg_drip_script.specs.Lines.{shaped, has_nodes, pair_of, drip_tick_of, drip_hear_of, set_of};
ghost use Rattle.dg_drip_script.specs.inner.Words.{may_link};
ghost use Rattle.dg_drip_script.specs.Lines.{count_line, pair_line, event_line, verb_line, drip_line_of};
ghost use Rattle.dg_drip_script.specs.Lines.{FitsDripLine, DripStandsAt};
ghost use Rattle.dg_drip_script.specs.Sizes.{most_nodes, most_sweeps};

use crate::MOST_NODES;
use crate::fields::{
    Field, below, five_fields, four_fields, from_one_to, one_field, small_from_one_to, two_fields,
};
use crate::line::{DripFault, DripLine, Standing};
use dg_drip::{DripEvent, KEYS};
use dg_script::{LONGEST, MOST_SWEEPS, next_word};

fn has_nodes(at: Standing) -> bool
    ensures { result ≡ has_nodes at }
{
    at.nodes != 0
}

fn may_link(at: Standing) -> bool
    ensures { result ≡ may_link at }
{
    has_nodes(at) && !at.begun
}

// Two different nodes.
fn pair(nodes: u8, fields: (Field, Field)) -> Option<(u8, u8)>
    ensures is { result ≡ pair_of nodes fields }
    ensures within { IfSome result (λ p. (p.0 < nodes) × (p.1 < nodes)) }
{
    let a = below(fields.0, nodes)?;
    let b = below(fields.1, nodes)?;
    if b == a {
        return None;
    }
    Some((a, b))
}

fn tick(at: Standing, fields: (Field, Field, Field, Field)) -> Option<DripLine>
    ensures is { result ≡ drip_tick_of at.nodes fields }
    ensures fits { IfSome result (λ l. FitsDripLine at.nodes l × DripStandsAt at l) }
{
    let node = below(fields.0, at.nodes)?;
    let key = below(fields.1, KEYS as u8)?;
    let dt = fields.2?;
    let word = fields.3?;
    let event = DripEvent::Tick {
        node,
        key,
        dt,
        word,
    };
    Some(DripLine::Event { event })
}

fn hear(at: Standing, fields: (Field, Field, Field, Field)) -> Option<DripLine>
    ensures is { result ≡ drip_hear_of at.nodes fields }
    ensures fits { IfSome result (λ l. FitsDripLine at.nodes l × DripStandsAt at l) }
{
    let node = below(fields.0, at.nodes)?;
    let dt = fields.1?;
    let word = fields.2?;
    let frame = from_one_to(fields.3, u32::MAX)?;
    let event = DripEvent::Hear {
        node,
        dt,
        word,
        frame,
    };
    Some(DripLine::Event { event })
}

fn set(at: Standing, fields: (Field, Field, Field, Field, Field)) -> Option<DripLine>
    ensures is { result ≡ set_of at.nodes fields }
    ensures fits { IfSome result (λ l. FitsDripLine at.nodes l × DripStandsAt at l) }
{
    let node = below(fields.0, at.nodes)?;
    let key = below(fields.1, KEYS as u8)?;
    let value = fields.2?;
    let dt = fields.3?;
    let word = fields.4?;
    let event = DripEvent::Set {
        node,
        key,
        value,
        dt,
        word,
    };
    Some(DripLine::Event { event })
}

fn read_nodes(at: Standing, text: &[u8]) -> Result<DripLine, DripFault>
    ensures is { result ≡ count_line (at.nodes == 0) most_nodes DripLine.Nodes (numbers_of_words (words_of text.now)) }
    ensures fits { IfOk result (λ l. FitsDripLine at.nodes l × DripStandsAt at l) }
{
    let Some(count) = one_field(text) else {
        return Err(DripFault::Verb);
    };
    if at.nodes != 0 {
        return Err(DripFault::Place);
    }
    match small_from_one_to(count, MOST_NODES) {
        Some(count) => Ok(DripLine::Nodes { count }),
        None => Err(DripFault::Number),
    }
}

fn read_sweeps(at: Standing, text: &[u8]) -> Result<DripLine, DripFault>
    ensures is { result ≡ count_line (has_nodes at) most_sweeps DripLine.Sweeps (numbers_of_words (words_of text.now)) }
    ensures fits { IfOk result (λ l. FitsDripLine at.nodes l × DripStandsAt at l) }
{
    let Some(count) = one_field(text) else {
        return Err(DripFault::Verb);
    };
    if !has_nodes(at) {
        return Err(DripFault::Place);
    }
    match from_one_to(count, MOST_SWEEPS) {
        Some(count) => Ok(DripLine::Sweeps { count }),
        None => Err(DripFault::Number),
    }
}

fn read_link(at: Standing, text: &[u8]) -> Result<DripLine, DripFault>
    ensures is { result ≡ pair_line (may_link at) at.nodes DripLine.Link (numbers_of_words (words_of text.now)) }
    ensures fits { IfOk result (λ l. FitsDripLine at.nodes l × DripStandsAt at l) }
{
    let Some(ends) = two_fields(text) else {
        return Err(DripFault::Verb);
    };
    if !may_link(at) {
        return Err(DripFault::Place);
    }
    match pair(at.nodes, ends) {
        Some((a, b)) => Ok(DripLine::Link { a, b }),
        None => Err(DripFault::Number),
    }
}

fn read_round(at: Standing, text: &[u8]) -> Result<DripLine, DripFault>
    ensures is { result ≡ pair_line (has_nodes at) at.nodes DripLine.Round (numbers_of_words (words_of text.now)) }
    ensures fits { IfOk result (λ l. FitsDripLine at.nodes l × DripStandsAt at l) }
{
    let Some(ends) = two_fields(text) else {
        return Err(DripFault::Verb);
    };
    if !has_nodes(at) {
        return Err(DripFault::Place);
    }
    match pair(at.nodes, ends) {
        Some((a, b)) => Ok(DripLine::Round { a, b }),
        None => Err(DripFault::Number),
    }
}

fn read_tick(at: Standing, text: &[u8]) -> Result<DripLine, DripFault>
    ensures is { result ≡ shaped (four_numbers (numbers_of_words (words_of text.now))) (has_nodes at) (drip_tick_of at.nodes) }
    ensures fits { IfOk result (λ l. FitsDripLine at.nodes l × DripStandsAt at l) }
{
    let Some(fields) = four_fields(text) else {
        return Err(DripFault::Verb);
    };
    if !has_nodes(at) {
        return Err(DripFault::Place);
    }
    match tick(at, fields) {
        Some(line) => Ok(line),
        None => Err(DripFault::Number),
    }
}

fn read_hear(at: Standing, text: &[u8]) -> Result<DripLine, DripFault>
    ensures is { result ≡ shaped (four_numbers (numbers_of_words (words_of text.now))) (has_nodes at) (drip_hear_of at.nodes) }
    ensures fits { IfOk result (λ l. FitsDripLine at.nodes l × DripStandsAt at l) }
{
    let Some(fields) = four_fields(text) else {
        return Err(DripFault::Verb);
    };
    if !has_nodes(at) {
        return Err(DripFault::Place);
    }
    match hear(at, fields) {
        Some(line) => Ok(line),
        None => Err(DripFault::Number),
    }
}

fn read_set(at: Standing, text: &[u8]) -> Result<DripLine, DripFault>
    ensures is { result ≡ shaped (five_numbers (numbers_of_words (words_of text.now))) (has_nodes at) (set_of at.nodes) }
    ensures fits { IfOk result (λ l. FitsDripLine at.nodes l × DripStandsAt at l) }
{
    let Some(fields) = five_fields(text) else {
        return Err(DripFault::Verb);
    };
    if !has_nodes(at) {
        return Err(DripFault::Place);
    }
    match set(at, fields) {
        Some(line) => Ok(line),
        None => Err(DripFault::Number),
    }
}

fn is_same(word: &[u8], other: &[u8]) -> bool
    ensures { result ≡ same word.now other.now }
{
    word == other
}

fn read_event(at: Standing, verb: &[u8], fields: &[u8]) -> Result<DripLine, DripFault>
    ensures is { result ≡ event_line at verb.now (numbers_of_words (words_of fields.now)) }
    ensures fits { IfOk result (λ l. FitsDripLine at.nodes l × DripStandsAt at l) }
{
    if is_same(verb, b"set") {
        return read_set(at, fields);
    }
    if is_same(verb, b"tick") {
        return read_tick(at, fields);
    }
    if is_same(verb, b"hear") {
        return read_hear(at, fields);
    }
    Err(DripFault::Verb)
}

fn read_verb(at: Standing, verb: &[u8], fields: &[u8]) -> Result<DripLine, DripFault>
    ensures is { result ≡ verb_line at verb.now (numbers_of_words (words_of fields.now)) }
    ensures fits { IfOk result (λ l. FitsDripLine at.nodes l × DripStandsAt at l) }
{
    if is_same(verb, b"nodes") {
        return read_nodes(at, fields);
    }
    if is_same(verb, b"link") {
        return read_link(at, fields);
    }
    if is_same(verb, b"round") {
        return read_round(at, fields);
    }
    if is_same(verb, b"sweeps") {
        return read_sweeps(at, fields);
    }
    read_event(at, verb, fields)
}

/// The line that a text spells where it stands, or its first fault.
#[tactic(auto, unfolding(crate::specs::Lines::drip_line_of))]
pub fn read_line(at: Standing, text: &[u8]) -> Result<DripLine, DripFault>
    ensures is { result ≡ drip_line_of at text.now }
    // Its nodes and keys are there, its numbers are in their ranges, and it may stand where it does.
    ensures fits { IfOk result (λ l. FitsDripLine at.nodes l × DripStandsAt at l) }
{
    if text.len() > LONGEST {
        return Err(DripFault::Long);
    }
    match next_word(text) {
        None => Ok(DripLine::Nothing),
        Some((verb, fields)) => {
            if verb.first() == Some(&b'#') {
                return Ok(DripLine::Nothing);
            }
            read_verb(at, verb, fields)
        }
    }
}
