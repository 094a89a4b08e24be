//! The most common lines, `tick` and `last`, whose fields are all numbers: they are parsed in place, in one pass over the text.
ghost use Rattle.std.specs.Prelude.{◌≡◌, ◌≤◌, Ok, IfSome, length, take, slice_index};
ghost use Rattle.std.specs.Bool.{OnTrue};
ghost use Rattle.dg_script.specs.Words.{words_of};
ghost use Rattle.dg_script.specs.Lines.{tick_line_of, last_line_of, line_of};
ghost use Rattle.dg_script.specs.declared.line.Line.TheVariants.{Happens as EventLine};

use crate::fields::{mote_with, other_with};
use crate::numbers::{four_numbers, three_numbers};
use crate::place::Place;
use crate::sizes::LONGEST;
use crate::verbs::Verb;
use dg_base::Event;

/// The letters of either verb.
const LETTERS: usize = 4;

// Whether a text begins with these letters. They are compared at once.
#[inline(always)]
fn begins_with(text: &[u8], letters: [u8; 4]) -> bool
    requires { 4 ≤ length text.now }
    ensures { OnTrue result (take 4 text.now ≡ letters) }
{
    u32::from_le_bytes([text[0], text[1], text[2], text[3]]) == u32::from_le_bytes(letters)
}

// `tick M DT DRAW`, from the space before M on
#[inline(always)]
fn plain_tick(fields: &[u8], place: &Place) -> Option<Event>
    ensures space { IfSome result (λ event. slice_index fields.now 0 ≡ 32) }
    ensures event { IfSome result (λ event. tick_line_of place.now (words_of fields.now) ≡ Ok (EventLine event)) }
{
    let (at, dt, word) = three_numbers(fields)?;
    if Verb::Tick.stand(place).is_err() {
        return None;
    }
    match mote_with(at, place.motes) {
        Ok(mote) => Some(Event::Tick { mote, dt, word }),
        Err(_) => None,
    }
}

// `last A B DT DRAW`, from the space before A on
#[inline(always)]
fn plain_last(fields: &[u8], place: &Place) -> Option<Event>
    ensures space { IfSome result (λ event. slice_index fields.now 0 ≡ 32) }
    ensures event { IfSome result (λ event. last_line_of place.now (words_of fields.now) ≡ Ok (EventLine event)) }
{
    let (first, second, dt, word) = four_numbers(fields)?;
    if Verb::Last.stand(place).is_err() {
        return None;
    }
    match mote_with(first, place.motes) {
        Ok(from) => match other_with(second, place.motes, from) {
            Ok(to) => Some(Event::Last { from, to, dt, word }),
            Err(_) => None,
        },
        Err(_) => None,
    }
}

/// The event of a line that is `tick` or `last` with numbers of at most nine digits, each after one space. None at anything
/// unusual, also where such a line may not stand: then [`read_line`](crate::read_line) reads the line, or tells its fault.
#[inline(always)]
pub fn plain_event(text: &[u8], place: &Place) -> Option<Event>
    ensures { IfSome result (λ event. line_of place.now text.now ≡ Ok (EventLine event)) }
{
    if text.len() < LETTERS || text.len() > LONGEST {
        return None;
    }
    let (_, fields) = text.split_at(LETTERS);
    if begins_with(text, *b"tick") {
        return plain_tick(fields, place);
    }
    if begins_with(text, *b"last") {
        return plain_last(fields, place);
    }
    None
}
