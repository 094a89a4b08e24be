//! Reads the lines of scripts.
ghost use Rattle.std.specs.Prelude.{◌≡◌, IfOk};
ghost use Rattle.dg_script.specs.Words.{words_of};
ghost use Rattle.dg_script.specs.Lines.{played_verb, fields_of, line_of};
ghost use Rattle.dg_script.specs.Fitting.{FitsLine, StandsAt, IsPlayed};
ghost use Rattle.dg_script.specs.Reading.{Reads};

use crate::events::{
    frame_line, hear_line, inject_line, last_line, order_line, reset_line, tick_line,
};
use crate::fault::LineFault;
use crate::line::Line;
use crate::place::Place;
use crate::settings::{
    boards_line, cut_line, golden_line, image_line, link_line, motes_line, narrow_line, round_line,
    sweeps_line,
};
use crate::sizes::LONGEST;
use crate::verbs::Verb;
use crate::words::next_word;
use std::alloc::Global;

// The verb of a word.
#[tactic(auto, unfolding(crate::specs::Lines::played_verb))]
fn played_verb(word: &[u8]) -> Result<Verb, LineFault>
    ensures { result ≡ played_verb word.now }
{
    match Verb::of(word) {
        Some(verb) => Ok(verb),
        None => Err(LineFault::Verb),
    }
}

// The line of a verb and the text after it.
fn verb_line(alloc: Global, verb: Verb, fields: &[u8], place: &Place) -> Result<Line, LineFault>
    ensures { Reads result (fields_of verb place.now (words_of fields.now)) }
{
    match verb {
        Verb::Motes => motes_line(fields, place),
        Verb::Golden => golden_line(alloc, fields, place),
        Verb::Boards => boards_line(fields, place),
        Verb::Link => link_line(fields, place),
        Verb::Narrow => narrow_line(fields, place),
        Verb::Image => image_line(alloc, fields, place),
        Verb::Tick => tick_line(fields, place),
        Verb::Hear => hear_line(fields, place),
        Verb::Last => last_line(fields, place),
        Verb::Reset => reset_line(fields, place),
        Verb::Inject => inject_line(fields, place),
        Verb::Order => order_line(fields, place),
        Verb::Frame => frame_line(alloc, fields, place),
        Verb::Cut => cut_line(alloc, fields, place),
        Verb::Round => round_line(fields, place),
        Verb::Sweeps => sweeps_line(fields, place),
    }
}

/// Reads the text of a line that stands at `place`. The text is without its line end.
///
/// The result is what the text says, or its first fault. Only running out of memory replaces these.
#[tactic(auto, unfolding(crate::specs::Lines::line_of))]
pub fn read_line(alloc: Global, text: &[u8], place: &Place) -> Result<Line, LineFault>
    ensures read { Reads result (line_of place.now text.now) }

    // What is read may stand there, its fields are in their ranges, and it is one of the lines that are played.
    ensures stands { IfOk result (StandsAt place.now) }
    ensures fits { IfOk result (FitsLine place.now.motes) }
    ensures played { IfOk result IsPlayed }
{
    if text.len() > LONGEST {
        return Err(LineFault::Long);
    }
    match next_word(text) {
        None => Ok(Line::Nothing),
        Some((word, fields)) => {
            if word.first() == Some(&b'#') {
                return Ok(Line::Nothing);
            }
            let verb = played_verb(word)?;
            verb_line(alloc, verb, fields, place)
        }
    }
}
