//! Reads the lines that are not events.
ghost use Rattle.std.specs.Prelude.{◌≡◌};
ghost use Rattle.dg_script.specs.Words.{words_of};
ghost use Rattle.dg_script.specs.Lines.{motes_of, golden_of, boards_of, link_of, narrow_of, image_of, cut_of, round_of};
ghost use Rattle.dg_script.specs.Lines.{sweeps_of};
ghost use Rattle.dg_script.specs.Reading.{Reads};

use crate::content::{mask, name, sized_content};
use crate::fault::LineFault;
use crate::fields::{counted, image_number, mote, motes, other_mote, sweeps, used, version};
use crate::line::Line;
use crate::place::Place;
use crate::verbs::Verb;
use crate::words::{four_words, next_word, one_word, three_words, two_words};
use dg_base::{Cut, MOST_CONTENT};
use dg_object::MOST_BYTES;
use std::alloc::Global;

/// `motes N`
#[tactic(auto, unfolding(crate::specs::Lines::motes_of))]
pub fn motes_line(fields: &[u8], place: &Place) -> Result<Line, LineFault>
    ensures { result ≡ motes_of place.now (words_of fields.now) }
{
    let word = one_word(fields)?;
    Verb::Motes.stand(place)?;
    let motes = motes(word)?;
    Ok(Line::Motes(motes))
}

/// `golden NAME USED CONTENT`
#[tactic(auto, unfolding(crate::specs::Lines::golden_of))]
pub fn golden_line(alloc: Global, fields: &[u8], place: &Place) -> Result<Line, LineFault>
    ensures { Reads result (golden_of place.now (words_of fields.now)) }
{
    let (called, spent, word) = three_words(fields)?;
    Verb::Golden.stand(place)?;
    let name = name(alloc, called)?;
    let used = used(spent)?;
    let content = sized_content(alloc, word, 1, MOST_BYTES)?;
    Ok(Line::Golden {
        name,
        used,
        content,
    })
}

/// `boards`
#[tactic(auto, unfolding(crate::specs::Lines::boards_of))]
pub fn boards_line(fields: &[u8], place: &Place) -> Result<Line, LineFault>
    ensures { result ≡ boards_of place.now (words_of fields.now) }
{
    if next_word(fields).is_some() {
        return Err(LineFault::Many);
    }
    Verb::Boards.stand(place)?;
    Ok(Line::Boards)
}

/// `link A B`
#[tactic(auto, unfolding(crate::specs::Lines::link_of))]
pub fn link_line(fields: &[u8], place: &Place) -> Result<Line, LineFault>
    ensures { result ≡ link_of place.now (words_of fields.now) }
{
    let (first, second) = two_words(fields)?;
    Verb::Link.stand(place)?;
    let a = mote(first, place.motes)?;
    let b = other_mote(second, place.motes, a)?;
    if place.is_linked(a, b) {
        return Err(LineFault::Place);
    }
    Ok(Line::Link(a, b))
}

/// `narrow M`
#[tactic(auto, unfolding(crate::specs::Lines::narrow_of))]
pub fn narrow_line(fields: &[u8], place: &Place) -> Result<Line, LineFault>
    ensures { result ≡ narrow_of place.now (words_of fields.now) }
{
    let word = one_word(fields)?;
    Verb::Narrow.stand(place)?;
    let mote = mote(word, place.motes)?;
    if place.is_narrow(mote) {
        return Err(LineFault::Place);
    }
    Ok(Line::Narrow(mote))
}

/// `image I V NAME CONTENT`
#[tactic(auto, unfolding(crate::specs::Lines::image_of))]
pub fn image_line(alloc: Global, fields: &[u8], place: &Place) -> Result<Line, LineFault>
    ensures { Reads result (image_of place.now (words_of fields.now)) }
{
    let (image, number_of_version, called, word) = four_words(fields)?;
    Verb::Image.stand(place)?;
    let image = image_number(image)?;
    let version = version(number_of_version)?;
    let name = name(alloc, called)?;
    let content = sized_content(alloc, word, 0, MOST_CONTENT)?;
    Ok(Line::Image {
        image,
        version,
        name,
        content,
    })
}

/// `cut AT MASK`
#[tactic(auto, unfolding(crate::specs::Lines::cut_of))]
pub fn cut_line(alloc: Global, fields: &[u8], place: &Place) -> Result<Line, LineFault>
    ensures { Reads result (cut_of place.now (words_of fields.now)) }
{
    let (operation, word) = two_words(fields)?;
    Verb::Cut.stand(place)?;
    let after = counted(operation)?;
    let mask = mask(alloc, word)?;
    Ok(Line::Cut(Cut { after, mask }))
}

/// `round A B`
#[tactic(auto, unfolding(crate::specs::Lines::round_of))]
pub fn round_line(fields: &[u8], place: &Place) -> Result<Line, LineFault>
    ensures { result ≡ round_of place.now (words_of fields.now) }
{
    let (first, second) = two_words(fields)?;
    Verb::Round.stand(place)?;
    let a = mote(first, place.motes)?;
    let b = other_mote(second, place.motes, a)?;
    Ok(Line::Round(a, b))
}

/// `sweeps N`
#[tactic(auto, unfolding(crate::specs::Lines::sweeps_of))]
pub fn sweeps_line(fields: &[u8], place: &Place) -> Result<Line, LineFault>
    ensures { result ≡ sweeps_of place.now (words_of fields.now) }
{
    let word = one_word(fields)?;
    Verb::Sweeps.stand(place)?;
    let number = sweeps(word)?;
    Ok(Line::Sweeps(number))
}
