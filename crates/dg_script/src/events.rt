//! Reads the lines of events, word by word.
ghost use Rattle.std.specs.Prelude.{◌≡◌};
ghost use Rattle.dg_script.specs.Words.{words_of};
ghost use Rattle.dg_script.specs.Lines.{tick_line_of, hear_of, last_line_of, reset_of, inject_of, order_of, frame_line_of};
ghost use Rattle.dg_script.specs.Reading.{Reads};

use crate::content::sized_content;
use crate::fault::LineFault;
use crate::fields::{any_image_number, counted, mote, number, other_mote, version};
use crate::line::Line;
use crate::place::Place;
use crate::verbs::Verb;
use crate::words::{five_words, four_words, six_words, three_words};
use dg_base::{Event, LONGEST_FRAME};
use std::alloc::Global;

/// `tick M DT DRAW`
#[tactic(auto, unfolding(crate::specs::Lines::tick_line_of))]
pub fn tick_line(fields: &[u8], place: &Place) -> Result<Line, LineFault>
    ensures { result ≡ tick_line_of place.now (words_of fields.now) }
{
    let (at, dt, word) = three_words(fields)?;
    Verb::Tick.stand(place)?;
    let mote = mote(at, place.motes)?;
    let dt = number(dt)?;
    let word = number(word)?;
    Ok(Line::Happens(Event::Tick { mote, dt, word }))
}

/// `hear M DT DRAW K`
#[tactic(auto, unfolding(crate::specs::Lines::hear_of))]
pub fn hear_line(fields: &[u8], place: &Place) -> Result<Line, LineFault>
    ensures { result ≡ hear_of place.now (words_of fields.now) }
{
    let (at, dt, word, frame) = four_words(fields)?;
    Verb::Hear.stand(place)?;
    let mote = mote(at, place.motes)?;
    let dt = number(dt)?;
    let word = number(word)?;
    let frame = counted(frame)?;
    Ok(Line::Happens(Event::Hear {
        mote,
        dt,
        word,
        frame,
    }))
}

/// `last A B DT DRAW`
#[tactic(auto, unfolding(crate::specs::Lines::last_line_of))]
pub fn last_line(fields: &[u8], place: &Place) -> Result<Line, LineFault>
    ensures { result ≡ last_line_of place.now (words_of fields.now) }
{
    let (from, to, dt, word) = four_words(fields)?;
    Verb::Last.stand(place)?;
    let from = mote(from, place.motes)?;
    let to = other_mote(to, place.motes, from)?;
    let dt = number(dt)?;
    let word = number(word)?;
    Ok(Line::Happens(Event::Last { from, to, dt, word }))
}

/// `reset M DT DRAW`
#[tactic(auto, unfolding(crate::specs::Lines::reset_of))]
pub fn reset_line(fields: &[u8], place: &Place) -> Result<Line, LineFault>
    ensures { result ≡ reset_of place.now (words_of fields.now) }
{
    let (at, dt, word) = three_words(fields)?;
    Verb::Reset.stand(place)?;
    let mote = mote(at, place.motes)?;
    let dt = number(dt)?;
    let word = number(word)?;
    Ok(Line::Happens(Event::Reset { mote, dt, word }))
}

/// `inject M I V DT DRAW`
#[tactic(auto, unfolding(crate::specs::Lines::inject_of))]
pub fn inject_line(fields: &[u8], place: &Place) -> Result<Line, LineFault>
    ensures { result ≡ inject_of place.now (words_of fields.now) }
{
    let (at, image, number_of_version, dt, word) = five_words(fields)?;
    Verb::Inject.stand(place)?;
    let mote = mote(at, place.motes)?;
    let image = any_image_number(image)?;
    let version = version(number_of_version)?;
    let dt = number(dt)?;
    let word = number(word)?;
    Ok(Line::Happens(Event::Inject {
        mote,
        image,
        version,
        dt,
        word,
    }))
}

/// `order M K I V DT DRAW`
#[tactic(auto, unfolding(crate::specs::Lines::order_of))]
pub fn order_line(fields: &[u8], place: &Place) -> Result<Line, LineFault>
    ensures { result ≡ order_of place.now (words_of fields.now) }
{
    let (at, order, image, number_of_version, dt, word) = six_words(fields)?;
    Verb::Order.stand(place)?;
    let mote = mote(at, place.motes)?;
    let order = version(order)?;
    let image = any_image_number(image)?;
    let version = version(number_of_version)?;
    let dt = number(dt)?;
    let word = number(word)?;
    Ok(Line::Happens(Event::Order {
        mote,
        number: order,
        image,
        version,
        dt,
        word,
    }))
}

/// `frame M DT DRAW CONTENT`
#[tactic(auto, unfolding(crate::specs::Lines::frame_line_of))]
pub fn frame_line(alloc: Global, fields: &[u8], place: &Place) -> Result<Line, LineFault>
    ensures { Reads result (frame_line_of place.now (words_of fields.now)) }
{
    let (at, dt, word, content) = four_words(fields)?;
    Verb::Frame.stand(place)?;
    let mote = mote(at, place.motes)?;
    let dt = number(dt)?;
    let word = number(word)?;
    let bytes = sized_content(alloc, content, 0, LONGEST_FRAME)?;
    Ok(Line::Happens(Event::Frame {
        mote,
        dt,
        word,
        bytes,
    }))
}
