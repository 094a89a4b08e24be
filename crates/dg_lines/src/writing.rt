//! Writes the lines of scripts.
ghost use Rattle.std.specs.Prelude.{◌≡◌, ◌∷◌, ◌++◌, [], Ok, ◌≤◌, length, OnOk, OnErr};
ghost use Rattle.dg_script.specs.Sizes.{most_motes};
ghost use Rattle.dg_script.specs.Lines.{line_of};
ghost use Rattle.dg_script.specs.Fitting.{FitsLine, FitsEvent, StandsAt, IsPlayed, IsPlayedEvent};
ghost use Rattle.dg_lines.specs.Fields.{IsPrefixOf};
ghost use Rattle.dg_script.specs.Spelling.{line_text, IsShort};
ghost use Rattle.dg_script.specs.declared.line.Line.TheVariants.{Happens as EventLine};
ghost use Rattle.dg_script.specs.declared.place.Place.{Place};

use crate::spelling::Field::{Content, Digits, Number, Small, Word};
use crate::spelling::{push_line, push_line_of};
use dg_base::Event;
use dg_script::Line;
use std::alloc::AllocError;

/// Appends the line of an event and LF, with the bytes of a frame as hex digits. If memory runs out, a prefix of these was
/// appended.
///
/// The fields of the event are in the ranges of some script. Then the text is read back as the event's line, wherever such a line
/// may stand and is played.
#[tactic(auto, using(crate::proofs::ReadsBackLemmas::event_reads), unfolding(dg_script::specs::Spelling::line_text))]
pub fn write_event(event: &Event, out: &mut Vec<u8>) -> Result<(), AllocError>
    requires { FitsEvent most_motes event.now }
    ensures ok { OnOk result (out.new.items ≡ out.old.items ++ (line_text (EventLine event.now) ++ 10 ∷ [])) }
    ensures err { OnErr result (IsPrefixOf out.new.items (out.old.items ++ (line_text (EventLine event.now) ++ 10 ∷ []))) }
    ensures kept { length out.old.items ≤ length out.new.items }
    ensures reads_back { (place : Place) → StandsAt place (EventLine event.now) → FitsEvent place.motes event.now
        → IsPlayedEvent event.now → line_of place (line_text (EventLine event.now)) ≡ Ok (EventLine event.now) }
{
    push_line_of! { out, event;
        Event::Tick { mote, dt, word } => b"tick", Small(*mote), Number(*dt), Number(*word);
        Event::Hear { mote, dt, word, frame } => b"hear",
            Small(*mote), Number(*dt), Number(*word), Number(*frame);
        Event::Last { from, to, dt, word } => b"last",
            Small(*from), Small(*to), Number(*dt), Number(*word);
        Event::Reset { mote, dt, word } => b"reset", Small(*mote), Number(*dt), Number(*word);
        Event::Inject { mote, image, version, dt, word } => b"inject",
            Small(*mote), Small(*image), Number(*version), Number(*dt), Number(*word);
        Event::Order { mote, number, image, version, dt, word } => b"order",
            Small(*mote), Number(*number), Small(*image), Number(*version), Number(*dt), Number(*word);
        Event::Frame { mote, dt, word, bytes } => b"frame",
            Small(*mote), Number(*dt), Number(*word), Content(bytes.as_slice());
    }
}

/// Appends a line and LF, with its contents as hex digits. If memory runs out, a prefix of these was appended.
///
/// The fields of the line are in the ranges of some script, and its content has at most 149,000 bytes.
/// Then the text is read back as the same line, wherever such a line may stand and is played.
#[tactic(auto, using(crate::proofs::ReadsBackLemmas::line_reads), unfolding(dg_script::specs::Spelling::line_text))]
pub fn write_line(line: &Line, out: &mut Vec<u8>) -> Result<(), AllocError>
    requires fits { FitsLine most_motes line.now }
    requires short { IsShort line.now }
    ensures ok { OnOk result (out.new.items ≡ out.old.items ++ (line_text line.now ++ 10 ∷ [])) }
    ensures err { OnErr result (IsPrefixOf out.new.items (out.old.items ++ (line_text line.now ++ 10 ∷ []))) }
    ensures kept { length out.old.items ≤ length out.new.items }
    ensures reads_back { (place : Place) → StandsAt place line.now → FitsLine place.motes line.now → IsPlayed line.now
        → line_of place (line_text line.now) ≡ Ok line.now }
{
    push_line_of! { out, line, Line::Happens(event) => write_event(event, out);
        Line::Nothing => b"";
        Line::Motes(motes) => b"motes", Small(*motes);
        Line::Golden { name, used, content } => b"golden",
            Word(name.as_slice()), Number(*used), Content(content.as_slice());
        Line::Boards => b"boards";
        Line::Link(a, b) => b"link", Small(*a), Small(*b);
        Line::Narrow(mote) => b"narrow", Small(*mote);
        Line::Image { image, version, name, content } => b"image",
            Small(*image), Number(*version), Word(name.as_slice()), Content(content.as_slice());
        Line::Cut(cut) => b"cut", Number(cut.after), Digits(cut.mask.as_slice());
        Line::Round(a, b) => b"round", Small(*a), Small(*b);
        Line::Sweeps(number) => b"sweeps", Number(*number);
    }
}
