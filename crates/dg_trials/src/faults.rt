//! What each line of a script says at each place, and its first fault: `long`, `verb`, `few`, `many`, `place` and `cut`
//! in this order, and then the faults of its fields from left to right.
ghost use Rattle.std.specs.Prelude.{◌≤◌, ◌≡◌, true, IfOk};
ghost use Rattle.dg_script.specs.Sizes.{most_motes};
ghost use Rattle.dg_script.specs.Spelling.{IsShort};

use crate::fault_lines::{
    BEHIND_ROUND_LINES, CUT, CUT_LINES, ENDS, EVENTS, EVENTS_CUT, EVENTS_CUT_LINES, EVENTS_LINES,
    FIRST, FIRST_LINES, LATER, LATER_LINES, LINKED, LONG_LINES, NARROW_LINES, NARROWED,
    RADIO_LINES, ROUND, ROUND_LINES, SECOND, SECOND_LINES, SWEEP,
};
use dg_base::{MOST_MOTES, next_line};
use dg_lines::write_line;
use dg_script::{Line, LineFault, MOST_WRITTEN, Place, read_line};
use std::alloc::Global;
use std::test::Fail;

/// Whether a line is short enough to be written.
fn is_short(line: &Line) -> bool
    ensures { result ≡ true → IsShort line.now }
{
    match line {
        Line::Image { content, .. } => content.as_slice().len() <= MOST_WRITTEN,
        _ => true,
    }
}

/// What a text says at a place: the line without its end, `big` where it is not written, or the name of its fault.
fn said_at(alloc: Global, place: &Place, text: &[u8]) -> Result<Vec<u8>, Fail>
    requires { place.now.motes ≤ most_motes }
{
    let mut said = Vec::new(alloc);
    match read_line(alloc, text, place) {
        Err(fault) => said.extend_from_slice(fault.name().as_bytes())?,
        Ok(line) => {
            if is_short(&line) {
                write_line(&line, &mut said)?;
                let _ = said.pop();
            } else {
                said.extend_from_slice(b"big")?;
            }
        }
    }
    Ok(said)
}

/// The place after some lines.
fn place_behind(alloc: Global, lines: &[&str]) -> Result<Place, Fail>
    ensures { IfOk result (λ place. place.motes ≤ most_motes) }
{
    let mut place = Place::first(alloc);
    for text in lines {
        let line = read_line(alloc, text.as_bytes(), &place)?;
        place.pass(line)?;
    }
    if place.motes > MOST_MOTES {
        return Err("there are too many motes".into());
    }
    Ok(place)
}

#[test]
fn lines_say_what_they_spell_at_their_place(rt: HostRuntime) -> Result<(), Fail> {
    let tables: [(&[&str], Option<LineFault>, &[(&str, &str)]); 11] = [
        (&FIRST, Some(LineFault::Place), &FIRST_LINES),
        (&SECOND, Some(LineFault::Place), &SECOND_LINES),
        (&LATER, None, &LATER_LINES),
        (&LINKED, None, &RADIO_LINES),
        (&NARROWED, None, &NARROW_LINES),
        (&LATER, None, &ROUND_LINES),
        (&ROUND, None, &BEHIND_ROUND_LINES),
        (&SWEEP, None, &BEHIND_ROUND_LINES),
        (&EVENTS, None, &EVENTS_LINES),
        (&CUT, Some(LineFault::Cut), &CUT_LINES),
        (&EVENTS_CUT, Some(LineFault::Cut), &EVENTS_CUT_LINES),
    ];
    for (behind, at_end, lines) in tables {
        let place = place_behind(rt.alloc(), behind)?;
        assert_eq!(rt; place.end_fault(), at_end, "behind {behind:?}");
        for (text, wanted) in lines {
            let said = said_at(rt.alloc(), &place, text.as_bytes())?;
            assert!(rt;
                said.as_slice() == wanted.as_bytes(),
                "{text} behind {behind:?}"
            );
        }
    }
    Ok(())
}

#[test]
fn lines_end_with_lf_or_crlf_or_the_input(rt: HostRuntime) -> Result<(), Fail> {
    let first = place_behind(rt.alloc(), &FIRST)?;
    for (input, wanted) in ENDS {
        let (end, _) = next_line(input.as_bytes(), 0);
        let said = said_at(rt.alloc(), &first, &input.as_bytes()[..end])?;
        assert!(rt; said.as_slice() == wanted.as_bytes(), "{input:?}");
    }
    Ok(())
}

#[test]
fn long_lines_are_read_up_to_their_limits(rt: HostRuntime) -> Result<(), Fail> {
    for (behind, front, byte, count, wanted) in LONG_LINES {
        let place = place_behind(rt.alloc(), behind)?;
        let mut text = Vec::from_slice(rt.alloc(), front.as_bytes())?;
        text.extend_from_slice(&vec![in rt.alloc(); byte; count]?)?;
        let said = said_at(rt.alloc(), &place, &text)?;
        let wanted = match wanted {
            Some(wanted) => wanted.as_bytes(),
            None => text.as_slice(),
        };
        assert!(rt; said.as_slice() == wanted, "{front} {count}");
    }
    Ok(())
}
