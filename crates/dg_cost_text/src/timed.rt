//! A report with the event and the moment of each line.

ghost use Rattle.std.specs.Prelude.{◌≡◌, ◌++◌, ℕ, List, OnOk, IfOk};
ghost use Rattle.dg_cost_text.specs.Timed.{stamp_text, stamped, stamped_text, IsStamp, IsStampedReport};

use crate::csv::push_u64;
use crate::moment::{Moment, Stamp};
use std::alloc::{AllocError, Global};

/// The stamp of the next line: that of its event, and after the last stamp that of the end.
#[derive(Drop)]
struct Stamps<'a> {
    stamps: &'a [Stamp],
    place: usize,
    used: usize,
    /// That of the current line.
    at: Moment,
    end: Moment,
}

impl Stamps<'_> {
    /// Moves to the next line.
    fn go_on(&mut self) {
        for _ in 0..self.stamps.len() {
            let Some(stamp) = self.stamps.get(self.place) else {
                break;
            };
            if self.used < stamp.lines {
                self.used = self.used.saturating_add(1);
                self.at = stamp.at;
                return;
            }
            self.place = self.place.saturating_add(1);
            self.used = 0;
        }
        self.at = self.end;
    }
}

/// Appends a stamp.
fn push_stamp(text: &mut Vec<u8>, at: Moment) -> Result<(), AllocError>
    ensures { OnOk result (text.new.items ≡ text.old.items ++ stamp_text at.event at.ms) }
{
    text.push(b'@')?;
    push_u64(text, at.event)?;
    text.push(b' ')?;
    push_u64(text, at.ms)?;
    text.push(b' ')?;
    Ok(())
}

/// Appends a byte of a report, after a stamp where it begins a line.
fn push_byte(text: &mut Vec<u8>, begins: bool, at: Moment, byte: u8) -> Result<(), AllocError>
    ensures { OnOk result ((stamp : List ℕ) × IsStamp (stamped stamp byte)
        × (text.new.items ≡ text.old.items ++ stamped_text (stamped stamp byte))) }
{
    if begins {
        push_stamp(text, at)?;
    }
    text.push(byte)?;
    Ok(())
}

/// The report, each line after the event and the moment at which it was written.
pub fn timed_text(
    alloc: Global,
    report: &[u8],
    stamps: &[Stamp],
    end: Moment,
) -> Result<Vec<u8>, AllocError>
    ensures { IfOk result (λ text. IsStampedReport report.now text.items) }
{
    let mut text = Vec::new(alloc);
    let mut stamps = Stamps {
        stamps,
        place: 0,
        used: 0,
        at: end,
        end,
    };
    let mut begins = true;
    for byte in report {
        if begins {
            stamps.go_on();
        }
        push_byte(&mut text, begins, stamps.at, *byte)?;
        begins = *byte == b'\n';
    }
    Ok(text)
}
