//! Writes the lines of a report.
ghost use Rattle.std.specs.Prelude.{◌≡◌, ◌++◌, OnOk};
ghost use Rattle.dg_drip_script.specs.Reports.{cause_word, entry_line, drip_report_line};
ghost use Rattle.dg_drip_replay.specs.declared.report.DripReport.TheVariants.{Refused};

use dg_drip::Entry;
use dg_drip_replay::{DripCause, DripReport};
use dg_end::{push_line, push_words};
use std::alloc::AllocError;

fn cause_word<'a>(cause: DripCause) -> &'a [u8]
    ensures { result.now ≡ cause_word cause }
{
    match cause {
        DripCause::Last => b"last",
        DripCause::Frame => b"frame",
        DripCause::Link => b"link",
    }
}

fn push_refused(out: &mut Vec<u8>, node: u8, cause: DripCause) -> Result<(), AllocError>
    ensures { OnOk result (out.new.items ≡ out.old.items ++ drip_report_line (Refused node cause)) }
{
    push_words(out, b"no", &[u32::from(node)])?;
    out.push(b' ')?;
    out.extend_from_slice(cause_word(cause))?;
    out.push(b'\n')?;
    Ok(())
}

/// Appends a word, a node, a key and its entry.
pub fn push_entry(
    out: &mut Vec<u8>,
    word: &[u8],
    node: u8,
    key: u8,
    entry: Entry,
) -> Result<(), AllocError>
    ensures { OnOk result (out.new.items ≡ out.old.items ++ entry_line word.now node key entry) }
{
    let values = [u32::from(node), u32::from(key), entry.number, entry.value];
    push_line(out, word, &values)
}

/// Appends the line of an end.
pub fn push_end(out: &mut Vec<u8>, events: u32) -> Result<(), AllocError>
    ensures { OnOk result (out.new.items ≡ out.old.items ++ drip_report_line (DripReport.End events)) }
{
    push_line(out, b"end", &[events])
}

/// Appends a line of a report.
pub fn push_report(out: &mut Vec<u8>, report: &DripReport) -> Result<(), AllocError>
    ensures { OnOk result (out.new.items ≡ out.old.items ++ drip_report_line report.now) }
{
    match *report {
        DripReport::Refused { node, cause } => push_refused(out, node, cause),
        DripReport::Sent { node, key, entry } => push_entry(out, b"sent", node, key, entry),
        DripReport::Got { node, key, entry } => push_entry(out, b"got", node, key, entry),
        DripReport::End { events } => push_end(out, events),
        DripReport::Value { node, key, entry } => push_entry(out, b"value", node, key, entry),
    }
}
