//! The last line of a command, and its status.
ghost use Rattle.std.specs.Prelude.{◌≡◌, ◌≢◌, ◌≤◌, ◌++◌, ◌∷◌, ℕ, List, [], Some, OnOk, IfOk, IfErr, codes};
ghost use Rattle.dg_outside.specs.Outside.{output_of};
ghost use Rattle.dg_ihex.specs.Causes.{cause_text};
ghost use Rattle.dg_netcfg.specs.Faults.{profile_fault_text};
ghost use Rattle.dg_end.specs.Texts.{numbers, line};
ghost use Rattle.dg_end.specs.Lines.{refusal_text, bad_line, status_of, last_line, HasFixedLine, text_outcome};
ghost use Rattle.dg_end.specs.Writes.{WritesLast, WritesAnswer, WritesEnd};
ghost use Rattle.dg_end.specs.declared.refusal.Refusal.TheVariants as refusals;

use crate::text::{line_of, push_numbers, push_words};
use crate::{End, Refusal};
use dg_base::{Sink, Status, WriteFailed, push_hex};
use dg_ihex::HexFileFault;
use dg_netcfg::ProfileFault;
use std::alloc::{AllocError, Global};

/// Appends a cause, and its value.
fn push_refusal(alloc: Global, text: &mut Vec<u8>, cause: Refusal) -> Result<(), AllocError>
    ensures { OnOk result (text.new.items ≡ text.old.items ++ refusal_text cause) }
{
    match cause {
        Refusal::Empty => push_words(text, b"empty", &[]),
        Refusal::TooLarge { length } => push_too_large(alloc, text, length),
        Refusal::Reserved => push_words(text, b"reserved", &[]),
        Refusal::Stale { version } => push_words(text, b"stale", &[version]),
        Refusal::Taken => push_words(text, b"taken", &[]),
        Refusal::Worn { room } => push_words(text, b"worn", &[room]),
        Refusal::OldOrder { number } => push_words(text, b"oldorder", &[number]),
        Refusal::Absent => push_words(text, b"none", &[]),
        Refusal::NotWhole { done, pages } => {
            push_words(text, b"notwhole", &[u32::from(done), u32::from(pages)])
        }
        Refusal::Broken { page, kept, found } => push_broken(text, page, &kept, &found),
        Refusal::Shape => push_words(text, b"shape", &[]),
        Refusal::Foreign { page } => push_words(text, b"foreign", &[u32::from(page)]),
    }
}

/// Appends that a page is broken, with the digest that is kept of it and the one that it has.
fn push_broken(
    text: &mut Vec<u8>,
    page: u8,
    kept: &[u8; 32],
    found: &[u8; 32],
) -> Result<(), AllocError>
    ensures { OnOk result (text.new.items ≡ text.old.items ++ refusal_text (refusals.Broken page kept.now found.now)) }
{
    push_words(text, b"broken", &[u32::from(page)])?;
    text.push(b' ')?;
    push_hex(text, kept.as_slice())?;
    text.push(b' ')?;
    push_hex(text, found.as_slice())?;
    Ok(())
}

/// Appends that an image has too many bytes.
fn push_too_large(alloc: Global, text: &mut Vec<u8>, length: usize) -> Result<(), AllocError>
    ensures { OnOk result (text.new.items ≡ text.old.items ++ refusal_text (refusals.TooLarge length)) }
{
    let cause = format!(in alloc; "toolarge {length}")?;
    text.extend_from_slice(cause.as_bytes())?;
    Ok(())
}

/// The line of a refusal.
fn line_of_refusal(alloc: Global, cause: Refusal) -> Result<Vec<u8>, AllocError>
    ensures { IfOk result (λ text. text.items ≡ line (codes "refused " ++ refusal_text cause)) }
{
    let mut text = Vec::new(alloc);
    text.extend_from_slice(b"refused ")?;
    push_refusal(alloc, &mut text, cause)?;
    text.push(b'\n')?;
    Ok(text)
}

/// The last line for a line that is outside its grammar.
fn line_of_bad_line(alloc: Global, number: u32, cause: &str) -> Result<Vec<u8>, AllocError>
    ensures { IfOk result (λ text. text.items ≡ bad_line number cause.now) }
{
    let mut text = Vec::new(alloc);
    text.extend_from_slice(b"line")?;
    push_numbers(&mut text, &[number])?;
    text.push(b' ')?;
    text.extend_from_slice(cause.as_bytes())?;
    text.push(b'\n')?;
    Ok(text)
}

/// The line of an input that is not a HEX file.
fn line_of_hex_fault(alloc: Global, fault: HexFileFault) -> Result<Vec<u8>, AllocError>
    ensures { IfOk result (λ text. text.items ≡ bad_line fault.line (cause_text fault.cause)) }
{
    let cause = format!(in alloc; "{}", fault.cause)?;
    let mut text = Vec::new(alloc);
    text.extend_from_slice(b"line")?;
    push_numbers(&mut text, &[fault.line])?;
    text.push(b' ')?;
    text.extend_from_slice(cause.as_bytes())?;
    text.push(b'\n')?;
    Ok(text)
}

/// The line of an input that is not a network profile.
fn line_of_profile_fault(alloc: Global, fault: ProfileFault) -> Result<Vec<u8>, AllocError>
    ensures { IfOk result (λ text. text.items ≡ line (codes "profile " ++ profile_fault_text fault)) }
{
    let cause = format!(in alloc; "{}", fault)?;
    let mut text = Vec::new(alloc);
    text.extend_from_slice(b"profile ")?;
    text.extend_from_slice(cause.as_bytes())?;
    text.push(b'\n')?;
    Ok(text)
}

/// Writes a line that there is, and ends with this status.
fn write_last<K: Sink>(out: &mut K, line: &[u8], status: Status) -> Status
    ensures ends { WritesLast result status (Some line.now) (output_of (K.Sink, out.old))
        (output_of (K.Sink, out.new)) }
    ensures room { status ≢ Status.Memory → result ≢ Status.Memory }
    ensures counts { K.faults out.old ≤ K.faults out.new }
{
    match out.write(line) {
        Ok(()) => status,
        Err(WriteFailed) => Status::WriteFault,
    }
}

/// Writes a line, unless memory ran out for it, and ends with this status.
fn write_made<K: Sink>(out: &mut K, made: Result<Vec<u8>, AllocError>, status: Status) -> Status
    ensures ends { (text : List ℕ) → IfOk made (λ l. l.items ≡ text)
        → WritesLast result status (Some text) (output_of (K.Sink, out.old)) (output_of (K.Sink, out.new)) }
    ensures counts { K.faults out.old ≤ K.faults out.new }
{
    match made {
        Ok(line) => write_last(out, &line, status),
        Err(AllocError) => Status::Memory,
    }
}

/// Ends a command that does not do what it was asked: writes the last line, where there is one, and gives the status. One
/// write at most.
pub fn fail<K: Sink>(alloc: Global, out: &mut K, end: End) -> Status
    ensures ends { WritesLast result (status_of end) (last_line end)
        (output_of (K.Sink, out.old)) (output_of (K.Sink, out.new)) }
    ensures room { HasFixedLine end → result ≢ Status.Memory }
    ensures counts { K.faults out.old ≤ K.faults out.new }
{
    match end {
        End::Memory => Status::Memory,
        End::ReadFault => Status::ReadFault,
        End::WriteFault => Status::WriteFault,
        End::FlashFault => Status::FlashFault,
        End::LinkFault => Status::LinkFault,
        End::NotAVolume => write_last(out, b"notavolume\n", Status::NotAVolume),
        End::NoImage => write_last(out, b"noimage\n", Status::NoImage),
        End::TooLong => write_last(out, b"toolong\n", Status::TooLong),
        End::TooMany => write_last(out, b"toomany\n", Status::TooMany),
        End::NoBoard { need, have } => {
            let line = line_of(alloc, b"noboard", &[u32::from(need), have]);
            write_made(out, line, Status::NoBoard)
        }
        End::BadHex(fault) => write_made(out, line_of_hex_fault(alloc, fault), Status::BadInput),
        End::BadLine { line, fault } => {
            write_made(
                out,
                line_of_bad_line(alloc, line, fault.name()),
                Status::BadInput,
            )
        }
        End::BadProfile(fault) => {
            write_made(out, line_of_profile_fault(alloc, fault), Status::BadInput)
        }
        End::Refused(cause) => write_made(out, line_of_refusal(alloc, cause), Status::Refused),
    }
}

/// Ends a command that wrote its answer before. One write at most.
pub fn finish<K: Sink>(alloc: Global, out: &mut K, outcome: Result<(), End>) -> Status
    ensures ends { WritesEnd result outcome (output_of (K.Sink, out.old))
        (output_of (K.Sink, out.new)) }
    ensures room { IfErr outcome (λ end. HasFixedLine end → result ≢ Status.Memory) }
    ensures counts { K.faults out.old ≤ K.faults out.new }
{
    match outcome {
        Ok(()) => Status::Done,
        Err(end) => fail(alloc, out, end),
    }
}

/// Ends a command that writes its answer, a text, last, or that has none. One write at most.
pub fn answer<K: Sink>(alloc: Global, out: &mut K, outcome: Result<Vec<u8>, End>) -> Status
    ensures ends { WritesAnswer result (text_outcome (λ text. text.items) outcome) (output_of (K.Sink, out.old))
        (output_of (K.Sink, out.new)) }
    ensures counts { K.faults out.old ≤ K.faults out.new }
{
    match outcome {
        Ok(text) => write_last(out, &text, Status::Done),
        Err(end) => fail(alloc, out, end),
    }
}
