//! The verbs of signed images: `text` writes the line that is signed, `verify` reports whether an image is signed, and `receive`
//! receives one that is. Each writes once at most, at its end.
#![tactic(auto)]

ghost use Rattle.std.specs.Prelude.{◌≡◌, ◌≤◌, Some, codes, map, string_bytes};
ghost use Rattle.dg_end.specs.Texts.{line};
ghost use Rattle.dg_end.specs.Writes.{WritesLast};
ghost use Rattle.dg_outside.specs.Outside.{Outside, output_of, with_input, with_output, with_boards};
ghost use Rattle.dg_signed.specs.Finding.{line_of_release};
ghost use Rattle.dg_sign_tool.specs.Verbs.{ReceiveSigned, found_line, found_status, unsigned_line, unsigned_status};

mod program;

use dg_base::{Sink, Source, Status, WriteFailed};
use dg_nor::Nor;
use dg_sign::signed_line;
use dg_signed::{ImageName, Release, SignedImage, Unsigned};
pub use program::receive_for_program;
use std::alloc::{AllocError, Global};

// Writes a line, and ends with this status.
fn write_last<K: Sink>(out: &mut K, line: &[u8], status: Status) -> Status
    ensures ends { WritesLast result status (Some line.now) (output_of (K.Sink, out.old)) (output_of (K.Sink, out.new)) }
    ensures counts { K.faults out.old ≤ K.faults out.new }
{
    match out.write(line) {
        Ok(()) => status,
        Err(WriteFailed) => Status::WriteFault,
    }
}

// Ends a verb whose image is not signed.
fn refuse<K: Sink>(out: &mut K, cause: Unsigned) -> Status
    ensures ends { WritesLast result (unsigned_status cause) (unsigned_line cause) (output_of (K.Sink, out.old))
        (output_of (K.Sink, out.new)) }
    ensures counts { K.faults out.old ≤ K.faults out.new }
{
    match cause {
        Unsigned::Memory => Status::Memory,
        Unsigned::Key(_) => write_last(out, b"refused key\n", Status::Refused),
        Unsigned::Text(_) => write_last(out, b"refused signature\n", Status::Refused),
        Unsigned::Signature(_) => write_last(out, b"refused signature\n", Status::Refused),
    }
}

/// Ends a run whose command line is invalid: writes `usage`.
pub fn misuse<K: Sink>(out: &mut K) -> Status
    ensures ends { WritesLast result Status.Usage (Some (line (codes "usage"))) (output_of (K.Sink, out.old))
        (output_of (K.Sink, out.new)) }
    ensures counts { K.faults out.old ≤ K.faults out.new }
{
    write_last(out, b"usage\n", Status::Usage)
}

/// Writes the line of an image, its version and its root, which is what is signed.
pub fn text<K: Sink>(alloc: Global, release: &Release, out: &mut K) -> Status
    ensures ends { WritesLast result Status.Done (Some (line_of_release release.now)) (output_of (K.Sink, out.old))
        (output_of (K.Sink, out.new)) }
    ensures counts { K.faults out.old ≤ K.faults out.new }
{
    match signed_line(alloc, release.image, release.version, &release.root) {
        Ok(line) => write_last(out, line.as_slice(), Status::Done),
        Err(AllocError) => Status::Memory,
    }
}

/// Reports by its status whether an image is signed. Writes nothing if it is, and `refused key` or `refused signature` if it is
/// not.
pub fn verify<K: Sink>(found: &Result<SignedImage, Unsigned>, out: &mut K) -> Status
    ensures ends { WritesLast result (found_status found.now) (found_line found.now) (output_of (K.Sink, out.old))
        (output_of (K.Sink, out.new)) }
    ensures counts { K.faults out.old ≤ K.faults out.new }
{
    match found {
        Ok(_) => Status::Done,
        Err(cause) => refuse(out, *cause),
    }
}

/// Receives an image that is signed, as `receive` of `dg_chain_tool` does, with this name. Where it is not signed, neither the
/// input nor a board is used, and the last line is `refused key` or `refused signature`.
pub fn receive<S: Source, K: Sink, N: Nor>(
    alloc: Global,
    found: &Result<SignedImage, Unsigned>,
    name: &ImageName,
    input: &mut S,
    out: &mut K,
    boards: &mut Vec<N>,
) -> Status
    ensures does { (rest : Outside) → ReceiveSigned found.now (string_bytes name.now.text) result
        (with_boards (map N.device boards.old.items) (with_output (K.Sink, out.old) (with_input (S.Source, input.old) rest)))
        (with_boards (map N.device boards.new.items) (with_output (K.Sink, out.new) (with_input (S.Source, input.new) rest))) }
{
    match found {
        Ok(signed) => dg_chain_tool::receive(
            alloc,
            signed.release.image,
            signed.release.version,
            name.text.as_bytes(),
            &signed.release.root,
            input,
            out,
            boards,
        ),
        Err(cause) => refuse(out, *cause),
    }
}
