//! Records, and the lines that encode them.
ghost use Rattle.std.specs.Prelude.{◌≡◌, ◌+◌, ◌*◌, ◌%◌, ◌<◌, ◌≤◌, ◌==◌, length, slice_range, sum, Some, IfOk, IfErr};
ghost use Rattle.dg_ihex.specs.Records.{data_record, linear_record, marker, record_of, record_of_bytes, segment_record};
ghost use Rattle.dg_ihex.specs.Records.{typed_record};
ghost use Rattle.dg_base.specs.Hexadecimal.{hex_bytes};
ghost use Rattle.dg_ihex.specs.Reading.{ReadsHex, RefusesDigits};

use crate::faults::HexCause;
use dg_base::{Bytes, HexFault, parse_hex};
use std::alloc::Global;

/// The addresses of a segment.
pub const SEGMENT: usize = 65_536;

/// The bytes of a record besides its data: the count, two of the address, the type and the checksum.
pub(crate) const FIELDS: usize = 5;

/// What a record of a HEX file says.
#[derive(Debug, Drop)]
pub enum Record {
    /// Type 00: these bytes, from an offset above the base on.
    Data { offset: u16, bytes: Bytes },
    /// Type 01: the file ends.
    End,
    /// Type 02: the base of the addresses after it, in units of 16 bytes.
    Segment(u16),
    /// Type 04: the base of the addresses after it, in units of 65,536 bytes.
    Linear(u16),
    /// Types 03 and 05: where a processor starts, which an image does not keep.
    Start,
}

/// The record that a line encodes. The line is not blank.
#[tactic(auto, unfolding(crate::specs::Records::record_of))]
pub fn read_record(alloc: Global, text: &[u8]) -> Result<Record, HexCause>
    ensures { ReadsHex result (record_of text.now) }
{
    if text.first() != Some(&b':') {
        return Err(HexCause::Start);
    }
    let bytes = bytes_of_digits(alloc, &text[1..])?;
    checked_record(alloc, &bytes)
}

// The bytes that pairs of hex digits encode.
fn bytes_of_digits(alloc: Global, digits: &[u8]) -> Result<Vec<u8>, HexCause>
    ensures read { IfOk result (λ bytes. hex_bytes digits.now ≡ Some bytes.items) }
    ensures refused { IfErr result (λ cause. RefusesDigits cause (hex_bytes digits.now)) }
{
    match parse_hex(alloc, digits) {
        Ok(bytes) => Ok(bytes),
        Err(HexFault::Odd) => Err(HexCause::Hex),
        Err(HexFault::Digit) => Err(HexCause::Hex),
        Err(HexFault::Memory) => Err(HexCause::Memory),
    }
}

// The record of these bytes.
#[tactic(auto, unfolding(crate::specs::Records::record_of_bytes))]
fn checked_record(alloc: Global, bytes: &[u8]) -> Result<Record, HexCause>
    ensures { ReadsHex result (record_of_bytes bytes.now) }
{
    if bytes.len() < FIELDS {
        return Err(HexCause::Count);
    }
    if bytes.len() != usize::from(bytes[0]) + FIELDS {
        return Err(HexCause::Count);
    }
    if sum_of(bytes) != 0 {
        return Err(HexCause::Check);
    }
    let offset = word_of(bytes[1], bytes[2]);
    typed_record(alloc, bytes[3], offset, &bytes[4..bytes.len() - 1])
}

// The sum of bytes modulo 256.
pub fn sum_of(bytes: &[u8]) -> u8
    ensures { result ≡ sum bytes.now % 256 }
{
    let mut total: u8 = 0;
    for byte in bytes {
        total = total.wrapping_add(*byte);
    }
    total
}

// The record of a type, with its offset and its data.
#[tactic(auto, unfolding(crate::specs::Records::typed_record))]
fn typed_record(alloc: Global, kind: u8, offset: u16, bytes: &[u8]) -> Result<Record, HexCause>
    ensures { ReadsHex result (typed_record kind offset bytes.now) }
{
    match kind {
        0 => data_record(alloc, offset, bytes),
        1 => marker(bytes, 0, Record::End),
        2 => segment_record(bytes),
        3 => marker(bytes, 4, Record::Start),
        4 => linear_record(bytes),
        5 => marker(bytes, 4, Record::Start),
        _ => Err(HexCause::Kind),
    }
}

#[tactic(auto, unfolding(crate::specs::Records::data_record))]
fn data_record(alloc: Global, offset: u16, bytes: &[u8]) -> Result<Record, HexCause>
    ensures { ReadsHex result (data_record offset bytes.now) }
{
    if usize::from(offset) + bytes.len() > SEGMENT {
        return Err(HexCause::Shape);
    }
    let bytes = Bytes::new(bytes.to_vec(alloc)?);
    Ok(Record::Data { offset, bytes })
}

// A record of whose data only the length is checked.
#[tactic(auto, unfolding(crate::specs::Records::marker))]
fn marker(bytes: &[u8], count: usize, says: Record) -> Result<Record, HexCause>
    ensures { ReadsHex result (marker count says bytes.now) }
{
    if bytes.len() != count {
        return Err(HexCause::Shape);
    }
    Ok(says)
}

// The base of a segment, in paragraphs.
#[tactic(auto, unfolding(crate::specs::Records::segment_record))]
fn segment_record(bytes: &[u8]) -> Result<Record, HexCause>
    ensures { ReadsHex result (segment_record bytes.now) }
{
    if bytes.len() != 2 {
        return Err(HexCause::Shape);
    }
    Ok(Record::Segment(word_of(bytes[0], bytes[1])))
}

// The high half of a base.
#[tactic(auto, unfolding(crate::specs::Records::linear_record))]
fn linear_record(bytes: &[u8]) -> Result<Record, HexCause>
    ensures { ReadsHex result (linear_record bytes.now) }
{
    if bytes.len() != 2 {
        return Err(HexCause::Shape);
    }
    Ok(Record::Linear(word_of(bytes[0], bytes[1])))
}

// The number of two bytes, the high one first.
fn word_of(high: u8, low: u8) -> u16
    ensures { result ≡ high * 256 + low }
{
    u16::from(high) * 256 + u16::from(low)
}
