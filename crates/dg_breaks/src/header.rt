//! The header of a slot, as it is read to see what it lacks.
ghost use Rattle.std.specs.Prelude.{◌≡◌, ℕ, ◌<◌, ◌≤◌, IfOk, IfSome, IsNone};
ghost use Rattle.std.specs.List.{sum_by};
ghost use Rattle.std.specs.Int.{count_zeros, w8};
ghost use Rattle.dg_words.specs.Cells.{part};
ghost use Rattle.dg_nor.specs.Chip.{sector};
ghost use Rattle.dg_nor.specs.Reads.{ReadEnds};
ghost use Rattle.dg_slot.specs.Layout.{slots, header_sector, header_size, gates_at, gates_size};
ghost use Rattle.dg_slot.specs.Header.{header_bytes, gates_of, EncodesHeader, IsHeader};

use dg_nor::{Nor, Stopped, read_in};
use dg_object::{FEWEST_PAGES, MOST_PAGES};
use dg_slot::{Gates, Header, SIZE_OF_GATES, SIZE_OF_HEADER, page_sector};

/// Where the gates begin in the sector of a header.
pub(crate) const GATES_AT: u32 = 16;

/// The sector of the header of an image's slot, which is the one before page 0.
pub(crate) fn header_sector(image: u8) -> u32
    requires { image < slots }
    ensures { result ≡ header_sector image }
{
    page_sector(image, 0) - 1
}

/// What a header says of its slot.
#[derive(Drop)]
pub(crate) struct HeaderSeen {
    pub(crate) pages: u8,
    pub(crate) crc: u16,
    pub(crate) done: u8,
}

/// The bytes of a header, without its gates.
pub(crate) fn header_bytes(image: u8, version: u32, seen: &HeaderSeen) -> Header
    ensures { result ≡ header_bytes image version seen.now.pages seen.now.crc }
{
    let version = version.to_be_bytes();
    let crc = seen.crc.to_be_bytes();
    [
        b'S', b'H', image, seen.pages, version[0], version[1], version[2], version[3], crc[0],
        crc[1],
    ]
}

/// The gates of a slot with this many complete pages.
pub(crate) fn gates_of(done: u8) -> Gates
    ensures { result ≡ gates_of done }
{
    let mut gates = [0; SIZE_OF_GATES];
    for j in 0..SIZE_OF_GATES {
        let cleared = done.saturating_sub(8 * j as u8).min(8);
        gates[j] = (0xFF_u16 >> cleared) as u8;
    }
    gates
}

/// How many bits of the gates are cleared.
fn cleared(gates: &Gates) -> u8
    ensures { result ≡ sum_by (λ gate. count_zeros w8 gate) gates.now }
{
    let mut cleared = 0;
    for gate in gates {
        cleared += gate.count_zeros() as u8;
    }
    cleared
}

/// What a header says, where it is one of that image and version.
fn header_seen(first: &Header, gates: &Gates, image: u8, version: u32) -> Option<HeaderSeen>
    requires known_image { image < slots }
    ensures fits { IfSome result (λ seen. EncodesHeader first.now gates.now image version seen.pages seen.crc seen.done) }
    ensures no_fit { IsNone result → (pages crc done : ℕ) → EncodesHeader first.now gates.now image version pages crc done → ⊥ }
{
    let pages = first[3];
    let crc = u16::from_be_bytes([first[8], first[9]]);
    let done = cleared(gates);
    if pages < FEWEST_PAGES || pages > MOST_PAGES || done > pages {
        return None;
    }
    let seen = HeaderSeen { pages, crc, done };
    if header_bytes(image, version, &seen) != *first {
        return None;
    }
    if gates_of(done) != *gates {
        return None;
    }
    Some(seen)
}

/// The bytes of a header, and its gates.
#[derive(Drop)]
pub(crate) struct HeaderCells {
    pub(crate) first: Header,
    pub(crate) gates: Gates,
}

/// The bytes at the place of the header of a slot.
pub(crate) fn read_header<N: Nor>(nor: &mut N, image: u8) -> Result<HeaderCells, Stopped>
    requires { image < slots }
    ensures first { IfOk result (λ cells. cells.first
        ≡ part (sector (N.device nor.old).image (header_sector image)) 0 header_size) }
    ensures gates { IfOk result (λ cells. cells.gates
        ≡ part (sector (N.device nor.old).image (header_sector image)) gates_at gates_size) }
    ensures ends { ReadEnds result (N.device nor.old) (N.device nor.new) }
{
    let mut first: Header = [0; SIZE_OF_HEADER];
    let mut gates: Gates = [0; SIZE_OF_GATES];
    let index = header_sector(image);
    read_in(nor, index, 0, &mut first)?;
    read_in(nor, index, GATES_AT, &mut gates)?;
    Ok(HeaderCells { first, gates })
}

/// What the header of a slot says, where it is one of that version.
pub(crate) fn see_header<N: Nor>(
    nor: &mut N,
    image: u8,
    version: u32,
) -> Result<Option<HeaderSeen>, Stopped>
    requires known_image { image < slots }
    ensures fits { IfOk result (λ found. IfSome found (λ seen.
        IsHeader (sector (N.device nor.old).image (header_sector image)) image version seen.pages seen.crc seen.done)) }
    ensures no_fit { IfOk result (λ found. IsNone found → (pages crc done : ℕ)
        → IsHeader (sector (N.device nor.old).image (header_sector image)) image version pages crc done → ⊥) }
    ensures ends { ReadEnds result (N.device nor.old) (N.device nor.new) }
{
    let mut first: Header = [0; SIZE_OF_HEADER];
    let mut gates: Gates = [0; SIZE_OF_GATES];
    let index = header_sector(image);
    read_in(nor, index, 0, &mut first)?;
    read_in(nor, index, GATES_AT, &mut gates)?;
    Ok(header_seen(&first, &gates, image, version))
}
