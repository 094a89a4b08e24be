//! The pages of an object, made from an image.
ghost use Rattle.std.specs.Prelude.{◌≡◌, ℕ, ◌+◌, ◌-◌, ◌*◌, ◌^◌, ◌<◌, ◌≤◌, List, [], ◌++◌, IsTrue, length, take, drop};
ghost use Rattle.std.specs.Int.{to_be_bytes, w16, w32};
ghost use Rattle.dg_words.specs.Lists.{padded};
ghost use Rattle.dg_base.specs.Crc.{crc_of};
ghost use Rattle.dg_base.specs.Texts.{spells_name};
ghost use Rattle.dg_object.specs.Sizes.{page_size, most_bytes, slots, name_size};
ghost use Rattle.dg_object.specs.Records.{outline_of};
ghost use Rattle.dg_object.specs.Object.{row_of, profile, pages_for, data_page, head_of, descriptor_page, page_of_row};

use crate::Profile;
use crate::name::NAME_SIZE;
use crate::size::{HEAD_SIZE, PAGE_SIZE, pages_of};
use byteorder::{BigEndian, ByteOrder};
use dg_base::{crc16, crc16_more};

/// What fills a page after its last byte.
const FILLING: u8 = 0xFF;

/// Writes page `p` of the object of an image into `into`: for 0 the descriptor, else the bytes of the image
/// after those of the pages before it.
pub fn page_of(
    bytes: &[u8],
    image: u8,
    version: u32,
    name: &[u8],
    p: u8,
    into: &mut [u8; PAGE_SIZE],
)
    requires some { 1 ≤ length bytes.now }
    requires fits { length bytes.now ≤ most_bytes }
    requires known_image { image < slots }
    requires real_version { 1 ≤ version }
    requires named { IsTrue (spells_name name.now) }
    requires page { p < pages_for (length bytes.now) }
    ensures { into.new ≡ page_of_row (row_of image version name.now bytes.now) p }
{
    if p == 0 {
        write_descriptor(bytes, image, version, name, into);
    } else {
        write_data_page(bytes, p, into);
    }
}

/// The profile of the object of an image, in one pass over its bytes.
pub fn profile_of(bytes: &[u8], image: u8, version: u32, name: &[u8]) -> Profile
    requires some { 1 ≤ length bytes.now }
    requires fits { length bytes.now ≤ most_bytes }
    requires known_image { image < slots }
    requires real_version { 1 ≤ version }
    requires named { IsTrue (spells_name name.now) }
    ensures { outline_of result ≡ profile (row_of image version name.now bytes.now) }
{
    let mut descriptor = [0; PAGE_SIZE];
    write_descriptor(bytes, image, version, name, &mut descriptor);
    Profile {
        image,
        version,
        pages: pages_of(bytes.len() as u32),
        crc: crc16(&descriptor),
    }
}

/// The bytes of the image in data page `p`.
fn held_in(bytes: &[u8], p: u8) -> &[u8]
    requires { 1 ≤ p }
    ensures held { result.now ≡ take page_size (drop ((p - 1) * page_size) bytes.now) }
    ensures fits { length result.now ≤ page_size }
{
    let start = (usize::from(p) - 1) * PAGE_SIZE;
    let rest = &bytes[start.min(bytes.len())..];
    &rest[..rest.len().min(PAGE_SIZE)]
}

/// A page without bytes.
fn blank() -> [u8; PAGE_SIZE]
    ensures { result ≡ padded page_size 255 [] }
{
    [FILLING; PAGE_SIZE]
}

fn write_data_page(bytes: &[u8], p: u8, into: &mut [u8; PAGE_SIZE])
    requires { 1 ≤ p }
    ensures { into.new ≡ data_page bytes.now p }
{
    *into = blank();
    put_behind(into, 0, held_in(bytes, p));
}

/// The CRC of data page `p`, without a copy of it.
fn data_page_crc(bytes: &[u8], p: u8) -> u16
    requires { 1 ≤ p }
    ensures { result ≡ crc_of (data_page bytes.now p) }
{
    let held = held_in(bytes, p);
    let crc = crc16(held);
    if held.len() == PAGE_SIZE {
        return crc;
    }
    let filling = blank();
    crc16_more(crc, &filling[held.len()..])
}

/// Writes `piece` after the first `at` bytes of a page that is filled up.
fn put_behind(page: &mut [u8; PAGE_SIZE], at: usize, piece: &[u8])
    requires { at + length piece.now ≤ page_size }
    ensures { (front : List ℕ) → length front ≡ at → page.old ≡ padded page_size 255 front
        → page.new ≡ padded page_size 255 (front ++ piece.now) }
{
    page[at..at + piece.len()].copy_from_slice(piece);
}

/// Writes the two bytes of a number, the high one first, as `put_behind` writes.
fn put_half(page: &mut [u8; PAGE_SIZE], at: usize, number: u16)
    requires { at + 2 ≤ page_size }
    ensures { (front : List ℕ) → length front ≡ at → page.old ≡ padded page_size 255 front
        → page.new ≡ padded page_size 255 (front ++ to_be_bytes w16 number) }
{
    let mut bytes = [0; 2];
    BigEndian::write_u16(&mut bytes, number);
    put_behind(page, at, &bytes);
}

/// Writes the four bytes of a number, the highest first, as `put_behind` writes.
fn put_word(page: &mut [u8; PAGE_SIZE], at: usize, number: u32)
    requires { at + 4 ≤ page_size }
    ensures { (front : List ℕ) → length front ≡ at → page.old ≡ padded page_size 255 front
        → page.new ≡ padded page_size 255 (front ++ to_be_bytes w32 number) }
{
    let mut bytes = [0; 4];
    BigEndian::write_u32(&mut bytes, number);
    put_behind(page, at, &bytes);
}

/// The name in its field of 16 bytes.
fn name_field(name: &[u8]) -> [u8; NAME_SIZE]
    requires { length name.now ≤ name_size }
    ensures { result ≡ padded name_size 0 name.now }
{
    let mut field = [0; NAME_SIZE];
    field[..name.len()].copy_from_slice(name);
    field
}

/// Writes the head of a descriptor, and fills the page after it.
fn write_head(image: u8, pages: u8, version: u32, len: u32, name: &[u8], into: &mut [u8; PAGE_SIZE])
    requires { length name.now ≤ name_size }
    ensures { into.new ≡ padded page_size 255 (head_of image pages version len name.now) }
{
    *into = blank();
    put_behind(into, 0, &[b'D', b'G', image, pages]);
    put_word(into, 4, version);
    put_word(into, 8, len);
    put_behind(into, 12, &name_field(name));
}

fn write_descriptor(bytes: &[u8], image: u8, version: u32, name: &[u8], into: &mut [u8; PAGE_SIZE])
    requires fits { length bytes.now ≤ most_bytes }
    requires named { length name.now ≤ name_size }
    ensures { into.new ≡ descriptor_page (row_of image version name.now bytes.now) }
{
    let len = bytes.len() as u32;
    let pages = pages_of(len);
    write_head(image, pages, version, len, name, into);
    for p in 1..pages {
        let crc = data_page_crc(bytes, p);
        put_half(into, HEAD_SIZE + 2 * (usize::from(p) - 1), crc);
    }
}
