//! Descriptors, read from page 0 of an object, whole or in pieces.
ghost use Rattle.std.specs.Prelude.{◌≡◌, ℕ, ◌+◌, ◌-◌, ◌*◌, ◌^◌, ◌<◌, ◌≤◌, ◌≢◌, ◌↔◌, List, ◌∷◌, [], IsTrue, IfOk, IsOkAnd, IfSome};
ghost use Rattle.std.specs.Prelude.{IfNone, EachIndex, length, take, drop, slice_index};
ghost use Rattle.std.specs.Int.{from_be_bytes, w32};
ghost use Rattle.dg_words.specs.Lists.{padded};
ghost use Rattle.dg_base.specs.Texts.{spells_name};
ghost use Rattle.dg_object.specs.Sizes.{most_bytes, slots, name_size};
ghost use Rattle.dg_object.specs.Object.{pages_for};
ghost use Rattle.dg_object.specs.Descriptor.{Details, HasTag, IsHead, RestFits, IsDescriptor};
ghost use Rattle.dg_object.specs.Records.{details_of};

use crate::Name;
use crate::size::{
    DESCRIPTOR_PIECE, DescriptorPiece, HEAD_SIZE, Head, PAGE_SIZE, SLOTS, check_size, pages_of,
};
use dg_base::is_name;
use std::error::Error;
use std::fmt;

/// A piece of the filling after the CRCs.
const FILLED: DescriptorPiece = [0xFF; DESCRIPTOR_PIECE];

/// Why bytes are not a descriptor.
#[derive(Clone, Copy, Debug, PartialEq, Eq)]
pub enum DescriptorFault {
    /// They don't begin with `DG`.
    Tag,
    /// They do, but a field is out of its range, or what has to be filling is not.
    Range,
}

impl fmt::Display for DescriptorFault {
    ghost use Rattle.std.specs.Prelude.{Some};
    ghost use Rattle.dg_object.specs.Faults.{descriptor_fault_text};

    ghost output = { λ fault. Some (descriptor_fault_text fault) };

    fn fmt<W: fmt::Write>(&self, f: &mut fmt::Formatter<W>) -> fmt::Result {
        match self {
            DescriptorFault::Tag => f.write_str("the page is no descriptor"),
            DescriptorFault::Range => f.write_str("a field of the descriptor is out of its range"),
        }
    }
}

impl Error for DescriptorFault {}

/// What a descriptor says of the image in the pages after it.
#[derive(Debug, PartialEq, Eq, Drop)]
pub struct Descriptor {
    pub image: u8,
    pub version: u32,
    /// Pages of the object, including the descriptor.
    pub pages: u8,
    /// Bytes of the image.
    pub length: u32,
    pub name: Name,
}

impl Descriptor {
    /// Reads a whole page.
    pub fn read(page: &[u8; PAGE_SIZE]) -> Result<Self, DescriptorFault>
        ensures ok { IfOk result (λ d. IsDescriptor page.now (details_of d)) }
        ensures found { (d : Details) → IsDescriptor page.now d → IsOkAnd result (λ r. details_of r ≡ d) }
        ensures tag { (result ≡ Err DescriptorFault.Tag) ↔ (HasTag page.now → ⊥) }
        ensures range { (result ≡ Err DescriptorFault.Range) ↔ (HasTag page.now × ((d : Details) → IsDescriptor page.now d → ⊥)) }
    {
        let mut head: Head = [0; HEAD_SIZE];
        head.copy_from_slice(&page[..HEAD_SIZE]);
        let descriptor = Self::head(&head)?;
        if descriptor.rest_fits(HEAD_SIZE as u16, &page[HEAD_SIZE..]) {
            Ok(descriptor)
        } else {
            Err(DescriptorFault::Range)
        }
    }

    /// Reads the first bytes of a page, which hold all fields but the CRCs.
    pub fn head(head: &Head) -> Result<Self, DescriptorFault>
        ensures ok { IfOk result (λ d. IsHead head.now (details_of d)) }
        ensures found { (d : Details) → IsHead head.now d → IsOkAnd result (λ r. details_of r ≡ d) }
        ensures tag { (result ≡ Err DescriptorFault.Tag) ↔ (HasTag head.now → ⊥) }
        ensures range { (result ≡ Err DescriptorFault.Range) ↔ (HasTag head.now × ((d : Details) → IsHead head.now d → ⊥)) }
    {
        if !has_tag(head) {
            return Err(DescriptorFault::Tag);
        }
        match fields(head) {
            Some(descriptor) => Ok(descriptor),
            None => Err(DescriptorFault::Range),
        }
    }

    /// Whether the bytes of a page from `at` on are 0xFF wherever they come after the CRC of the last page.
    pub fn rest_fits(&self, at: u16, piece: &[u8]) -> bool
        ensures { IsTrue result ↔ RestFits self.now.pages at piece.now }
    {
        let crcs_end = HEAD_SIZE + 2 * usize::from(self.pages).saturating_sub(1);
        let checked_from = crcs_end.saturating_sub(usize::from(at)).min(piece.len());
        is_filling(&piece[checked_from..])
    }
}

fn has_tag(head: &Head) -> bool
    ensures { IsTrue result ↔ HasTag head.now }
{
    head[0] == b'D' && head[1] == b'G'
}

/// The fields of a head with its tag.
fn fields(head: &Head) -> Option<Descriptor>
    requires { HasTag head.now }
    ensures some { IfSome result (λ d. IsHead head.now (details_of d)) }
    ensures none { IfNone result ((d : Details) → IsHead head.now d → ⊥) }
{
    let name = name_in(&head[12..])?;
    let descriptor = Descriptor {
        image: head[2],
        version: word_at(head, 4),
        pages: head[3],
        length: word_at(head, 8),
        name,
    };
    if in_range(&descriptor) {
        Some(descriptor)
    } else {
        None
    }
}

/// Whether the numbers are in their ranges.
fn in_range(descriptor: &Descriptor) -> bool
    ensures { let d = descriptor.now in IsTrue result
        ↔ ((d.image < slots) × (1 ≤ d.version) × (1 ≤ d.length) × (d.length ≤ most_bytes) × (d.pages ≡ pages_for d.length)) }
{
    let length = descriptor.length;
    descriptor.image < SLOTS
        && descriptor.version >= 1
        && check_size(length as usize).is_ok()
        && descriptor.pages == pages_of(length)
}

/// The number that four bytes spell, the highest first.
fn word_at(bytes: &[u8], at: usize) -> u32
    requires { at + 4 ≤ length bytes.now }
    ensures { result ≡ from_be_bytes w32 (take 4 (drop at bytes.now)) }
{
    u32::from_be_bytes([bytes[at], bytes[at + 1], bytes[at + 2], bytes[at + 3]])
}

/// The name in its field, if it is padded with 0.
fn name_in(field: &[u8]) -> Option<Name>
    requires { length field.now ≡ name_size }
    ensures some { IfSome result (λ n. IsTrue (spells_name n) × (field.now ≡ padded name_size 0 n)) }
    ensures none { IfNone result ((n : List ℕ) → IsTrue (spells_name n) → field.now ≡ padded name_size 0 n → ⊥) }
{
    let (name, padding) = field.split_at(name_len(field));
    if !is_name(name) {
        return None;
    }
    if !is_padding(padding) {
        return None;
    }
    Some(Name::new(name))
}

/// How many bytes come before the first 0.
fn name_len(field: &[u8]) -> usize
    ensures within { result ≤ length field.now }
    ensures before { (k : ℕ) → k < result → slice_index field.now k ≢ 0 }
    ensures ended { result < length field.now → slice_index field.now result ≡ 0 }
{
    field
        .iter()
        .position(|byte| *byte == 0)
        .unwrap_or(field.len())
}

fn is_padding(bytes: &[u8]) -> bool
    ensures { IsTrue result ↔ EachIndex bytes.now (λ k. slice_index bytes.now k ≡ 0) }
{
    bytes.iter().all(|byte| *byte == 0)
}

/// Whether all bytes are 0xFF.
fn is_filling(bytes: &[u8]) -> bool
    ensures { IsTrue result ↔ EachIndex bytes.now (λ k. slice_index bytes.now k ≡ 255) }
{
    let mut at = 0;
    while at < bytes.len() {
        let len = (bytes.len() - at).min(DESCRIPTOR_PIECE);
        if !is_filled_piece(&bytes[at..at + len]) {
            return false;
        }
        at += len;
    }
    true
}

/// The same of a few bytes. Slices are compared many bytes at a time.
fn is_filled_piece(piece: &[u8]) -> bool
    requires { length piece.now ≤ DESCRIPTOR_PIECE }
    ensures { IsTrue result ↔ EachIndex piece.now (λ k. slice_index piece.now k ≡ 255) }
{
    piece == &FILLED[..piece.len()]
}
