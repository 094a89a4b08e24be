//! How many bytes are as expected.
ghost use Rattle.std.specs.Prelude.{◌≡◌, ◌↔◌, ℕ, ◌+◌, ◌*◌, ◌^◌, ◌<◌, ◌≤◌, ◌++◌, ◌∷◌, [], IfSome, IsNone, IsTrue};
ghost use Rattle.std.specs.Prelude.{length, slice_index};
ghost use Rattle.std.specs.Prelude.{unwrap_or};
ghost use Rattle.dg_words.specs.Bits.{cleared_bits};
ghost use Rattle.dg_nor.specs.Sizes.{sector_size};
ghost use Rattle.dg_ledger.specs.Sizes.{bits_size, most_count};
ghost use Rattle.dg_ledger.specs.Ledger.{ledger_text};
ghost use Rattle.dg_control.specs.declared.snapshot.SlotState.{SlotState};
ghost use Rattle.dg_object.specs.Sizes.{head_size, page_size, most_bytes};
ghost use Rattle.dg_object.specs.Object.{pages_for};
ghost use Rattle.dg_object.specs.Descriptor.{Details, IsHead, IsDescriptor};
ghost use Rattle.dg_slot.specs.Layout.{slots, header_size, fewest_pages, most_pages};
ghost use Rattle.dg_slot.specs.Header.{header_bytes, EncodesHeader};
ghost use Rattle.dg_volume.specs.Sizes.{golden_version};
ghost use Rattle.dg_breaks.specs.Bytes.{FitTo, IsFirstBreak, AreEqual, AreCleared, LedgerFits};
ghost use Rattle.dg_breaks.specs.Bytes.{said_pages, said_crc, SpelledFits};
ghost use Rattle.dg_breaks.specs.Bytes.{HeaderFits, GoldenFits, front_of, said_length, HeadFits, DescriptorFits, AreFilled};

use crate::header::{GATES_AT, HeaderSeen, gates_of, header_bytes};
use dg_control::{GOLDEN, GOLDEN_VERSION, SlotState};
use dg_ledger::{LedgerText, MOST_COUNT, TEXT_SIZE};
use dg_object::{
    Descriptor, FEWEST_PAGES, HEAD_SIZE, Head, MOST_PAGES, PAGE_SIZE, check_size, pages_of,
};
use dg_slot::{Gates, Header, SIZE_OF_HEADER};

/// What a ledger begins with.
const LEDGER_TEXT: LedgerText = *b"DELUGE-NOR-PROF1";

/// The bytes of bits after it.
pub(crate) const LEDGER_BITS: usize = 2_032;

/// Where the count of pages is in a header.
const PAGES_AT: usize = 3;

/// Where the length of an image and its name begin in a descriptor.
const LENGTH_AT: usize = 8;

const NAME_AT: usize = 12;

/// How many of the first bytes of two lists of one length are equal.
fn equal_bytes(one: &[u8], other: &[u8]) -> usize
    requires { length one.now ≡ length other.now }
    ensures fit { FitTo (length one.now) (AreEqual one.now other.now) result }
    ensures whole { result ≡ length one.now → one.now ≡ other.now }
{
    for at in 0..one.len() {
        if one[at] != other[at] {
            return at;
        }
    }
    one.len()
}

/// How many bits are cleared in `at` bytes with `count` cleared bits and in `byte` after them. None if they are not cleared in
/// order from the first, or are more than `most`.
fn count_byte(byte: u8, at: u32, count: u32, most: u32) -> Option<u32>
    requires within { count ≤ 8 * at }
    requires few { count ≤ most }
    requires in_sector { at < sector_size }
    ensures fits { IfSome result (λ n. n ≤ 8 * (at + 1) × (n ≤ most)
        × (cleared_bits at count ++ byte ∷ [] ≡ cleared_bits (at + 1) n)) }
    ensures no_fit { IsNone result → (n : ℕ) → n ≤ most → cleared_bits at count ++ byte ∷ [] ≡ cleared_bits (at + 1) n → ⊥ }
{
    if byte == 0xFF {
        return Some(count);
    }
    let cleared = byte.count_zeros();
    if u32::from(byte) != 0xFF >> cleared {
        return None;
    }
    if count < 8 * at {
        return None;
    }
    if count + cleared > most {
        return None;
    }
    Some(count + cleared)
}

/// How many of the first bytes have at most `most` cleared bits, in order from the first.
fn clear_bytes(bits: &[u8], most: u32) -> usize
    requires { length bits.now ≤ sector_size }
    ensures within { result ≤ length bits.now }
    ensures before { AreCleared bits.now most result }
    ensures here { result < length bits.now → AreCleared bits.now most (result + 1) → ⊥ }
{
    let mut count = 0;
    for at in 0..bits.len() {
        match count_byte(bits[at], at as u32, count, most) {
            Some(more) => count = more,
            None => return at,
        }
    }
    bits.len()
}

/// The first byte at which the text and the bits are not those of a ledger.
pub(crate) fn ledger_break(text: &LedgerText, bits: &[u8; LEDGER_BITS]) -> u32
    requires { (n : ℕ) → text.now ≡ ledger_text → n ≤ most_count → bits.now ≡ cleared_bits bits_size n → ⊥ }
    ensures { IsFirstBreak sector_size (LedgerFits text.now bits.now) result }
{
    let equal = equal_bytes(text, &LEDGER_TEXT) as u32;
    if equal < TEXT_SIZE {
        return equal;
    }
    TEXT_SIZE + clear_bytes(bits, u32::from(MOST_COUNT)) as u32
}

/// Whether an image may have this many pages.
fn is_page_count(pages: u8) -> bool
    ensures { IsTrue result ↔ ((fewest_pages ≤ pages) × (pages ≤ most_pages)) }
{
    FEWEST_PAGES <= pages && pages <= MOST_PAGES
}

/// How many of the first bytes of a header are those of that image and version.
fn spelled_bytes(first: &Header, image: u8, version: u32) -> usize
    requires { image < slots }
    ensures fit { FitTo header_size (SpelledFits first.now image version) result }
    ensures whole { result ≡ header_size → first.now ≡ header_bytes image version (said_pages first.now) (said_crc first.now) }
    ensures fewest { result ≡ header_size → fewest_pages ≤ said_pages first.now }
    ensures most { result ≡ header_size → said_pages first.now ≤ most_pages }
    ensures small { said_crc first.now < 2 ^ 16 }
{
    let said = HeaderSeen {
        pages: first[PAGES_AT],
        crc: u16::from_be_bytes([first[8], first[9]]),
        done: 0,
    };
    let equal = equal_bytes(first, &header_bytes(image, version, &said));
    if equal > PAGES_AT && !is_page_count(said.pages) {
        return PAGES_AT;
    }
    equal
}

/// The first byte at which a header is not one of that image and version.
pub(crate) fn header_break(first: &Header, gates: &Gates, image: u8, version: u32) -> u32
    requires known_image { image < slots }
    requires none { (pages crc done : ℕ) → EncodesHeader first.now gates.now image version pages crc done → ⊥ }
    ensures { IsFirstBreak sector_size (HeaderFits first.now gates.now image version) result }
{
    let spelled = spelled_bytes(first, image, version);
    if spelled < SIZE_OF_HEADER {
        return spelled as u32;
    }
    GATES_AT + clear_bytes(gates, u32::from(first[PAGES_AT])) as u32
}

/// The first byte at which the header of golden is not one of a slot that keeps it whole.
pub(crate) fn golden_break(slot: SlotState, first: &Header, gates: &Gates) -> u32
    requires { (pages crc : ℕ) → slot ≡ SlotState.Live golden_version
        → EncodesHeader first.now gates.now 0 golden_version pages crc pages → ⊥ }
    ensures { IsFirstBreak sector_size (GoldenFits slot first.now gates.now) result }
{
    if slot
        != (SlotState::Live {
            version: GOLDEN_VERSION,
        })
    {
        return 0;
    }
    let spelled = spelled_bytes(first, GOLDEN, GOLDEN_VERSION);
    if spelled < SIZE_OF_HEADER {
        return spelled as u32;
    }
    GATES_AT + equal_bytes(gates, &gates_of(first[PAGES_AT])) as u32
}

/// The first eight bytes of the descriptor of an image.
fn front_of(image: u8, version: u32, pages: u8) -> [u8; LENGTH_AT]
    ensures { result ≡ front_of image version pages }
{
    let version = version.to_be_bytes();
    [
        b'D', b'G', image, pages, version[0], version[1], version[2], version[3],
    ]
}

/// The length that a head says.
fn said_length(head: &Head) -> u32
    ensures { result ≡ said_length head.now }
{
    u32::from_be_bytes([head[8], head[9], head[10], head[11]])
}

/// Whether an image of that length has this many pages.
fn is_length_of(length: u32, pages: u8) -> bool
    ensures { IsTrue result ↔ ((1 ≤ length) × (length ≤ most_bytes) × (pages ≡ pages_for length)) }
{
    check_size(length as usize).is_ok() && pages == pages_of(length)
}

/// How many of the first bytes of a head are those of that image and version, and of these pages where they are given.
fn head_bytes(head: &Head, image: u8, version: u32, pages: Option<u8>) -> usize
    ensures fit { FitTo head_size (HeadFits head.now image version pages) result }
    ensures whole { result ≡ head_size → (d : Details) × IsHead head.now d × (d.image ≡ image) × (d.version ≡ version)
        × (d.pages ≡ unwrap_or pages (slice_index head.now 3)) }
{
    let front = front_of(image, version, pages.unwrap_or(head[PAGES_AT]));
    let equal = equal_bytes(&head[..LENGTH_AT], &front);
    if equal < LENGTH_AT {
        return equal;
    }
    if !is_length_of(said_length(head), head[PAGES_AT]) {
        return LENGTH_AT;
    }
    match Descriptor::head(head) {
        Ok(_) => HEAD_SIZE,
        Err(_) => NAME_AT,
    }
}

/// The first byte from `from` on that is not 0xFF, or the length.
fn filled_bytes(page: &[u8], from: usize) -> usize
    ensures within { result ≤ length page.now }
    ensures before { (k : ℕ) → k < result → AreFilled page.now from k }
    ensures here { result < length page.now → AreFilled page.now from result → ⊥ }
{
    for at in 0..page.len() {
        if at >= from && page[at] != 0xFF {
            return at;
        }
    }
    page.len()
}

/// How many of the first bytes of a page are those of a descriptor of that image and version, and of these pages where they
/// are given.
pub(crate) fn descriptor_bytes(
    page: &[u8; PAGE_SIZE],
    image: u8,
    version: u32,
    pages: Option<u8>,
) -> usize
    ensures fit { FitTo page_size (DescriptorFits page.now image version pages) result }
    ensures whole { result ≡ page_size → (d : Details) × IsDescriptor page.now d × (d.image ≡ image) × (d.version ≡ version)
        × (d.pages ≡ unwrap_or pages (slice_index page.now 3)) }
{
    let mut head: Head = [0; HEAD_SIZE];
    head.copy_from_slice(&page[..HEAD_SIZE]);
    let spelled = head_bytes(&head, image, version, pages);
    if spelled < HEAD_SIZE {
        return spelled;
    }
    let from = HEAD_SIZE + 2 * usize::from(head[PAGES_AT]).saturating_sub(1);
    filled_bytes(page, from)
}
