//! What holds of objects and descriptors. These functions do nothing: their contracts are the laws.
ghost use Rattle.std.specs.Prelude.{◌≡◌, ℕ, ◌+◌, ◌-◌, ◌<◌, ◌≤◌, ◌↔◌, true, List, [], length, slice_index_or};
ghost use Rattle.dg_words.specs.Cells.{AreBytes, part};
ghost use Rattle.dg_base.specs.Crc.{crc_of};
ghost use Rattle.dg_object.specs.Sizes.{page_size, packets, packet_size, fewest_pages, most_pages, most_bytes, slots, head_size};
ghost use Rattle.dg_object.specs.Sizes.{name_size, descriptor_piece_size};
ghost use Rattle.dg_object.specs.Object.{Row, IsRow, pages_for, data_page, descriptor_page, page_of_row, object, content};
ghost use Rattle.dg_object.specs.Descriptor.{Details, IsHead, IsDescriptor, RestFits, Describes, details, crc_in};
ghost use Rattle.dg_object.specs.Tested.{fields_in, is_descriptor, describes};

use crate::{
    DESCRIPTOR_PIECE, FEWEST_PAGES, HEAD_SIZE, MOST_BYTES, MOST_PAGES, NAME_SIZE, PACKET_SIZE,
    PACKETS, PAGE_SIZE, SIZE_OF_DESCRIPTOR_PIECE, SIZE_OF_HEAD, SIZE_OF_NAME, SIZE_OF_PACKET,
    SLOTS,
};

/// The constants of this crate equal the numbers in its definitions.
pub fn an_object_has_these_sizes()
    ensures page { PAGE_SIZE ≡ page_size }
    ensures packets { PACKETS ≡ packets }
    ensures packet { PACKET_SIZE ≡ packet_size }
    ensures fewest_pages { FEWEST_PAGES ≡ fewest_pages }
    ensures most_pages { MOST_PAGES ≡ most_pages }
    ensures most_bytes { MOST_BYTES ≡ most_bytes }
    ensures slots { SLOTS ≡ slots }
    ensures head { HEAD_SIZE ≡ head_size }
    ensures name { NAME_SIZE ≡ name_size }
    ensures descriptor_piece { DESCRIPTOR_PIECE ≡ descriptor_piece_size }
    // the types of the arrays have these sizes, and a name keeps its count beside its array
    ensures packet_array { SIZE_OF_PACKET ≡ packet_size }
    ensures head_array { SIZE_OF_HEAD ≡ head_size }
    ensures piece_array { SIZE_OF_DESCRIPTOR_PIECE ≡ descriptor_piece_size }
    ensures name_array { SIZE_OF_NAME ≤ name_size + 8 }
{}

/// An object of 2 to 65 pages holds the image, and nothing but the filling after it.
pub fn a_row_is_its_pages()
    ensures some { (row : Row) → IsRow row → fewest_pages ≤ pages_for (length row.bytes) }
    ensures most { (row : Row) → IsRow row → pages_for (length row.bytes) ≤ most_pages }
    ensures count { (row : Row) → length (object row) ≡ pages_for (length row.bytes) }
    ensures page { (row : Row) (p : ℕ) → p < pages_for (length row.bytes) → slice_index_or (object row) p [] ≡ page_of_row row p }
    ensures long { (row : Row) (p : ℕ) → IsRow row → length (page_of_row row p) ≡ page_size }
    ensures bytes { (row : Row) (p : ℕ) → IsRow row → AreBytes (page_of_row row p) }
    ensures content { (row : Row) → content (length row.bytes) (object row) ≡ row.bytes }
{}

/// Page 0 of an object is the descriptor of what the row says, and keeps the CRC of each other page.
pub fn a_row_has_a_descriptor()
    ensures first { (row : Row) → page_of_row row 0 ≡ descriptor_page row }
    ensures others { (row : Row) (p : ℕ) → 1 ≤ p → page_of_row row p ≡ data_page row.bytes p }
    ensures described { (row : Row) → IsRow row → IsDescriptor (descriptor_page row) (details row) }
    ensures crcs { (row : Row) (p : ℕ) → IsRow row → 1 ≤ p → p < pages_for (length row.bytes)
        → crc_in (descriptor_page row) p ≡ crc_of (data_page row.bytes p) }
{}

/// Bytes are the head of one descriptor at most.
pub fn a_head_is_read_in_one_way()
    ensures { (head : List ℕ) (d e : Details) → IsHead head d → IsHead head e → d ≡ e }
{}

/// A page is a descriptor exactly if its first bytes are its head and everything after them fits, in one piece or in several.
pub fn a_descriptor_is_read_in_pieces()
    ensures parts { (page : List ℕ) (d : Details) → length page ≡ page_size → IsHead (part page 0 head_size) d
        → RestFits d.pages head_size (part page head_size (page_size - head_size)) → IsDescriptor page d }
    ensures more { (pages : ℕ) (page : List ℕ) (at m n : ℕ) → at + (m + n) ≤ length page → RestFits pages at (part page at m)
        → RestFits pages (at + m) (part page (at + m) n) → RestFits pages at (part page at (m + n)) }
    ensures head { (page : List ℕ) (d : Details) → IsDescriptor page d → IsHead (part page 0 head_size) d }
    ensures pieces { (page : List ℕ) (d : Details) (at n : ℕ) → IsDescriptor page d → RestFits d.pages at (part page at n) }
{}

/// The test for a descriptor is true exactly if the page is one, and its fields are those that are read from it.
pub fn a_descriptor_is_tested()
    ensures tested { (page : List ℕ) → (is_descriptor page ≡ true) ↔ ((d : Details) × IsDescriptor page d) }
    ensures fields { (page : List ℕ) (d : Details) → IsDescriptor page d → d ≡ fields_in page }
    ensures described { (page : List ℕ) (image version pages : ℕ)
        → (describes page image version pages ≡ true) ↔ Describes page image version pages }
{}
