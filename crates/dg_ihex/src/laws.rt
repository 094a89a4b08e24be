//! Laws of HEX files, by their definition alone.
ghost use Rattle.std.specs.Prelude.{◌≡◌, ℕ, ◌-◌, ◌<◌, ◌≤◌, List, length, All, slice_get, Some, None, Ok, Err};
ghost use Rattle.std.specs.Str.Lines.{lines};
ghost use Rattle.dg_ihex.specs.Blocks.{Block, byte_at, image_of_blocks, lowest_of, past_blocks};
ghost use Rattle.dg_ihex.specs.Files.{blocks_of, hex_file, records_of};
ghost use Rattle.dg_ihex.specs.Laws.{IsFirstFault, fault_behind_lines};
ghost use Rattle.dg_ihex.specs.Written.{written_file};
ghost use Rattle.dg_ihex.specs.declared.faults.HexFileFault.{HexFileFault};
ghost use Rattle.dg_ihex.specs.Sizes.{longest_image, most_text, paragraph, segment, record_fields, longest_record, piece_bytes};
ghost use Rattle.dg_ihex.specs.Sizes.{gap_byte, addresses, highest_base};

use crate::reader::{HIGHEST_BASE, MOST_TEXT, PARAGRAPH};
use crate::record::{FIELDS, SEGMENT};
use crate::stream::LONGEST_RECORD;
use crate::window::{GAP_BYTE, LONGEST_IMAGE, NO_ADDRESS};
use crate::writer::PIECE;

/// The numbers are those of the format and of this profile. Images have at most 1,048,576 bytes, and texts at most
/// 16,777,216. Bases are in units of 16 and of 65,536 bytes. A record has five bytes besides its data, its line at most
/// 521 bytes, and one that is written at most 16 data bytes. The byte at an address that no record gives is ff.
pub fn the_numbers_are_these()
    ensures image { LONGEST_IMAGE ≡ longest_image }
    ensures text { MOST_TEXT ≡ most_text }
    ensures paragraph { PARAGRAPH ≡ paragraph }
    ensures segment { SEGMENT ≡ segment }
    ensures fields { FIELDS ≡ record_fields }
    ensures line { LONGEST_RECORD ≡ longest_record }
    ensures piece { PIECE ≡ piece_bytes }
    ensures gap { GAP_BYTE ≡ gap_byte }
    ensures addresses { NO_ADDRESS ≡ addresses }
    ensures base { HIGHEST_BASE ≡ highest_base }
{}

/// A file that is written is read back, and gives the image that was written.
pub fn a_written_file_is_read_again()
    ensures { (image : List ℕ) → 1 ≤ length image → length image ≤ longest_image → All (λ b. b < 256) image
        → hex_file (written_file image) ≡ Ok image }
{}

/// A file is refused by its first fault, and one without a fault gives the image of its records.
pub fn a_refused_file_has_its_first_fault()
    ensures fault { (bytes : List ℕ) (fault : HexFileFault) → hex_file bytes ≡ Err fault → IsFirstFault (lines bytes) fault }
    ensures sound { (bytes image : List ℕ) → hex_file bytes ≡ Ok image
        → (n : ℕ) → n ≤ length (lines bytes) → fault_behind_lines (lines bytes) n ≡ None }
    ensures image { (bytes image : List ℕ) → hex_file bytes ≡ Ok image
        → image ≡ image_of_blocks (blocks_of (records_of (lines bytes))) }
{}

/// In an image the lowest address is byte 0. Each byte that is given is at its address, a byte that is not
/// given is 0xFF, and the highest address is the last byte.
pub fn an_image_holds_what_is_given()
    ensures given { (blocks : List Block) (address byte : ℕ) → byte_at blocks address ≡ Some byte
        → slice_get (image_of_blocks blocks) (address - lowest_of blocks) ≡ Some byte }
    ensures gap { (blocks : List Block) (address : ℕ) → lowest_of blocks ≤ address → address < past_blocks blocks
        → byte_at blocks address ≡ None → slice_get (image_of_blocks blocks) (address - lowest_of blocks) ≡ Some 255 }
    ensures length { (blocks : List Block) → length (image_of_blocks blocks) ≡ past_blocks blocks - lowest_of blocks }
{}
