//! What holds of messages and frames. These functions do nothing: their contracts are the laws.
ghost use Rattle.std.specs.Prelude.{◌≡◌, ◌↔◌, ℕ, Bool, true, false, List, Result, Ok};
ghost use Rattle.dg_words.specs.Cells.{AreBytes};
ghost use Rattle.dg_frame.specs.Sizes.{frame_bytes, narrow_images, wide_images, set_bytes, fewest_pages, shortest};
ghost use Rattle.dg_frame.specs.Sizes.{advert_frame_size, request_frame_size, packet_frame_size, wide_frame_size};
ghost use Rattle.dg_frame.specs.declared.Message.{Message};
ghost use Rattle.dg_frame.specs.declared.FrameFault.{FrameFault};
ghost use Rattle.dg_frame.specs.Spelling.{frame_of, FitsTypes};
ghost use Rattle.dg_frame.specs.Grammar.{in_range, message_of};
ghost use Rattle.dg_frame.specs.Ranges.{IsInRange};
ghost use Rattle.dg_frame.specs.Readings.{IsReading};

use crate::kind::{ADVERT_BYTES, PACKET_FRAME_BYTES, REQUEST_BYTES, WIDE_BYTES};
use crate::reading::SHORTEST;
use crate::{FRAME_BYTES, NARROW_IMAGES, SET_BYTES, WIDE_IMAGES};
use dg_object::FEWEST_PAGES;

/// The sizes are those of this profile: frames of 5 to 64 bytes, adverts of 38, requests of 19, packets of 35 and wide
/// adverts of 62. Adverts have entries of three images or of six, packet sets have 6 bytes, and objects have 2 pages or
/// more.
pub fn the_sizes_are_these()
    ensures frame { FRAME_BYTES ≡ frame_bytes }
    ensures shortest { SHORTEST ≡ shortest }
    ensures narrow { NARROW_IMAGES ≡ narrow_images }
    ensures wide { WIDE_IMAGES ≡ wide_images }
    ensures set { SET_BYTES ≡ set_bytes }
    ensures pages { FEWEST_PAGES ≡ fewest_pages }
    ensures advert { ADVERT_BYTES ≡ advert_frame_size }
    ensures request { REQUEST_BYTES ≡ request_frame_size }
    ensures packet { PACKET_FRAME_BYTES ≡ packet_frame_size }
    ensures wide_advert { WIDE_BYTES ≡ wide_frame_size }
{}

/// Bytes are read in one way: as the message whose fields they spell, or refused for the first cause that applies. What
/// a narrow reader reads, a wide one reads too.
pub fn one_reading()
    ensures ranges { (wide : Bool) (m : Message) → (in_range wide m ≡ true) ↔ IsInRange wide m }
    ensures reading { (b : List ℕ) (wide : Bool) (r : Result Message FrameFault) → (message_of b wide ≡ r) ↔ IsReading b wide r }
    ensures wider { (b : List ℕ) (m : Message) → message_of b false ≡ Ok m → message_of b true ≡ Ok m }
    ensures wider_range { (wide : Bool) (m : Message) → in_range wide m ≡ true → in_range true m ≡ true }
{}

/// A message that is in its ranges and its frame determine one another.
pub fn one_spelling()
    ensures written { (wide : Bool) (m : Message) → FitsTypes m → in_range wide m ≡ true → message_of (frame_of m) wide ≡ Ok m }
    ensures read { (b : List ℕ) (wide : Bool) (m : Message) → AreBytes b → message_of b wide ≡ Ok m → b ≡ frame_of m }
    ensures fits { (b : List ℕ) (wide : Bool) (m : Message) → AreBytes b → message_of b wide ≡ Ok m → FitsTypes m }
{}
