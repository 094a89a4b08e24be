//! The verbs of chained images.
//!
//! Each writes once, at its end. What can end it is checked in one order: whether there is a board, if it uses one, what the
//! input spells, and what the board holds.
#![tactic(auto)]

mod checking;
mod filling;
mod receiving;
mod wrapping;

ghost use Rattle.std.specs.Prelude.{◌≡◌, ◌⊎◌, ◌<◌, ◌≤◌, List, ℕ, Some, length, drop, map, IsTrue};
ghost use Rattle.dg_base.specs.Texts.{spells_name};
ghost use Rattle.dg_slot.specs.Kept.{Held};
ghost use Rattle.dg_volume.specs.Sizes.{images};
ghost use Rattle.dg_volume.specs.Store.{Store, held};
ghost use Rattle.dg_outside.specs.Outside.{Outside, output_of, with_input, with_output, with_boards};
ghost use Rattle.dg_chain.specs.Chain.{IsPayload, chain, root_of};
ghost use Rattle.dg_chain.specs.Checking.{Collision};
ghost use Rattle.dg_tool.specs.Endings.{FirstAs};
ghost use Rattle.dg_tool.specs.Done.{FirstDone};
ghost use Rattle.dg_tool.specs.Rules.{reading_rule};
ghost use Rattle.dg_chain_tool.specs.Verbs.{check_by};
ghost use Rattle.dg_chain_tool.specs.Done.{WrapDone, ReceiveDone, TellsLength};

use crate::checking::check_first;
use crate::receiving::receive_first;
use crate::wrapping::wrap_input;
use dg_base::{Sink, Source, Status};
use dg_chain::{DIGEST_SIZE, a_root_names_its_pages};
use dg_end::answer;
use dg_nor::Nor;
use dg_volume::{a_chip_stands_for_a_shaped_store, trails_keep_agreement};
use std::alloc::Global;

/// Wraps the payload of the HEX file that `input` spells, 1 to 68,604 bytes, into an image of which each page carries the
/// digest of the next (SHA-256). Writes `root HEX`, the digest of the first page, and then the HEX file of the image. No
/// board is used.
pub fn wrap<S: Source, K: Sink>(alloc: Global, input: &mut S, out: &mut K) -> Status
    ensures does { (rest : Outside) → WrapDone result (with_output (K.Sink, out.old) (with_input (S.Source, input.old) rest))
        (with_output (K.Sink, out.new) (with_input (S.Source, input.new) rest)) }
{
    let outcome = wrap_input(alloc, input);
    answer(alloc, out, outcome)
}

/// Compares the data pages of an image that the first board keeps whole with a root, and changes no byte. Writes
/// `chain LENGTH`, the length of the payload whose pages they are.
pub fn check<K: Sink, N: Nor>(
    alloc: Global,
    image: u8,
    root: &[u8; DIGEST_SIZE],
    out: &mut K,
    boards: &mut Vec<N>,
) -> Status
    requires image { image < images }
    ensures does { (rest : Outside) → FirstDone result
        (reading_rule (map N.device boards.old.items) (λ s. check_by root.now (held s image)))
        (with_boards (map N.device boards.old.items) (with_output (K.Sink, out.old) rest))
        (with_boards (map N.device boards.new.items) (with_output (K.Sink, out.new) rest)) }
    // Whatever wrote the board's bytes, pages that pass for the root of a payload are its pages, or two different pages at one
    // index have the same digest.
    ensures named { (x : List ℕ) (s : Store) (h : Held) → IsPayload x → root.now ≡ root_of x
        → FirstAs (map N.device boards.old.items) (Some s) → held s image ≡ Some h
        → result ≡ Status.Done → (drop 1 h.complete ≡ chain x) ⊎ Collision (drop 1 h.complete) (chain x) }
    // Its own pages pass, and its length is reported.
    ensures own { (x : List ℕ) (s : Store) (h : Held) → IsPayload x → root.now ≡ root_of x
        → FirstAs (map N.device boards.old.items) (Some s) → held s image ≡ Some h
        → 1 ≤ length boards.old.items → length h.complete ≡ h.pages → drop 1 h.complete ≡ chain x
        → TellsLength result (length x) (output_of (K.Sink, out.old)) (output_of (K.Sink, out.new)) }
    ensures unchanged { map (λ board. (N.device board).image) boards.new.items
        ≡ map (λ board. (N.device board).image) boards.old.items }
{
    a_root_names_its_pages();
    let outcome = check_first(alloc, image, root, boards.as_mut_slice());
    answer(alloc, out, outcome)
}

/// Keeps an image that `wrap` made whole on the first board, page by page: the image of the HEX file that `input` spells, with
/// this name. Each data page that is filled is compared with the digest that is expected of it, the root for data page 1, and
/// becomes complete only if it has that. Writes `have 0 I V N`, where N counts all pages, the descriptor too. At the first page
/// with another digest it is refused, and the pages before it stay.
pub fn receive<S: Source, K: Sink, N: Nor>(
    alloc: Global,
    image: u8,
    version: u32,
    name: &[u8],
    root: &[u8; DIGEST_SIZE],
    input: &mut S,
    out: &mut K,
    boards: &mut Vec<N>,
) -> Status
    requires image { image < images }
    requires version { 1 ≤ version }
    requires named { IsTrue (spells_name name.now) }
    ensures does { (rest : Outside) → ReceiveDone image version name.now root.now result
        (with_boards (map N.device boards.old.items) (with_output (K.Sink, out.old) (with_input (S.Source, input.old) rest)))
        (with_boards (map N.device boards.new.items) (with_output (K.Sink, out.new) (with_input (S.Source, input.new) rest))) }
{
    trails_keep_agreement();
    a_chip_stands_for_a_shaped_store();
    let outcome = receive_first(
        alloc,
        image,
        version,
        name,
        root,
        input,
        boards.as_mut_slice(),
    );
    answer(alloc, out, outcome)
}
