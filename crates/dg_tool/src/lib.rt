//! The verbs over one board: format, inject, order, boot, ping, dump and migrate.
//!
//! Each works on the first of the boards that it is given, and writes once, at its end. What can end it is checked in one order:
//! whether there is a board, what the input spells, and what the board holds. The parts of which other verbs are made are public
//! too: reading an image, mounting, lines, and the end.
#![tactic(auto)]

mod dumping;
mod formatting;
mod injecting;
mod input;
mod laws;
mod migrating;
mod ordering;
mod pages;
mod pinging;
mod starting;

ghost use Rattle.std.specs.Prelude.{◌≡◌, ◌⊎◌, ◌≤◌, ◌<◌, map, Ok, IsTrue};
ghost use Rattle.dg_outside.specs.Outside.{Outside, with_input, with_output, with_boards};
ghost use Rattle.dg_base.specs.Texts.{spells_name};
ghost use Rattle.dg_volume.specs.Sizes.{images, most_room, old_form, new_form};
ghost use Rattle.dg_volume.specs.Store.{held};
ghost use Rattle.dg_tool.specs.Endings.{Acting};
ghost use Rattle.dg_tool.specs.Verbs.{ping_text, dump_by};
ghost use Rattle.dg_tool.specs.Done.{FirstDone, InputDone};
ghost use Rattle.dg_tool.specs.Rules.{reading_rule, format_rule, InjectDone, OrderDone, BootDone, MigrateDone};

use crate::dumping::dump_first;
use crate::formatting::format_first;
use crate::injecting::inject_first;
pub use crate::input::{ImageFault, read_image};
pub use crate::laws::a_whole_image_tells_its_row;
use crate::migrating::migrate_first;
use crate::ordering::order_first;
use crate::pinging::ping_first;
use crate::starting::boot_first;
use dg_base::{Sink, Source, Status};
use dg_end::answer;
use dg_nor::Nor;
use dg_volume::{
    Order, a_chip_stands_for_a_shaped_store, a_volume_has_one_form, trails_keep_agreement,
};
use std::alloc::Global;

/// Makes the first board a volume that keeps golden alone: the image of the HEX file that `input` spells, with this name. `used`
/// commits, at most 520,223, are counted as spent. The snapshot is written in form 1 or 2. Writes `room R`.
pub fn format<S: Source, K: Sink, N: Nor>(
    alloc: Global,
    name: &[u8],
    used: u32,
    form: u8,
    input: &mut S,
    out: &mut K,
    boards: &mut Vec<N>,
) -> Status
    requires named { IsTrue (spells_name name.now) }
    requires few { used ≤ most_room }
    requires known_form { (form ≡ old_form) ⊎ (form ≡ new_form) }
    ensures does { (rest : Outside) → InputDone result (format_rule name.now used form)
        (with_boards (map N.device boards.old.items) (with_output (K.Sink, out.old) (with_input (S.Source, input.old) rest)))
        (with_boards (map N.device boards.new.items) (with_output (K.Sink, out.new) (with_input (S.Source, input.new) rest))) }
{
    let outcome = format_first(alloc, name, used, form, input, boards.as_mut_slice());
    answer(alloc, out, outcome)
}

/// Keeps an image whole on the first board: the image of the HEX file that `input` spells, with this name. Writes
/// `have 0 I V N`, where N counts all pages, the descriptor too.
pub fn inject<S: Source, K: Sink, N: Nor>(
    alloc: Global,
    image: u8,
    version: u32,
    name: &[u8],
    input: &mut S,
    out: &mut K,
    boards: &mut Vec<N>,
) -> Status
    requires image { image < images }
    requires version { 1 ≤ version }
    requires named { IsTrue (spells_name name.now) }
    ensures does { (rest : Outside) → InjectDone image version name.now result
        (with_boards (map N.device boards.old.items) (with_output (K.Sink, out.old) (with_input (S.Source, input.old) rest)))
        (with_boards (map N.device boards.new.items) (with_output (K.Sink, out.new) (with_input (S.Source, input.new) rest))) }
{
    trails_keep_agreement();
    a_chip_stands_for_a_shaped_store();
    let outcome = inject_first(alloc, image, version, name, input, boards.as_mut_slice());
    answer(alloc, out, outcome)
}

/// Keeps an order on the first board, which is not waived. Writes `order 0 K I V`.
pub fn order<K: Sink, N: Nor>(
    alloc: Global,
    order: &Order,
    out: &mut K,
    boards: &mut Vec<N>,
) -> Status
    requires number { 1 ≤ order.now.number }
    requires image { order.now.image < images }
    requires version { 1 ≤ order.now.version }
    ensures does { (rest : Outside) → OrderDone order.now result
        (with_boards (map N.device boards.old.items) (with_output (K.Sink, out.old) rest))
        (with_boards (map N.device boards.new.items) (with_output (K.Sink, out.new) rest)) }
{
    trails_keep_agreement();
    a_chip_stands_for_a_shaped_store();
    let outcome = order_first(alloc, order, boards.as_mut_slice());
    answer(alloc, out, outcome)
}

/// Starts the first board by power. Writes `start 0 I V LENGTH CRC`. The start counts as a short one.
pub fn boot<K: Sink, N: Nor>(alloc: Global, out: &mut K, boards: &mut Vec<N>) -> Status
    ensures does { (rest : Outside) → BootDone result
        (with_boards (map N.device boards.old.items) (with_output (K.Sink, out.old) rest))
        (with_boards (map N.device boards.new.items) (with_output (K.Sink, out.new) rest)) }
{
    trails_keep_agreement();
    a_chip_stands_for_a_shaped_store();
    let outcome = boot_first(alloc, boards.as_mut_slice());
    answer(alloc, out, outcome)
}

/// Reports what the first board keeps, and changes no byte.
pub fn ping<K: Sink, N: Nor>(alloc: Global, out: &mut K, boards: &mut Vec<N>) -> Status
    ensures does { (rest : Outside) → FirstDone result
        (reading_rule (map N.device boards.old.items) (λ s. Acting (Ok (ping_text s))))
        (with_boards (map N.device boards.old.items) (with_output (K.Sink, out.old) rest))
        (with_boards (map N.device boards.new.items) (with_output (K.Sink, out.new) rest)) }
    ensures unchanged { map (λ board. (N.device board).image) boards.new.items
        ≡ map (λ board. (N.device board).image) boards.old.items }
{
    let outcome = ping_first(alloc, boards.as_mut_slice());
    answer(alloc, out, outcome)
}

/// Writes the image that a slot of the first board keeps whole as a HEX file, and changes no byte.
pub fn dump<K: Sink, N: Nor>(alloc: Global, image: u8, out: &mut K, boards: &mut Vec<N>) -> Status
    requires image { image < images }
    ensures does { (rest : Outside) → FirstDone result
        (reading_rule (map N.device boards.old.items) (λ s. dump_by (held s image)))
        (with_boards (map N.device boards.old.items) (with_output (K.Sink, out.old) rest))
        (with_boards (map N.device boards.new.items) (with_output (K.Sink, out.new) rest)) }
    ensures unchanged { map (λ board. (N.device board).image) boards.new.items
        ≡ map (λ board. (N.device board).image) boards.old.items }
{
    let outcome = dump_first(alloc, image, boards.as_mut_slice());
    answer(alloc, out, outcome)
}

/// Writes the first board's snapshot in form 2, where it is written in form 1. Writes `form 2`.
pub fn migrate<K: Sink, N: Nor>(alloc: Global, out: &mut K, boards: &mut Vec<N>) -> Status
    ensures does { (rest : Outside) → MigrateDone result
        (with_boards (map N.device boards.old.items) (with_output (K.Sink, out.old) rest))
        (with_boards (map N.device boards.new.items) (with_output (K.Sink, out.new) rest)) }
{
    trails_keep_agreement();
    a_chip_stands_for_a_shaped_store();
    a_volume_has_one_form();
    let outcome = migrate_first(alloc, boards.as_mut_slice());
    answer(alloc, out, outcome)
}
