//! Formatting: a chip becomes a volume that keeps only golden.
ghost use Rattle.std.specs.Prelude.{◌≡◌, ◌↔◌, ◌⊎◌, ℕ, ◌+◌, ◌*◌, ◌/◌, ◌%◌, ◌<◌, ◌≤◌, ⊤, false, Err, OnOk, OnErr, IfOk, IsErrOf};
ghost use Rattle.std.specs.Prelude.{IsTrue, length, slice_index};
ghost use Rattle.dg_base.specs.Texts.{spells_name};
ghost use Rattle.dg_nor.specs.Chip.{sector, Touches};
ghost use Rattle.dg_nor.specs.Device.{Ran, Halted};
ghost use Rattle.dg_nor.specs.Reads.{ActStopped};
ghost use Rattle.dg_object.specs.Object.{IsRow, row_of, pages_for};
ghost use Rattle.dg_slot.specs.Layout.{most_bytes, page_operations, header_sector, slot_end};
ghost use Rattle.dg_slot.specs.Kept.{Held, KeepsImage};
ghost use Rattle.dg_slot.specs.Jobs.{IsOpen, outline_of_slot};
ghost use Rattle.dg_control.specs.Places.{place_in};
ghost use Rattle.dg_control.specs.Store.{current, HasForm, IsOrderlyChip};
ghost use Rattle.dg_volume.specs.Sizes.{control_sectors, places, most_room, old_form, new_form};
ghost use Rattle.dg_volume.specs.Store.{fresh, golden_row, held_to, held_whole};
ghost use Rattle.dg_volume.specs.Stands.{Stands};
ghost use Rattle.dg_volume.specs.Acts.{TouchesBut};
ghost use Rattle.dg_volume.specs.Formatting.{format_operations, GoldenFirst};

use crate::laws::a_row_is_filled_page_by_page;
use crate::layout::{GOLDEN, PAGE_SIZE};
use crate::slot_filling::fill_next;
use crate::volume::{FormatFault, Volume};
use dg_control::{Control, GOLDEN_VERSION, Spelled, a_chip_has_one_form};
use dg_nor::{Nor, Stopped};
use dg_object::{SizeFault, check_size, page_of, pages_of, profile_of};
use dg_slot::{DirtySlot, OpenSlot};

impl Volume {
    /// Formats the chip as a volume that keeps only golden, with this name and these 1 to 70,656 bytes. `used` commits, at most
    /// 520,223, are recorded as spent. The snapshot is written in form `form`. Golden is in its slot before the control sectors
    /// are touched.
    pub fn format<N: Nor>(
        nor: &mut N,
        golden: &[u8],
        name: &[u8],
        used: u32,
        form: u8,
    ) -> Result<(), FormatFault>
        requires named { IsTrue (spells_name name.now) }
        requires few { used ≤ most_room }
        requires known_form { (form ≡ old_form) ⊎ (form ≡ new_form) }
        ensures formatted { OnOk result (Stands (N.device nor.new).image (fresh name.now golden.now used)) }
        ensures form { OnOk result (HasForm (N.device nor.new).image form) }
        // the places before the snapshot are recorded as spent
        ensures spent { OnOk result ((i : ℕ) → i < used % places
            → slice_index (place_in (sector (N.device nor.new).image (current (used / places))) i) 0 ≡ 0) }
        ensures orderly { OnOk result (IsOrderlyChip (N.device nor.new).image) }
        ensures ran { OnOk result (Ran (format_operations (length golden.now) used) (N.device nor.old) (N.device nor.new)) }
        ensures awake { OnOk result ((N.device nor.old).stopped ≡ false) }
        ensures same_reference { (N.device nor.new).references ≡ (N.device nor.old).references }
        ensures touches { TouchesBut (header_sector 0) (slot_end 0) (N.device nor.old).image (N.device nor.new).image }
        ensures empty { (result ≡ Err FormatFault.Empty) ↔ (length golden.now ≡ 0) }
        ensures too_large { (result ≡ Err FormatFault.TooLarge) ↔ (most_bytes < length golden.now) }
        ensures refused { IsErrOf result FormatFault.Empty ⊎ IsErrOf result FormatFault.TooLarge
            → N.device nor.new ≡ N.device nor.old }
        ensures golden_first { IsErrOf result FormatFault.Stopped
            → GoldenFirst (golden_row name.now golden.now) (N.device nor.old).image (N.device nor.new).image }
        ensures stopped { IsErrOf result FormatFault.Stopped → ActStopped (N.device nor.old) (N.device nor.new) }
        ensures halted { IsErrOf result FormatFault.Stopped
            → Halted (format_operations (length golden.now) used) (λ _ _. ⊤) (N.device nor.old) (N.device nor.new) }
    {
        match check_size(golden.len()) {
            Ok(()) => {}
            Err(SizeFault::Empty) => return Err(FormatFault::Empty),
            Err(SizeFault::TooLarge) => return Err(FormatFault::TooLarge),
        }
        write_golden(nor, golden, name)?;
        Control::format(nor, used, &Spelled::fresh(form))?;
        a_chip_has_one_form();
        Ok(())
    }
}

/// Writes all of golden into its slot. 2 operations, and 50 for each page.
fn write_golden<N: Nor>(nor: &mut N, golden: &[u8], name: &[u8]) -> Result<(), Stopped>
    requires some { 1 ≤ length golden.now }
    requires fits { length golden.now ≤ most_bytes }
    requires named { IsTrue (spells_name name.now) }
    ensures kept { OnOk result (KeepsImage (N.device nor.new).image 0 (held_whole (golden_row name.now golden.now))) }
    ensures ran { OnOk result (Ran (2 + page_operations * pages_for (length golden.now)) (N.device nor.old) (N.device nor.new)) }
    ensures awake { OnOk result ((N.device nor.old).stopped ≡ false) }
    ensures same_reference { (N.device nor.new).references ≡ (N.device nor.old).references }
    ensures touches { Touches (header_sector 0) (slot_end 0) (N.device nor.old).image (N.device nor.new).image }
    ensures stopped { OnErr result (Halted (2 + page_operations * pages_for (length golden.now)) (λ _ _. ⊤)
        (N.device nor.old) (N.device nor.new)) }
{
    let profile = profile_of(golden, GOLDEN, GOLDEN_VERSION, name);
    let slot = DirtySlot::new(GOLDEN).prepare(nor, &profile)?;
    fill_golden(nor, slot, golden, name)
}

/// Fills all pages of golden, whose slot is open.
fn fill_golden<N: Nor>(
    nor: &mut N,
    slot: OpenSlot,
    golden: &[u8],
    name: &[u8],
) -> Result<(), Stopped>
    requires some { 1 ≤ length golden.now }
    requires fits { length golden.now ≤ most_bytes }
    requires named { IsTrue (spells_name name.now) }
    requires open { IsOpen (N.device nor.old).image slot (held_to (golden_row name.now golden.now) 0) }
    requires golden { (outline_of_slot slot).image ≡ 0 }
    ensures kept { OnOk result (KeepsImage (N.device nor.new).image 0 (held_whole (golden_row name.now golden.now))) }
    ensures ran { OnOk result (Ran (page_operations * pages_for (length golden.now)) (N.device nor.old) (N.device nor.new)) }
    ensures same_reference { (N.device nor.new).references ≡ (N.device nor.old).references }
    ensures touches { Touches (header_sector 0) (slot_end 0) (N.device nor.old).image (N.device nor.new).image }
    ensures stopped { OnErr result (Halted (page_operations * pages_for (length golden.now)) (λ _ _. ⊤) (N.device nor.old)
        (N.device nor.new)) }
{
    let mut open = slot;
    for p in 0..pages_of(golden.len() as u32) {
        open = fill_golden_page(nor, open, golden, name, p)?;
    }
    Ok(())
}

/// Fills page `p` of golden, which is the next one.
fn fill_golden_page<N: Nor>(
    nor: &mut N,
    slot: OpenSlot,
    golden: &[u8],
    name: &[u8],
    p: u8,
) -> Result<OpenSlot, Stopped>
    requires some { 1 ≤ length golden.now }
    requires fits { length golden.now ≤ most_bytes }
    requires named { IsTrue (spells_name name.now) }
    requires open { IsOpen (N.device nor.old).image slot (held_to (golden_row name.now golden.now) p) }
    requires golden { (outline_of_slot slot).image ≡ 0 }
    requires page { p < pages_for (length golden.now) }
    ensures open { IfOk result (λ o. IsOpen (N.device nor.new).image o (held_to (golden_row name.now golden.now) (p + 1))) }
    ensures same { IfOk result (λ o. outline_of_slot o ≡ outline_of_slot slot) }
    ensures ran { OnOk result (Ran page_operations (N.device nor.old) (N.device nor.new)) }
    ensures same_reference { (N.device nor.new).references ≡ (N.device nor.old).references }
    ensures touches { Touches (header_sector 0) (slot_end 0) (N.device nor.old).image (N.device nor.new).image }
    ensures stopped { OnErr result (Halted page_operations (λ _ _. ⊤) (N.device nor.old) (N.device nor.new)) }
{
    let mut page = [0; PAGE_SIZE];
    page_of(golden, GOLDEN, GOLDEN_VERSION, name, p, &mut page);
    a_row_is_filled_page_by_page();
    fill_next(nor, slot, &page)
}
