//! What holds of volumes. These functions do nothing: their contracts are the laws.
ghost use Rattle.std.specs.Prelude.{◌≡◌, ◌↔◌, ◌⊎◌, ℕ, ◌+◌, ◌^◌, ◌<◌, ◌≤◌, ◌==◌, if◌then◌else◌, Bool, true, false, List, []};
ghost use Rattle.std.specs.Prelude.{Option, Some, None, IfSome, length, drop, slice_index_or};
ghost use Rattle.dg_nor.specs.Chip.{Touches};
ghost use Rattle.dg_nor.specs.Device.{Device, Ran, Halts};
ghost use Rattle.dg_nor.specs.Trail.{Trail, operations, last, joined, resting, stepping, EachWorks, Leaves};
ghost use Rattle.dg_nor.specs.Through.{Through};
ghost use Rattle.dg_object.specs.Object.{Row, Outline, IsRow, profile, object};
ghost use Rattle.dg_slot.specs.Layout.{header_sector, slot_end, program_sector, program_end};
ghost use Rattle.dg_slot.specs.Pages.{program};
ghost use Rattle.dg_slot.specs.Kept.{Held, KeepsImage, held_begun, with_page};
ghost use Rattle.dg_slot.specs.Fits.{may_seal};
ghost use Rattle.dg_slot.specs.Jobs.{seal_trail, SlotStops};
ghost use Rattle.dg_control.specs.Store.{HasForm};
ghost use Rattle.dg_volume.specs.Sizes.{images, golden_version, short_starts, control_sectors, most_take_commits, old_form};
ghost use Rattle.dg_volume.specs.Sizes.{new_form};
ghost use Rattle.dg_volume.specs.Store.{App, Store, IsNear, held, held_to, held_whole, golden_row, fresh};
ghost use Rattle.dg_volume.specs.Stands.{Stands, IsVolume, Tells, MountedBut, Mounted, IsMounted, control_of, form_of, kept_at};
ghost use Rattle.dg_volume.specs.Remount.{RemountBytes};
ghost use Rattle.dg_volume.specs.Shaped.{IsShaped};
ghost use Rattle.dg_volume.specs.Changes.{spent, keeping, paged, ordered, gesture_cleared, advanced, inject_refusal, FitAll};
ghost use Rattle.dg_volume.specs.Trails.{BeginsAt, order_trail, clear_trail, advance_trail, migrate_trail, take_trail};
ghost use Rattle.dg_volume.specs.Trails.{fill_trail, inject_trail, sealing_trail};
ghost use Rattle.dg_volume.specs.Acts.{Acted, Stops};
ghost use Rattle.dg_volume.specs.Start.{counts, count_trail, by_gesture, order_waits, is_set_to, sound, app_of, kept_runs};
ghost use Rattle.dg_volume.specs.Start.{golden_boot, boot_counted, boot};
ghost use Rattle.dg_volume.specs.Ends.{taken, with_pages, injected, KeepsPagesOf, PartOf, blanked, ordered_runs, order_started};
ghost use Rattle.dg_volume.specs.Ends.{golden_started, golden_runs, app_runs, BootEnds, Boots};
ghost use Rattle.dg_volume.specs.Table.{row_at, IsTable};
ghost use Rattle.dg_volume.specs.Agreement.{Agrees};
ghost use Rattle.dg_volume.specs.Consistent.{IsSoundApp, Consistent};
ghost use Rattle.dg_volume.specs.RowLaws.{RowLaws, SoundRows, RowsFit};
ghost use Rattle.dg_control.specs.declared.snapshot.Order.{Order};
ghost use Rattle.dg_volume.specs.declared.volume.StartCause.{StartCause};
ghost use Rattle.dg_volume.specs.declared.volume.Volume.{Volume};

use crate::TAKE_COMMITS;
use dg_control::a_chip_has_one_form;
use dg_object::a_descriptor_is_tested;

/// The constant of this crate equals the number in its definitions, and program memory comes after the control sectors.
pub fn a_volume_has_these_sizes()
    ensures take { TAKE_COMMITS ≡ most_take_commits }
    ensures program { program_sector 0 ≡ control_sectors }
{}

/// Two stores that one chip stands for are equal. So a mounted volume exposes every store that its chip stands for.
pub fn a_chip_stands_for_one_store()
    ensures one { (c : List ℕ) (s t : Store) → Stands c s → Stands c t → s ≡ t }
    ensures told { (c : List ℕ) (v : Volume) (s : Store) → IsMounted c v → Stands c s → Tells v s }
{}

/// Mounting is deterministic: each mount of a chip gives the same control and reports the same for each slot, by halving or
/// not.
pub fn a_volume_is_mounted_in_one_way()
    ensures control { (c : List ℕ) (v w : Volume) → IsMounted c v → IsMounted c w → control_of v ≡ control_of w }
    ensures kept { (c : List ℕ) (v w : Volume) → IsMounted c v → IsMounted c w → (i : ℕ) → i < images
        → kept_at v i ≡ kept_at w i }
{}

/// The last commit of a volume is written in one of the two forms.
pub fn a_volume_has_one_form()
    ensures known { (c : List ℕ) (s : Store) → Stands c s → HasForm c old_form ⊎ HasForm c new_form }
    ensures one { (c : List ℕ) (m n : ℕ) → HasForm c m → HasForm c n → m ≡ n }
    ensures told { (c : List ℕ) (v : Volume) → IsMounted c v → HasForm c (form_of v) }
{
    a_chip_has_one_form();
}

/// For each volume there is exactly one bound on the bytes that mounting it again reads.
pub fn a_volume_bounds_a_remount()
    ensures some { (c : List ℕ) → IsVolume c → (n : ℕ) × RemountBytes c n }
    ensures one { (c : List ℕ) (m n : ℕ) → RemountBytes c m → RemountBytes c n → m ≡ n }
{}

/// A store that a chip stands for has a slot for each image, and an order in its ranges.
pub fn a_chip_stands_for_a_shaped_store()
    ensures { (c : List ℕ) (s : Store) → Stands c s → IsShaped s }
{}

/// Trails of stores that follow one another.
pub fn trails_join()
    ensures operations { (t u : Trail Store) → operations (joined t u) ≡ operations t + operations u }
    ensures early { (t u : Trail Store) (k : ℕ) (s : Store) → EachWorks u.stages → k < operations t
        → Leaves IsNear (joined t u) k s ↔ Leaves IsNear t k s }
    ensures late { (t u : Trail Store) (k : ℕ) (s : Store) → last t ≡ u.first
        → Leaves IsNear (joined t u) (operations t + k) s ↔ Leaves IsNear u k s }
    ensures begins { (s : Store) (t u : Trail Store) → BeginsAt s t → BeginsAt (last t) u → BeginsAt s (joined t u) }
    ensures ends { (t u : Trail Store) → last t ≡ u.first → last (joined t u) ≡ last u }
    ensures acted { (t u : Trail Store) (a b c : Device) (v w : Volume) → last t ≡ u.first → Acted t a b v → Acted u b c w
        → Acted (joined t u) a c w }
    ensures stopped_first { (t u : Trail Store) (a b : Device) → EachWorks u.stages → last t ≡ u.first → Stops t a b
        → Stops (joined t u) a b }
    ensures stopped_second { (t u : Trail Store) (a b c : Device) → last t ≡ u.first → Ran (operations t) a b → Stops u b c
        → Stops (joined t u) a c }
{}

/// Trails that leave the store unchanged, and trails of one stage.
pub fn trails_of_one_stage()
    ensures resting { (s : Store) (n : ℕ) → (operations (resting s n) ≡ n) × (last (resting s n) ≡ s) × BeginsAt s (resting s n) }
    ensures stepping { (s next : Store) (n : ℕ) → (operations (stepping s n next) ≡ n) × (last (stepping s n next) ≡ next)
        × (0 < n → BeginsAt s (stepping s n next)) }
{}

/// What other crates write does not change what a chip stands for: blank program memory is free, and the slot of a kept image
/// counts only by what it keeps.
pub fn what_is_after_the_commits_does_not_count()
    ensures memory { (c d : List ℕ) (v : Volume) (s : Store) → s.app ≡ None → Touches (program_sector 0) program_end c d
        → Mounted c v s → Mounted d v s }
    ensures same { (c d : List ℕ) (v : Volume) (s : Store) (i : ℕ) (h : Held) → 1 ≤ i → i < images → held s i ≡ Some h
        → Touches (header_sector i) (slot_end i) c d → KeepsImage d i h → Mounted c v s → Mounted d v s }
    ensures slot { (c d : List ℕ) (v : Volume) (s : Store) (i : ℕ) (h g : Held) → 1 ≤ i → i < images → held s i ≡ Some h
        → g.version ≡ h.version
        → Touches (header_sector i) (slot_end i) c d → KeepsImage d i g → MountedBut (λ j. j ≡ i) c v s
        → MountedBut (λ j. j ≡ i) d v (keeping i (Some g) s) }
{}

/// A page of a lent slot is filled. What is reported of that slot does not count until it is put back.
///
/// While the sector of the page is erased and its packets are programmed, the store is unchanged. When the page is sealed, one
/// more page is complete. A stop leaves the one or the other.
pub fn a_lent_slot_is_filled()
    ensures lent { (c : List ℕ) (v : Volume) (s : Store) (i : ℕ) → Mounted c v s → MountedBut (λ j. j ≡ i) c v s }
    ensures filling { (c d : List ℕ) (v : Volume) (s : Store) (i : ℕ) (h : Held) → 1 ≤ i → i < images → held s i ≡ Some h
        → Touches (header_sector i) (slot_end i) c d → KeepsImage d i h → MountedBut (λ j. j ≡ i) c v s
        → MountedBut (λ j. j ≡ i) d v s }
    ensures sealed { (c d : List ℕ) (v : Volume) (s : Store) (i : ℕ) (h : Held) (page : List ℕ) → 1 ≤ i → i < images
        → held s i ≡ Some h
        → Touches (header_sector i) (slot_end i) c d → KeepsImage d i (with_page h page) → MountedBut (λ j. j ≡ i) c v s
        → MountedBut (λ j. j ≡ i) d v (paged i page s) }
    ensures held { (s : Store) (i : ℕ) (h : Held) (page : List ℕ) → i < length s.kept → held s i ≡ Some h
        → held (paged i page s) i ≡ Some (with_page h page) }
    ensures filling_stopped { (n done : ℕ) (a b : Device) (v : Volume) (s : Store) (i : ℕ) (h : Held) → 1 ≤ i → i < images
        → held s i ≡ Some h
        → Touches (header_sector i) (slot_end i) a.image b.image → KeepsImage b.image i h → MountedBut (λ j. j ≡ i) a.image v s
        → Halts n done a b → Stops (resting s n) a b }
    ensures seal_stopped { (a b : Device) (v : Volume) (s : Store) (i : ℕ) (h : Held) (page : List ℕ) → 1 ≤ i → i < images
        → held s i ≡ Some h
        → Touches (header_sector i) (slot_end i) a.image b.image → MountedBut (λ j. j ≡ i) a.image v s
        → SlotStops i (seal_trail i h page) a b → Stops (sealing_trail s i h page) a b }
{}

/// A slot is written without a volume. If what is kept of its image is unchanged, the chip stands for the same store, also
/// after a stop. If nothing is kept of it, that holds whatever is written.
pub fn a_slot_is_written_alone()
    ensures same { (c d : List ℕ) (s : Store) (i : ℕ) → i < images → Touches (header_sector i) (slot_end i) c d
        → IfSome (held s i) (KeepsImage d i) → Stands c s → Stands d s }
    ensures stopped { (n done : ℕ) (a b : Device) (s : Store) → Stands b.image s → Halts n done a b
        → Stops (resting s n) a b }
    ensures version { (c : List ℕ) (s : Store) (i : ℕ) (h : Held) → Stands c s → held s i ≡ Some h → i < images
        → (1 ≤ h.version) × (h.version < 2 ^ 32) }
{}

/// Each act's trail begins at the store before it, and may follow another.
pub fn trails_begin()
    ensures order { (s : Store) (order : Order) → BeginsAt s (order_trail s order) }
    ensures clear { (s : Store) → BeginsAt s (clear_trail s) }
    ensures advance { (s : Store) (app : Option App) (gesture : ℕ) (waived : Bool)
        → BeginsAt s (advance_trail s app gesture waived) }
    ensures migrate { (form : ℕ) (s : Store) → BeginsAt s (migrate_trail form s) }
    ensures take { (s : Store) (p : Outline) → BeginsAt s (take_trail s p) }
    ensures fill { (s : Store) (image : ℕ) (pages : List (List ℕ)) → BeginsAt s (fill_trail s image pages) }
    ensures inject { (s : Store) (row : Row) → BeginsAt s (inject_trail s row) }
    ensures boot { (cause : StartCause) (s : Store) → BeginsAt s (boot cause s).trail }
{}

/// The trails of acts on a store that agrees with a table go through stores that agree, if what is taken or injected is a row
/// of the table.
pub fn trails_keep_agreement()
    ensures order { (table : List Row) (s : Store) (order : Order) → Agrees table s
        → Through (Agrees table) (order_trail s order) }
    ensures clear { (table : List Row) (s : Store) → Agrees table s → Through (Agrees table) (clear_trail s) }
    ensures migrate { (table : List Row) (form : ℕ) (s : Store) → Agrees table s → Through (Agrees table) (migrate_trail form s) }
    ensures take { (table : List Row) (s : Store) (row : Row) → 1 ≤ row.image → row.image < length s.kept
        → row_at table row.image row.version ≡ Some row → Agrees table s → Through (Agrees table) (take_trail s (profile row)) }
    ensures inject { (table : List Row) (s : Store) (row : Row) → row.image < length s.kept
        → row_at table row.image row.version ≡ Some row → Agrees table s → Through (Agrees table) (inject_trail s row) }
    ensures boot { (table : List Row) (cause : StartCause) (s : Store) → Agrees table s
        → Through (Agrees table) (boot cause s).trail }
    // one more page of a row that is kept in part, after n operations
    ensures page { (table : List Row) (s : Store) (row : Row) (h : Held) (n : ℕ) → 1 ≤ row.image → row.image < length s.kept
        → row_at table row.image row.version ≡ Some row → held s row.image ≡ Some h → h.version ≡ row.version
        → length h.complete < length (object row)
        → Agrees table s → Through (Agrees table) (stepping s n
        (paged row.image (slice_index_or (object row) (length h.complete) []) s)) }
    ensures resting { (table : List Row) (s : Store) (n : ℕ) → Agrees table s → Through (Agrees table) (resting s n) }
    ensures joined { (table : List Row) (t u : Trail Store) → Through (Agrees table) t → Through (Agrees table) u
        → Through (Agrees table) (joined t u) }
    ensures ends { (table : List Row) (t : Trail Store) → Through (Agrees table) t → Agrees table (last t) }
{}

/// The trails of acts on a consistent store go through consistent stores, whatever profile is taken and whatever page with the
/// kept CRC is sealed. A start runs golden, or pages that fit their own descriptor.
pub fn trails_keep_consistency()
    ensures fresh { (name bytes : List ℕ) (used : ℕ) → IsRow (golden_row name bytes)
        → Consistent (golden_row name bytes) (fresh name bytes used) }
    ensures order { (golden : Row) (s : Store) (order : Order) → Consistent golden s
        → Through (Consistent golden) (order_trail s order) }
    ensures clear { (golden : Row) (s : Store) → Consistent golden s → Through (Consistent golden) (clear_trail s) }
    ensures migrate { (golden : Row) (form : ℕ) (s : Store) → Consistent golden s
        → Through (Consistent golden) (migrate_trail form s) }
    ensures take { (golden : Row) (s : Store) (p : Outline) → 1 ≤ p.image → p.image < length s.kept → Consistent golden s
        → Through (Consistent golden) (take_trail s p) }
    ensures inject { (golden : Row) (s : Store) (row : Row) → IsRow row → row.image < length s.kept → Consistent golden s
        → Through (Consistent golden) (inject_trail s row) }
    ensures boot { (golden : Row) (cause : StartCause) (s : Store) → Consistent golden s
        → Through (Consistent golden) (boot cause s).trail }
    ensures starts { (golden : Row) (cause : StartCause) (s : Store) → Consistent golden s
        → IfSome (boot cause s).runs (λ r. IsSoundApp golden (app_of r)) }
    // one more page that may be sealed, after n operations
    ensures page { (golden : Row) (s : Store) (image : ℕ) (h : Held) (page : List ℕ) (n : ℕ) → 1 ≤ image
        → image < length s.kept → held s image ≡ Some h → may_seal image h page ≡ true
        → Consistent golden s → Through (Consistent golden) (stepping s n (paged image page s)) }
    ensures resting { (golden : Row) (s : Store) (n : ℕ) → Consistent golden s → Through (Consistent golden) (resting s n) }
    ensures joined { (golden : Row) (t u : Trail Store) → Through (Consistent golden) t → Through (Consistent golden) u
        → Through (Consistent golden) (joined t u) }
    ensures ends { (golden : Row) (t : Trail Store) → Through (Consistent golden) t → Consistent golden (last t) }
{
    a_descriptor_is_tested();
}

/// If a store agrees with a table, the pages that are kept of a row's version are the first pages of the row. With the next one
/// complete the store still agrees.
pub fn an_agreeing_store_keeps_rows()
    ensures pages { (table : List Row) (s : Store) (row : Row) → row_at table row.image row.version ≡ Some row
        → Agrees table s → IfSome (held s row.image) (KeepsPagesOf row) }
    ensures next { (table : List Row) (s : Store) (row : Row) (n : ℕ) → 1 ≤ row.image → row.image < length s.kept
        → row_at table row.image row.version ≡ Some row → held s row.image ≡ Some (held_to row n) → n < length (object row)
        → Agrees table s → Agrees table (paged row.image (slice_index_or (object row) n []) s) }
    ensures page { (table : List Row) (s : Store) (row : Row) (h : Held) → 1 ≤ row.image → row.image < length s.kept
        → row_at table row.image row.version ≡ Some row → held s row.image ≡ Some h → h.version ≡ row.version
        → length h.complete < length (object row)
        → Agrees table s → Agrees table (paged row.image (slice_index_or (object row) (length h.complete) []) s) }
{}

/// An image that is kept whole is sound, and its pages hold its bytes after their descriptor.
pub fn a_whole_image_is_sound()
    ensures { (row : Row) → IsRow row → RowLaws row }
{}

/// The stores in which acts end.
pub fn acts_end()
    ensures order { (s : Store) (order : Order) → last (order_trail s order) ≡ ordered s order }
    ensures clear { (s : Store) → last (clear_trail s) ≡ gesture_cleared s }
    ensures advance { (s : Store) (app : Option App) (gesture : ℕ) (waived : Bool)
        → last (advance_trail s app gesture waived) ≡ advanced s app gesture waived }
    ensures migrate { (form : ℕ) (s : Store) → last (migrate_trail form s) ≡ if form == old_form then spent s else s }
    ensures take { (s : Store) (p : Outline) → last (take_trail s p) ≡ taken s p }
    ensures begun { (s : Store) (p : Outline) → p.image < length s.kept → held (taken s p) p.image ≡ Some (held_begun p) }
    ensures fill { (s : Store) (image : ℕ) (h : Held) (pages : List (List ℕ)) → image < length s.kept → held s image ≡ Some h
        → last (fill_trail s image pages) ≡ keeping image (Some (with_pages h pages)) s }
    ensures inject { (s : Store) (row : Row) → row.image < length s.kept → inject_refusal s row ≡ None
        → IfSome (held s row.image) (KeepsPagesOf row) → last (inject_trail s row) ≡ injected s row }
{}

/// The store in which a start ends, and what it starts. First the start is counted, if it counts. Then golden is started by the
/// gesture, or the ordered image if an order waits. Otherwise it is what is in program memory, or golden if that is blank.
pub fn starts_end()
    ensures count { (cause : StartCause) (s : Store) → last (count_trail cause s) ≡ if counts cause s
        then record (spent s) { gesture = s.gesture + 1 } else s }
    ensures counted { (cause : StartCause) (s : Store) → ((boot cause s).runs ≡ (boot_counted (last (count_trail cause s))).runs)
        × (last (boot cause s).trail ≡ last (boot_counted (last (count_trail cause s))).trail) }
    ensures by_gesture { (s : Store) → by_gesture s ≡ true → boot_counted s ≡ golden_boot s true }
    ensures order { (s : Store) → by_gesture s ≡ false → order_waits s ≡ true → sound s s.order.image ≡ true
        → BootEnds (boot_counted s) (ordered_runs s) (order_started s) }
    ensures kept { (s : Store) (app : App) → by_gesture s ≡ false → order_waits s ≡ false → s.app ≡ Some app
        → BootEnds (boot_counted s) (app_runs app) s }
    ensures blank { (s : Store) → by_gesture s ≡ false → order_waits s ≡ false → s.app ≡ None
        → boot_counted s ≡ golden_boot s (s.gesture == short_starts) }
    // golden is copied, or it is in program memory already
    ensures golden_copied { (s : Store) (three : Bool) → is_set_to s.app 0 golden_version ≡ false → sound s 0 ≡ true
        → BootEnds (golden_boot s three) (kept_runs s 0 golden_version)
        (golden_started (blanked s) (kept_runs s 0 golden_version) three) }
    ensures golden_stays { (s : Store) (app : App) (three : Bool) → s.app ≡ Some app
        → is_set_to (Some app) 0 golden_version ≡ true
        → BootEnds (golden_boot s three) (golden_runs app) (golden_started s (golden_runs app) three) }
{}

/// A start leaves kept images and the order unchanged. It runs golden, what program memory was Set to, or the ordered image. It
/// ends with program memory Set to what runs, or blank if that is golden.
pub fn a_start_ends()
    ensures { (cause : StartCause) (s : Store) → Boots s (boot cause s) }
{}

/// If the first pages of an image are kept, its next page may be sealed, and so may all missing pages, one after the other.
/// With the last one the image is whole.
pub fn a_row_is_filled_page_by_page()
    ensures next { (row : Row) (n : ℕ) → IsRow row → n < length (object row)
        → may_seal row.image (held_to row n) (slice_index_or (object row) n []) ≡ true }
    ensures more { (row : Row) (n : ℕ) → n < length (object row)
        → with_page (held_to row n) (slice_index_or (object row) n []) ≡ held_to row (n + 1) }
    ensures whole { (row : Row) → held_to row (length (object row)) ≡ held_whole row }
    ensures rest { (row : Row) (s : Store) (n : ℕ) → IsRow row → row.image < length s.kept
        → held s row.image ≡ Some (held_to row n) → FitAll row.image (drop n (object row)) s }
    // the same if the profile and page 0 are the row's, whatever the other pages are
    ensures part { (row : Row) (h : Held) (s : Store) → IsRow row → PartOf row h → row.image < length s.kept
        → held s row.image ≡ Some h
        → FitAll row.image (drop (length h.complete) (object row)) s }
{
    a_descriptor_is_tested();
}

/// A lookup in a table of images finds a row of that image version. It is sound, and its pages may be sealed one after the
/// other.
pub fn a_table_holds_sound_rows()
    ensures image_version { (table : List Row) (image version : ℕ) (row : Row) → row_at table image version ≡ Some row
        → (row.image ≡ image) × (row.version ≡ version) }
    ensures row { (table : List Row) (image version : ℕ) (row : Row) → IsTable table → row_at table image version ≡ Some row
        → IsRow row }
    ensures sound { (table : List Row) → IsTable table → SoundRows table }
    ensures fit { (table : List Row) → IsTable table → RowsFit table }
{
    a_descriptor_is_tested();
}

/// If a store has an image in program memory, the chip's program memory holds its pages.
pub fn program_memory_holds_the_app()
    ensures { (c : List ℕ) (s : Store) (app : App) → Stands c s → s.app ≡ Some app → program c (length app.pages) ≡ app.pages }
{}
