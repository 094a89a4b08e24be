//! What holds of the verbs. The function does nothing: its contract is the law.
ghost use Rattle.std.specs.Prelude.{◌≡◌, length};
ghost use Rattle.dg_object.specs.Object.{Row, IsRow};
ghost use Rattle.dg_volume.specs.Start.{length_in};
ghost use Rattle.dg_volume.specs.Store.{held_whole};
ghost use Rattle.dg_tool.specs.Pages.{name_in, first_page, image_bytes};

/// Of an image that is kept whole, `ping` reports the name that it was given, and `dump` writes the bytes.
pub fn a_whole_image_tells_its_row()
    ensures name { (row : Row) → IsRow row → name_in (first_page (held_whole row)) ≡ row.name }
    ensures length { (row : Row) → IsRow row → length_in (first_page (held_whole row)) ≡ length row.bytes }
    ensures bytes { (row : Row) → IsRow row → image_bytes (held_whole row) ≡ row.bytes }
{}
