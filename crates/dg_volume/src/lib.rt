//! A volume on a chip: what it keeps of each image, what is in program memory, and the order.
#![tactic(auto)]

mod committing;
mod comparing;
mod faults;
mod filling;
mod formatting;
mod injecting;
mod laws;
mod layout;
mod lending;
mod migrating;
mod mounting;
mod new_image;
mod ordering;
mod remounting;
mod slot_filling;
mod taking;
mod telling;
mod volume;

pub use dg_control::{FORM, OLD_FORM, Order, Program, SlotState, Snapshot};
pub use injecting::{differs_from_kept, injection_fault};
pub use laws::{
    a_chip_stands_for_a_shaped_store, a_chip_stands_for_one_store, a_lent_slot_is_filled,
    a_row_is_filled_page_by_page, a_slot_is_written_alone, a_start_ends, a_table_holds_sound_rows,
    a_volume_bounds_a_remount, a_volume_has_one_form, a_volume_has_these_sizes,
    a_volume_is_mounted_in_one_way, a_whole_image_is_sound, acts_end, an_agreeing_store_keeps_rows,
    program_memory_holds_the_app, starts_end, trails_begin, trails_join, trails_keep_agreement,
    trails_keep_consistency, trails_of_one_stage, what_is_after_the_commits_does_not_count,
};
pub use new_image::NewImage;
pub use taking::TAKE_COMMITS;
pub use volume::{
    FormatFault, InjectFault, Injected, Kept, MountFault, OrderFault, StartCause, TakeFault, Volume,
};
