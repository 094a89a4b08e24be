//! Bounded completion: how many sweeps of rounds bring every page of the newest images to every mote of a world.
//!
//! As in Deluge (Hui and Culler, SenSys 2004), pages go over many hops as in a pipeline: a mote forwards the first pages
//! of an image before it has the last.
#![tactic(auto)]

mod laws;

pub use laws::{
    a_free_event_can_be_applied, a_free_event_keeps_a_good_world, a_rest_can_be_applied,
    a_round_brings_a_mote_to_rest, a_round_raises, a_script_goes_on_with_a_rest,
    distances_are_paths, enough_sweeps_complete, rounds_of_scripts_bring_pages,
    scripts_end_complete, sweeps_are_a_rest, sweeps_fill_the_pipeline,
};
