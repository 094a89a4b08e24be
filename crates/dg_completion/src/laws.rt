//! What rounds and sweeps bring about in a world. These functions do nothing: their contracts are the laws.
ghost use Rattle.std.specs.Prelude.{ℕ, ◌+◌, List, [], ◌++◌};
ghost use Rattle.std.specs.List.{AllByRecursion};
ghost use Rattle.dg_base.specs.declared.events.Event.{Event};
ghost use Rattle.dg_rounds.specs.Rounds.{sweep, times};
ghost use Rattle.dg_completion.specs.Rests.{IsFree, IsRest};
ghost use Rattle.dg_completion.specs.Completion.{FreeLaw, RoundLaw, PipelineLaw, CompletionLaw};
ghost use Rattle.dg_completion.specs.Holders.{WithinLaw, EnoughLaw, OneEnoughLaw};
ghost use Rattle.dg_completion.specs.Ends.{PlayedLaw, EndsLaw, EndsPipelineLaw};
ghost use Rattle.dg_completion.specs.Met.{AppliesLaw, SpendLaw, MetLaw, GoesOnLaw};
ghost use Rattle.dg_completion.specs.Played.{DrainedLaw, RoundsBring, RoundsLaw};

use dg_mote::{
    a_drained_mote_advertises, a_drained_mote_asks, a_drained_mote_serves, a_mote_drains,
    a_mote_stays_well, a_page_comes, a_restart_is_for_the_order, what_a_mote_may_change,
    what_is_sent_is_read,
};
use dg_rules::{agreement_is_kept, every_step_is_legal};
use dg_volume::{a_start_ends, a_table_holds_sound_rows, acts_end, starts_end, trails_begin};

/// Sweeps in a row are a rest, and ticks and heard frames are a rest of no sweeps. Rests that follow one another are one rest.
pub fn sweeps_are_a_rest()
    ensures swept { (links : List (ℕ × ℕ)) (n : ℕ) → IsRest links n (times n (sweep links)) }
    ensures free { (links : List (ℕ × ℕ)) (es : List Event) → AllByRecursion IsFree es → IsRest links 0 es }
    ensures joined { (links : List (ℕ × ℕ)) (m n : ℕ) (es fs : List Event) → IsRest links m es → IsRest links n fs
        → IsRest links (m + n) (es ++ fs) }
{}

/// A tick or a heard frame, at any moment and with any word, keeps a world in agreement with its table. The table, the links, the
/// narrow motes and those that are on stay, room does not grow, and no page of the newest version of an image is lost.
pub fn a_free_event_keeps_a_good_world()
    ensures { FreeLaw }
{
    agreement_is_kept();
    a_mote_stays_well();
    a_restart_is_for_the_order();
    what_a_mote_may_change();
    a_start_ends();
    starts_end();
    a_table_holds_sound_rows();
}

/// A round from a mote to its neighbour, both wide or both narrow, brings the neighbour one page. It is of the lowest image in
/// which the first mote is ahead, of those that such motes speak of. Nothing else that is kept changes.
pub fn a_round_raises()
    ensures { RoundLaw }
{
    a_free_event_keeps_a_good_world();
    a_mote_stays_well();
    what_is_sent_is_read();
    a_mote_drains();
    a_drained_mote_advertises();
    a_drained_mote_asks();
    a_drained_mote_serves();
    a_page_comes();
}

/// The 50 ticks with which a round begins bring a mote to rest: it is drained afterwards, and what it keeps is unchanged.
pub fn a_round_brings_a_mote_to_rest()
    ensures { DrainedLaw }
{
    a_free_event_keeps_a_good_world();
    a_mote_stays_well();
    what_is_sent_is_read();
    a_mote_drains();
}

/// In a rest each sweep brings every page one link further. After t sweeps a mote within j links of a whole image has t + 1 - j
/// pages of it, or all, if every smaller image is whole everywhere. The premise is that all motes are wide, or that all are
/// narrow and no image that such motes do not speak of has a row.
pub fn sweeps_fill_the_pipeline()
    ensures { PipelineLaw }
{
    a_free_event_keeps_a_good_world();
    a_round_raises();
}

/// After a rest of enough sweeps every mote keeps the newest version of every image whole. The premise is that all motes are
/// wide, or that all are narrow and no image that such motes do not speak of has a row. Nothing is promised of mixed networks.
pub fn enough_sweeps_complete()
    ensures { CompletionLaw }
{
    a_free_event_keeps_a_good_world();
    a_round_raises();
}

/// How far all motes are from one that keeps a row whole, in links, and how many sweeps are enough. If for each image that has a
/// row a path leads to every mote from one that keeps the newest row whole, there is exactly one number of sweeps that is called
/// enough.
pub fn distances_are_paths()
    ensures within { WithinLaw }
    ensures enough { EnoughLaw }
    ensures one { OneEnoughLaw }
{}

/// A run of true events begins in a world that agrees with its table. If it ends with a rest of enough sweeps, every mote keeps
/// the newest version of each image whole. If the sweeps are fewer, each brings every page one link further, provided that every
/// smaller image is whole everywhere. Both have the premise that all motes are wide, or that all are narrow and no image that
/// such motes do not speak of has a row. Free events that were played without a cut are a run of these events.
pub fn scripts_end_complete()
    ensures completes { EndsLaw }
    ensures pipeline { EndsPipelineLaw }
    ensures played { PlayedLaw }
{
    a_free_event_keeps_a_good_world();
    every_step_is_legal();
    sweeps_fill_the_pipeline();
    enough_sweeps_complete();
}

/// A round was played somewhere in a run of true events from a world that agrees with its table, and no power was cut in it. Then
/// its first ticks brought its mote to rest. A complete round between two wide motes, or two narrow ones, brought the second a
/// page of the lowest image in which the first was ahead.
pub fn rounds_of_scripts_bring_pages()
    ensures brings { RoundsLaw }
    ensures nothing { RoundsBring [] }
{
    every_step_is_legal();
    a_round_brings_a_mote_to_rest();
    a_round_raises();
}

/// From a world that agrees with its table a tick or a heard frame always leads to a world. It makes no more than three
/// commits, all of them at its mote.
pub fn a_free_event_can_be_applied()
    ensures applies { AppliesLaw }
    ensures spends { SpendLaw }
{
    agreement_is_kept();
    a_mote_stays_well();
    a_restart_is_for_the_order();
    what_a_mote_may_change();
    a_start_ends();
    starts_end();
    a_table_holds_sound_rows();
    acts_end();
    trails_begin();
}

/// The premises of completion can be met: if every mote is on, all are of one width, and each has room for what it may commit, a
/// rest can be applied.
pub fn a_rest_can_be_applied()
    ensures { MetLaw }
{
    a_free_event_keeps_a_good_world();
    a_free_event_can_be_applied();
}

/// A run of true events from a world that agrees with its table can continue with a rest. If every mote is on, all are of one
/// width, and each has room for what it may commit, these items can be played. The run then ends with a rest of this many sweeps.
pub fn a_script_goes_on_with_a_rest()
    ensures { GoesOnLaw }
{
    every_step_is_legal();
    a_free_event_keeps_a_good_world();
    a_free_event_can_be_applied();
}
