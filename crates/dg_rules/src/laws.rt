//! What holds of worlds and of runs. These functions do nothing: their contracts are the laws.
ghost use Rattle.std.specs.Prelude.{◌≡◌, ℕ, ◌<◌, Bool, false, List, [], ◌∷◌, ◌++◌, length, replicate};
ghost use Rattle.std.specs.List.{AllByRecursion};
ghost use Rattle.dg_nor.specs.Trail.{Trail, Leaves};
ghost use Rattle.dg_nor.specs.Through.{Through};
ghost use Rattle.dg_object.specs.Object.{Row};
ghost use Rattle.dg_volume.specs.Store.{Store, IsNear, golden_row, fresh};
ghost use Rattle.dg_volume.specs.Agreement.{Agrees};
ghost use Rattle.dg_frame.specs.Sizes.{narrow_images};
ghost use Rattle.dg_rules.specs.World.{World, wide_at, first_world};
ghost use Rattle.dg_rules.specs.Steps.{WorldStep, DeclareStep, EndsRun};
ghost use Rattle.dg_rules.specs.Events.{Refuses, does};
ghost use Rattle.dg_rules.specs.Runs.{Played, Plays, EachAfter};
ghost use Rattle.dg_rules.specs.Promises.{IsLegal, KeepsAll, GoldenStays, StartsDoes, StartsRow, StopsAgree};
ghost use Rattle.dg_script.specs.Ranges.{IsDeclared, EventInRange, StepInRange};
ghost use Rattle.dg_rules.specs.Premises.{WorldAgrees, WorldTimely, HonestEvent, IsHonestThen, TrueEvent, LeavesAgreement};
ghost use Rattle.dg_rules.specs.Begins.{PlaysFrom, StoresAgree, HoldsTo, HoldsToThen, PlaysBoards};
ghost use Rattle.dg_rules.specs.Consistency.{WorldConsistent, LeavesConsistent, StartsSoundDoes, StartsSound, StopsConsistent};
ghost use Rattle.dg_rules.specs.Golden.{WorldKeepsGolden, FindsImage, GoldenNetwork, network_row, network_world, PlaysGolden};
ghost use Rattle.dg_base.specs.declared.events.Event.{Event};
ghost use Rattle.dg_base.specs.declared.events.Event.TheVariants.{Inject, Order};
ghost use Rattle.dg_base.specs.declared.events.Step.{Step};
ghost use Rattle.dg_script.specs.declared.report.Cause.TheVariants.{Image};
ghost use Rattle.dg_script.specs.declared.report.Report.{Report};

use dg_frame::{one_reading, one_spelling};
use dg_mote::{
    a_frame_is_heard_in_silence, a_mote_keeps_consistency, a_mote_stays_timely, a_mote_stays_well,
    a_restart_is_for_the_order, packets_come_in_frames, what_a_mote_may_change,
    what_is_sent_is_read,
};
use dg_volume::{
    a_start_ends, a_whole_image_is_sound, trails_keep_agreement, trails_keep_consistency,
};

/// No step, no declaration and no start that ends the run changes which motes are narrow.
pub fn widths_stay()
    ensures stepped { (w v : World) (x : Step) (reports : List Report) → WorldStep w x v reports → v.narrow ≡ w.narrow }
    ensures ended { (w v : World) (x : Step) → EndsRun w x v → v.narrow ≡ w.narrow }
    ensures declared { (w v : World) (row : Row) (reports : List Report) → DeclareStep w row v reports → v.narrow ≡ w.narrow }
    ensures played { (w v : World) (played : List Played) → Plays w played v → v.narrow ≡ w.narrow }
{}

/// A narrow mote accepts no image that its frames do not speak of: an injection and an order of one are refused with the image as
/// the cause, whatever else is wrong.
pub fn narrow_motes_know_few_images()
    ensures injects { (w : World) (m image version dt word : ℕ) → wide_at w m ≡ false → narrow_images < image
        → does w (Inject m image version dt word) ≡ Refuses Image }
    ensures orders { (w : World) (m number image version dt word : ℕ) → wide_at w m ≡ false → narrow_images < image
        → does w (Order m number image version dt word) ≡ Refuses Image }
{}

/// A store that a cut leaves on a trail of agreeing stores agrees.
pub fn what_a_cut_leaves_agrees()
    ensures { (table : List Row) (t : Trail Store) (k : ℕ) (s : Store) → Through (Agrees table) t → Leaves IsNear t k s
        → Agrees table s }
{}

/// A world that agrees with its table still does after a declaration, and after a step, also a cut one, that meets two premises.
/// A frame from outside is honest. What is injected is the table's row, if the rules take the injection and the table has its
/// image version. Wherever a stop comes in such an event, each store that the chip may then stand for agrees with the table after
/// the event. Whatever frames come, no moment of a mote that is on is later than the world's.
pub fn agreement_is_kept()
    ensures stepped { (w v : World) (x : Step) (reports : List Report) → WorldAgrees w → StepInRange (length w.sites) x
        → TrueEvent w x.event → WorldStep w x v reports → WorldAgrees v }
    ensures stopped { (w : World) (e : Event) → WorldAgrees w → EventInRange (length w.sites) e → TrueEvent w e → StopsAgree w e }
    ensures declared { (w v : World) (row : Row) (reports : List Report) → WorldAgrees w → IsDeclared row
        → DeclareStep w row v reports → WorldAgrees v }
    ensures timely { (w v : World) (x : Step) (reports : List Report) → WorldTimely w → StepInRange (length w.sites) x
        → WorldStep w x v reports → WorldTimely v }
{
    trails_keep_agreement();
    a_start_ends();
    a_mote_stays_well();
    a_mote_stays_timely();
    what_is_sent_is_read();
    a_restart_is_for_the_order();
    one_reading();
    one_spelling();
}

/// What an event starts is a row of the table, with the length and CRC that are reported.
pub fn what_starts_is_a_row()
    ensures { (w : World) (e : Event) → WorldAgrees w → EventInRange (length w.sites) e → StartsDoes (does w e) w.table }
{
    a_whole_image_is_sound();
    a_restart_is_for_the_order();
}

/// If every mote keeps golden whole, each still does after a step, also a cut one. Every start finds an image then, so that no
/// event ends the run. This asks neither for agreement with a table nor for honest frames.
pub fn golden_is_found()
    ensures stepped { (w v : World) (x : Step) (reports : List Report) → WorldKeepsGolden w → StepInRange (length w.sites) x
        → WorldStep w x v reports → WorldKeepsGolden v }
    ensures found { (w : World) (e : Event) → WorldKeepsGolden w → EventInRange (length w.sites) e → FindsImage (does w e) }
    ensures goes_on { (w v : World) (x : Step) → WorldKeepsGolden w → StepInRange (length w.sites) x → EndsRun w x v → ⊥ }
{
    a_start_ends();
    a_whole_image_is_sound();
    what_a_mote_may_change();
    packets_come_in_frames();
    a_frame_is_heard_in_silence();
    a_restart_is_for_the_order();
}

/// A run of true events begins in a world that agrees with its table and in which no mote is on. Then each step is legal after
/// those before it, each item keeps agreement and starts only rows of the table, and no version falls. If the next event is true
/// too, each store that the chip may stand for after a stop in it, wherever the stop comes, agrees with the table after it.
pub fn every_step_is_legal()
    ensures legal { (w v : World) (played : List Played) → PlaysFrom w played v → EachAfter IsLegal [] played }
    ensures agrees { (w v : World) (played : List Played) → PlaysFrom w played v → AllByRecursion LeavesAgreement played
        × WorldAgrees v }
    ensures starts { (w v : World) (played : List Played) → PlaysFrom w played v → AllByRecursion StartsRow played }
    ensures keeps { (w v : World) (played : List Played) → PlaysFrom w played v → AllByRecursion KeepsAll played }
    ensures halves { (w v : World) (played : List Played) (e : Event) → PlaysFrom w played v
        → EventInRange (length w.sites) e → TrueEvent v e → StopsAgree v e }
{
    agreement_is_kept();
    what_starts_is_a_row();
    versions_do_not_fall();
    a_start_ends();
    a_whole_image_is_sound();
    what_a_mote_may_change();
    packets_come_in_frames();
    a_frame_is_heard_in_silence();
    a_restart_is_for_the_order();
}

/// In a legal step no version falls, and no complete page is lost except to a newer version. Golden stays unchanged.
pub fn versions_do_not_fall()
    ensures versions { (past : List Played) (p : Played) → IsLegal past p → KeepsAll p }
    ensures golden { (past : List Played) (p : Played) → IsLegal past p → GoldenStays p }
{}

/// If every store is consistent, each still is after a step, also a cut one, and after a declaration, whatever bytes a frame
/// carries. Wherever a stop comes in an event, each store that the chip may then stand for is consistent. What an event starts is
/// golden, or fits its own descriptor.
pub fn consistency_is_kept()
    ensures stepped { (golden : Row) (w v : World) (x : Step) (reports : List Report) → WorldConsistent golden w
        → StepInRange (length w.sites) x → WorldStep w x v reports → WorldConsistent golden v }
    ensures stopped { (golden : Row) (w : World) (e : Event) → WorldConsistent golden w → EventInRange (length w.sites) e
        → StopsConsistent golden w e }
    ensures declared { (golden : Row) (w v : World) (row : Row) (reports : List Report) → WorldConsistent golden w
        → IsDeclared row → DeclareStep w row v reports → WorldConsistent golden v }
    ensures starts { (golden : Row) (w : World) (e : Event) → WorldConsistent golden w → EventInRange (length w.sites) e
        → StartsSoundDoes golden (does w e) }
{
    trails_keep_consistency();
    a_start_ends();
    a_mote_keeps_consistency();
    a_restart_is_for_the_order();
}

/// In a script with golden, whatever bytes its frames carry and wherever its power is cut, every store is consistent at the end
/// of each event, also of one that was stopped. What starts is golden, or fits its own descriptor.
pub fn any_frames_leave_stores_consistent()
    ensures kept { (g : GoldenNetwork) (played : List Played) (v : World) → PlaysGolden g played v
        → AllByRecursion (LeavesConsistent (network_row g)) played × WorldConsistent (network_row g) v }
    ensures starts { (g : GoldenNetwork) (played : List Played) (v : World) → PlaysGolden g played v
        → AllByRecursion (StartsSound (network_row g)) played }
    ensures halves { (g : GoldenNetwork) (played : List Played) (v : World) (e : Event) → PlaysGolden g played v
        → EventInRange g.motes e → StopsConsistent (network_row g) v e }
{
    trails_keep_consistency();
    consistency_is_kept();
}

/// A script with golden, over freshly formatted chips. However much of it was played, the next event finds an image to start. If
/// each frame from outside is honest by the table of its moment, each step is legal, versions do not fall, and what starts is a
/// row of the table. The chips, the motes that are on and the frames that were sent agree with the table then. If the next event
/// is honest too, each store that the chip may stand for after a stop in it, wherever the stop comes, agrees with the table after
/// it.
pub fn scripts_with_golden()
    ensures legal { (g : GoldenNetwork) (played : List Played) (v : World) → PlaysGolden g played v
        → AllByRecursion IsHonestThen played → EachAfter IsLegal [] played }
    ensures keeps { (g : GoldenNetwork) (played : List Played) (v : World) → PlaysGolden g played v
        → AllByRecursion IsHonestThen played → AllByRecursion KeepsAll played }
    ensures starts { (g : GoldenNetwork) (played : List Played) (v : World) → PlaysGolden g played v
        → AllByRecursion IsHonestThen played → AllByRecursion StartsRow played }
    ensures agrees { (g : GoldenNetwork) (played : List Played) (v : World) → PlaysGolden g played v
        → AllByRecursion IsHonestThen played → AllByRecursion LeavesAgreement played × WorldAgrees v }
    ensures found { (g : GoldenNetwork) (played : List Played) (v : World) (e : Event) → PlaysGolden g played v
        → EventInRange g.motes e → FindsImage (does v e) }
    ensures halves { (g : GoldenNetwork) (played : List Played) (v : World) (e : Event) → PlaysGolden g played v
        → AllByRecursion IsHonestThen played → EventInRange g.motes e → HonestEvent v.table e → StopsAgree v e }
    // each row of the table except golden was declared, so that it is played from a world that agrees, and every event is true
    ensures plays { (g : GoldenNetwork) (played : List Played) (v : World) → PlaysGolden g played v
        → AllByRecursion IsHonestThen played → PlaysFrom (network_world g) played v }
    // and what is played further from there, with true events, is played of a script with golden, over honest frames
    ensures more { (g : GoldenNetwork) (played more : List Played) (w v : World) → PlaysGolden g played w
        → PlaysFrom (network_world g) (played ++ more) v
        → PlaysGolden g (played ++ more) v × AllByRecursion IsHonestThen (played ++ more) }
{
    every_step_is_legal();
    golden_is_found();
    a_restart_is_for_the_order();
}

/// A script over chips as they are, which agree with a table. Each event holds to it: a frame from outside is honest, and no
/// image version of the table is injected with another content, unless the rules refuse it. Then each step is legal, versions do
/// not fall, and what starts is a row of the table. The chips, the motes that are on and the frames that were sent agree with the
/// table. If the next event holds to it too, each store that the chip may stand for after a stop in it, wherever the stop comes,
/// agrees with the table after it.
pub fn scripts_with_boards()
    ensures legal { (table : List Row) (stores : List Store) (links : List (ℕ × ℕ)) (narrow : List Bool)
        (played : List Played) (v : World) → PlaysBoards table stores links narrow played v
        → StoresAgree table stores → AllByRecursion (HoldsToThen table) played → EachAfter IsLegal [] played }
    ensures keeps { (table : List Row) (stores : List Store) (links : List (ℕ × ℕ)) (narrow : List Bool)
        (played : List Played) (v : World) → PlaysBoards table stores links narrow played v
        → StoresAgree table stores → AllByRecursion (HoldsToThen table) played → AllByRecursion KeepsAll played }
    ensures starts { (table : List Row) (stores : List Store) (links : List (ℕ × ℕ)) (narrow : List Bool)
        (played : List Played) (v : World) → PlaysBoards table stores links narrow played v
        → StoresAgree table stores → AllByRecursion (HoldsToThen table) played → AllByRecursion StartsRow played }
    ensures agrees { (table : List Row) (stores : List Store) (links : List (ℕ × ℕ)) (narrow : List Bool)
        (played : List Played) (v : World) → PlaysBoards table stores links narrow played v
        → StoresAgree table stores → AllByRecursion (HoldsToThen table) played → AllByRecursion LeavesAgreement played
        × WorldAgrees v }
    ensures halves { (table : List Row) (stores : List Store) (links : List (ℕ × ℕ)) (narrow : List Bool)
        (played : List Played) (v : World) (e : Event) → PlaysBoards table stores links narrow played v
        → StoresAgree table stores → AllByRecursion (HoldsToThen table) played → EventInRange (length stores) e
        → HoldsTo table v e → StopsAgree v e }
    ensures plays { (table : List Row) (stores : List Store) (links : List (ℕ × ℕ)) (narrow : List Bool)
        (played : List Played) (v : World) → PlaysBoards table stores links narrow played v
        → StoresAgree table stores → AllByRecursion (HoldsToThen table) played
        → PlaysFrom (first_world table links narrow stores) played v }
{
    every_step_is_legal();
    a_restart_is_for_the_order();
}
