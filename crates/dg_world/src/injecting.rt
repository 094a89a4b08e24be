//! An image is injected.
ghost use Rattle.std.specs.Prelude.{◌≡◌, ◌≢◌, ◌==◌, ◌^◌, ◌<◌, ◌≤◌, ℕ, if◌then◌else◌, List, Option, Some, Err, Ok, OnOk, OnErr};
ghost use Rattle.std.specs.Prelude.{IsTrue, IsSomeAnd, length};
ghost use Rattle.dg_object.specs.Object.{Row};
ghost use Rattle.dg_volume.specs.Sizes.{images};
ghost use Rattle.dg_volume.specs.Store.{Store};
ghost use Rattle.dg_volume.specs.Stands.{NothingLent, Mounted};
ghost use Rattle.dg_volume.specs.Table.{row_at};
ghost use Rattle.dg_rules.specs.World.{World as RuleWorld, Running, site, wide_at};
ghost use Rattle.dg_rules.specs.Events.{Refuses, reloaded, inject_cause, inject_row, knows, injects};
ghost use Rattle.dg_shared.specs.Images.{Declares, row_of_image};
ghost use Rattle.dg_shared.specs.Shareds.{IsShared};
ghost use Rattle.dg_world.specs.Worlds.{MoteStands, SiteStands, MayRun};
ghost use Rattle.dg_world.specs.inner.OutcomeEndings.{OutcomeEnds};
ghost use Rattle.dg_node.specs.Hosts.{host};
ghost use Rattle.dg_shared.specs.Unseen.{RefusesUnseen};
ghost use Rattle.dg_world.specs.inner.Outcomes.{IsNothing, as_outcome, outcome_of};
ghost use Rattle.dg_world.specs.inner.Sees.{SeesInjected, InjectReads};
ghost use Rattle.dg_node.specs.Known.{IsKnownChip, SeesOrder};

use crate::act_outcomes::{act_fault, note_injected};
use crate::outcome::{Fault, Outcome};
use dg_node::{ImageBytes, Node};
use dg_nor::Nor;
use dg_rules::{Cause, ImageVersion};
use dg_shared::{EventContext, Image};

/// Injects an image.
fn inject_image<N: Nor>(
    context: &EventContext<'_>,
    runs: &mut Option<Node>,
    image_version: ImageVersion,
    image: &Image,
    word: u32,
    board: &mut N,
    outcome: &mut Outcome,
) -> Result<(), Fault>
    requires known_image { image_version.image < images }
    requires some_version { 1 ≤ image_version.version }
    requires mote { MayRun (N.device board.old).image context.now.moment runs.old }
    requires known_chip { IsTrue context.now.known → IsKnownChip (N.device board.old).image }
    requires nothing { IsNothing outcome.old }
    ensures ends { (w : RuleWorld) (m : ℕ) → SiteStands (N.device board.old) runs.old (site w m)
        → OutcomeEnds (as_outcome result outcome.new) w m
        (inject_row w m (Some (row_of_image image_version image.now)) context.now.moment word)
        (host (N.device board.old) runs.old) (host (N.device board.new) runs.new) }
    ensures sees { OnOk result (IsSomeAnd outcome.new.orderly (λ orderly. SeesOrder orderly (N.device board.new).image)) }
    ensures reads { OnOk result (InjectReads context.now.known outcome.new.refused (N.device board.old) (N.device board.new)) }
    ensures same_reference { (N.device board.new).references ≡ (N.device board.old).references }
{
    let bytes = ImageBytes {
        image_version,
        name: image.name.as_slice(),
        bytes: image.content.as_slice(),
    };
    match Node::inject(runs, board, context.known, &bytes, context.moment, word) {
        Ok(injected) => {
            note_injected(injected, bytes.bytes.len(), outcome);
            Ok(())
        }
        Err(fault) => Err(act_fault(fault, outcome)),
    }
}

/// Injects this version of an image, if it was declared.
fn inject<N: Nor>(
    context: &EventContext<'_>,
    runs: &mut Option<Node>,
    image_version: ImageVersion,
    word: u32,
    board: &mut N,
    outcome: &mut Outcome,
) -> Result<(), Fault>
    requires known_image { image_version.image < images }
    requires some_version { 1 ≤ image_version.version }
    requires mote { MayRun (N.device board.old).image context.now.moment runs.old }
    requires known_chip { IsTrue context.now.known → IsKnownChip (N.device board.old).image }
    requires nothing { IsNothing outcome.old }
    ensures ends { (w : RuleWorld) (m : ℕ) → Declares context.now.shared.now.images w.declared
        → SiteStands (N.device board.old) runs.old (site w m)
        → OutcomeEnds (as_outcome result outcome.new) w m
        (if image_version.image == 0 then Refuses Cause.Reserved else inject_row w m
        (row_at w.declared image_version.image image_version.version) context.now.moment word)
        (host (N.device board.old) runs.old) (host (N.device board.new) runs.new) }
    ensures unseen { (w : RuleWorld) (m : ℕ) → Declares context.now.shared.now.images w.declared
        → RefusesUnseen
        (if image_version.image == 0 then Refuses Cause.Reserved else inject_row w m
        (row_at w.declared image_version.image image_version.version) context.now.moment word)
        → (board.new ≡ board.old) × OnErr result ⊥ }
    ensures sees { OnOk result (SeesInjected outcome.new.orderly (outcome_of outcome.new) (N.device board.old).image
        (N.device board.new).image) }
    ensures reads { OnOk result (InjectReads context.now.known outcome.new.refused (N.device board.old) (N.device board.new)) }
    ensures same_reference { (N.device board.new).references ≡ (N.device board.old).references }
{
    if image_version.image == 0 {
        outcome.refused = Some(Cause::Reserved);
        outcome.is_told = true;
        return Ok(());
    }
    match context.shared.images.get(image_version) {
        None => {
            outcome.refused = Some(Cause::Image);
            outcome.is_told = true;
            Ok(())
        }
        Some(image) => inject_image(context, runs, image_version, image, word, board, outcome),
    }
}

/// Injects this version of an image, if the mote knows the image and it was declared.
#[inline(never)]
pub(crate) fn inject_known<N: Nor>(
    context: &EventContext<'_>,
    runs: &mut Option<Node>,
    image_version: ImageVersion,
    word: u32,
    board: &mut N,
    outcome: &mut Outcome,
) -> Result<(), Fault>
    requires known_image { image_version.image < images }
    requires some_version { 1 ≤ image_version.version }
    requires mote { MayRun (N.device board.old).image context.now.moment runs.old }
    requires known_chip { IsTrue context.now.known → IsKnownChip (N.device board.old).image }
    requires nothing { IsNothing outcome.old }
    ensures ends { (w : RuleWorld) → IsShared context.now.shared.now w
        → SiteStands (N.device board.old) runs.old (site w context.now.mote)
        → OutcomeEnds (as_outcome result outcome.new) w context.now.mote
        (if knows (wide_at w context.now.mote) image_version.image
        then injects w context.now.mote image_version.image image_version.version context.now.moment word
        else Refuses Cause.Image)
        (host (N.device board.old) runs.old) (host (N.device board.new) runs.new) }
    ensures unseen { (w : RuleWorld) → IsShared context.now.shared.now w
        → RefusesUnseen (if knows (wide_at w context.now.mote) image_version.image
        then injects w context.now.mote image_version.image image_version.version context.now.moment word
        else Refuses Cause.Image)
        → (board.new ≡ board.old) × OnErr result ⊥ }
    ensures sees { OnOk result (SeesInjected outcome.new.orderly (outcome_of outcome.new) (N.device board.old).image
        (N.device board.new).image) }
    ensures reads { OnOk result (InjectReads context.now.known outcome.new.refused (N.device board.old) (N.device board.new)) }
    ensures same_reference { (N.device board.new).references ≡ (N.device board.old).references }
{
    if !context.shared.knows(context.mote, image_version.image) {
        outcome.refused = Some(Cause::Image);
        outcome.is_told = true;
        return Ok(());
    }
    inject(context, runs, image_version, word, board, outcome)
}
