//! Plays the items of a line: an image that is declared, and an event.
ghost use Rattle.std.specs.Prelude.{◌≡◌, ◌∷◌, ◌++◌, [], List, Err, map, length, OnOk, OnErr, option_copied};
ghost use Rattle.dg_nor.specs.Device.{Device};
ghost use Rattle.dg_object.specs.Object.{row_of};
ghost use Rattle.dg_script.specs.Items.{Declares, Applies};
ghost use Rattle.dg_script.specs.Report.{report_text};
ghost use Rattle.dg_rules.specs.Sizes.{most_events};
ghost use Rattle.dg_rules.specs.World.{World as RuleWorld};
ghost use Rattle.dg_script.specs.Ranges.{IsDeclared, StepInRange};
ghost use Rattle.dg_world.specs.Worlds.{IsWorld};
ghost use Rattle.dg_world.specs.Applying.{step_of};
ghost use Rattle.dg_world.specs.Boards.{WorldStands};
ghost use Rattle.dg_replay.specs.Playing.{ItemsPlayedAs, KeepsMotes};
ghost use Rattle.dg_replay.specs.Stages.{told_so_far, boards_told};
ghost use Rattle.dg_replay.specs.Untouched.{KeepBytes};

use crate::stop::Stop;
use crate::watching::Watcher;
use dg_base::{Bytes, Cut, Event};
use dg_lines::write_report;
use dg_nor::Nor;
use dg_script::Report;
use dg_world::{DeclareFault, World, WorldFault};
use std::alloc::AllocError;

/// What is reported of a line that is played, in buffers that the next line uses again.
#[derive(Drop)]
pub struct LineReport {
    /// What one item of it reports.
    pub reports: Vec<Report>,
    /// The text of all that it reports.
    pub text: Vec<u8>,
}

/// Appends the text of report lines.
pub fn push_reports(text: &mut Vec<u8>, reports: &[Report]) -> Result<(), AllocError>
    ensures { OnOk result (text.new.items ≡ text.old.items ++ report_text reports.now) }
{
    for report in reports {
        write_report(report, text)?;
    }
    Ok(())
}

/// Appends the text of what an item reports.
fn append_text(line_report: &mut LineReport) -> Result<(), Stop>
    ensures reported { OnOk result (line_report.new.text.items ≡ line_report.old.text.items
        ++ report_text line_report.old.reports.items) }
    ensures memory { OnErr result (result ≡ Err Stop.Memory) }
{
    // Most events of a round report nothing.
    if line_report.reports.is_empty() {
        return Ok(());
    }
    match push_reports(&mut line_report.text, &line_report.reports) {
        Ok(()) => Ok(()),
        Err(AllocError) => Err(Stop::Memory),
    }
}

/// Declares an image.
pub fn play_image<N: Nor, W: Watcher<N>>(
    world: &mut World,
    image: u8,
    version: u32,
    name: Bytes,
    content: Bytes,
    line_report: &mut LineReport,
    watcher: &mut W,
) -> Result<(), Stop>
    requires fits { IsDeclared (row_of image version name content) }
    ensures played { (boards initial : List Device) (w : RuleWorld) → IsWorld world.old boards w → WorldStands w initial boards
        → ItemsPlayedAs result w (Declares (row_of image version name content) ∷ []) world.new initial
        (told_so_far line_report.old.text.items (W.saw watcher.old initial boards))
        (boards_told boards (told_so_far line_report.new.text.items (W.saw watcher.new initial boards))) }
{
    line_report.reports.clear();
    match world.declare(image, version, name, content) {
        Ok(()) => Ok(()),
        Err(DeclareFault::Memory) => Err(Stop::Memory),
        Err(DeclareFault::Taken) => match line_report
            .reports
            .push(Report::Taken { image, version })
        {
            Ok(()) => {
                watcher.taken();
                append_text(line_report)
            }
            Err(_) => Err(Stop::Memory),
        },
    }
}

/// Plays an event with the cut that waits for it. Its frame is reported if `reported` is true.
#[inline(always)]
pub fn play_event<N: Nor, W: Watcher<N>>(
    world: &mut World,
    event: &Event,
    cut: Option<&Cut>,
    reported: bool,
    boards: &mut Vec<N>,
    line_report: &mut LineReport,
    watcher: &mut W,
) -> Result<(), Stop>
    requires { (w : RuleWorld) × IsWorld world.old (map N.device boards.old.items) w
        × StepInRange (length w.sites) (step_of event.now (option_copied cut)) }
    ensures goes_on { KeepsMotes result world.old world.new (map N.device boards.old.items) (map N.device boards.new.items) }
    ensures full { (w : RuleWorld) → IsWorld world.old (map N.device boards.old.items) w → w.events ≡ most_events
        → result ≡ Err Stop.TooMany }
    ensures played { (w : RuleWorld) (initial : List Device) → IsWorld world.old (map N.device boards.old.items) w
        → WorldStands w initial (map N.device boards.old.items)
        → ItemsPlayedAs result w (Applies (step_of event.now (option_copied cut.entry)) reported ∷ []) world.new initial
        (told_so_far line_report.old.text.items (W.saw watcher.old initial (map N.device boards.old.items)))
        (boards_told (map N.device boards.new.items)
        (told_so_far line_report.new.text.items (W.saw watcher.new initial (map N.device boards.new.items)))) }
    ensures kept { KeepBytes (Applies (step_of event.now (option_copied cut.entry)) reported ∷ []) (map N.device boards.old.items)
        (map N.device boards.new.items) }
{
    line_report.reports.clear();
    match world.apply_parts(boards, event, cut, reported, &mut line_report.reports) {
        Ok(()) => {
            let reports = &line_report.reports;
            watcher.applied(world, event, boards.as_slice(), reported, reports);
            append_text(line_report)
        }
        Err(WorldFault::Memory) => Err(Stop::Memory),
        Err(WorldFault::Flash { .. }) => Err(Stop::FlashFault),
        Err(WorldFault::TooMany) => Err(Stop::TooMany),
        Err(WorldFault::NotAVolume) => Err(Stop::NotAVolume),
        Err(WorldFault::NoImage) => {
            watcher.ended(event, boards.as_slice());
            Err(Stop::NoImage)
        }
    }
}
