//! Whether the last lines of a world say that every mote has the image.
ghost use Rattle.std.specs.Prelude.{◌≡◌, ◌≤◌, true, length};
ghost use Rattle.std.specs.List.{list_any};
ghost use Rattle.dg_object.specs.Sizes.{most_bytes};
ghost use Rattle.dg_object.specs.Object.{pages_for};
ghost use Rattle.dg_rehearse.specs.Ended.{TellsEach, TellsOf, tells_kept, tells_on};
ghost use Rattle.dg_rehearse.specs.Turns.{all_motes, tells_of};

use crate::plan::Plan;
use dg_object::pages_of;
use dg_script::Report;

/// Whether lines say that each of this many motes keeps all pages of the image and, if it was ordered, runs it.
pub(crate) fn all_have(reports: &[Report], motes: u8, plan: &Plan) -> bool
    requires fits { length plan.now.content ≤ most_bytes }
    ensures each { result ≡ true → TellsEach motes plan.now reports.now }
    ensures value { result ≡ all_motes (tells_of plan.now reports.now) motes }
{
    let pages = planned_pages(plan);
    for mote in 0..motes {
        if !has(reports, mote, plan, pages) {
            return false;
        }
    }
    true
}

/// How many pages the image of a plan has.
pub(crate) fn planned_pages(plan: &Plan) -> u8
    requires fits { length plan.now.content ≤ most_bytes }
    ensures { result ≡ pages_for (length plan.now.content) }
{
    pages_of(plan.content.as_slice().len() as u32)
}

/// Whether lines say so of one mote. The image has this many pages.
fn has(reports: &[Report], mote: u8, plan: &Plan, pages: u8) -> bool
    requires pages { pages ≡ pages_for (length plan.now.content) }
    ensures tells { result ≡ true → TellsOf plan.now mote reports.now }
    ensures value { result ≡ tells_of plan.now reports.now mote }
{
    keeps(reports, mote, plan.image, plan.version, pages)
        && (!plan.ordered || runs(reports, mote, plan.image, plan.version))
}

/// Whether a line says that a mote keeps this many pages of this version of an image.
fn keeps(reports: &[Report], mote: u8, image: u8, version: u32, pages: u8) -> bool
    ensures { result ≡ list_any (tells_kept mote image version pages) reports.now }
{
    reports
        .iter()
        .any(|report| tells_kept(report, mote, image, version, pages))
}

/// Whether a line says that a mote runs this version of an image.
fn runs(reports: &[Report], mote: u8, image: u8, version: u32) -> bool
    ensures { result ≡ list_any (tells_on mote image version) reports.now }
{
    reports
        .iter()
        .any(|report| tells_on(report, mote, image, version))
}

/// Whether this line says that a mote keeps that many pages of the version.
fn tells_kept(report: &Report, by: u8, of: u8, in_version: u32, count: u8) -> bool
    ensures { result ≡ tells_kept by of in_version count report.now }
{
    match report {
        Report::Kept {
            mote,
            image,
            version,
            pages,
        } => *mote == by && (*image == of && (*version == in_version && *pages == count)),
        _ => false,
    }
}

/// Whether this line says that a mote runs the version.
fn tells_on(report: &Report, by: u8, of: u8, in_version: u32) -> bool
    ensures { result ≡ tells_on by of in_version report.now }
{
    match report {
        Report::MoteOn {
            mote,
            image,
            version,
        } => *mote == by && (*image == of && *version == in_version),
        _ => false,
    }
}
