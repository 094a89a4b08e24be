//! What a report says of motes.
ghost use Rattle.std.specs.Prelude.{◌≡◌, ◌≤◌, ◌==◌, ◌&&◌, IfOk, OnOk, if◌then◌else◌};
ghost use Rattle.std.specs.List.{fold, list_any};
ghost use Rattle.dg_story.specs.Reports.{is_change, is_change_of, reported, kept_at_end, total, report_motes, motes};
ghost use Rattle.dg_story.specs.Reports.{report_image, last_image, powered, ended_by, ended_of, is_marked};

use crate::told::Told;
use dg_script::Report;

/// What a mote keeps of an image.
#[derive(Clone, Copy, Debug, PartialEq, Eq)]
pub struct Pages {
    /// The version, or 0 where nothing is kept.
    pub version: u32,
    /// How many pages are complete.
    pub count: u8,
}

/// What is marked at a mote.
#[derive(Clone, Copy, Debug, PartialEq, Eq)]
pub enum Mark {
    /// The start of an image.
    Started { image: u8 },
    /// An order to start an image.
    Ordered { image: u8 },
    /// A loss of power.
    Lost,
}

/// How a mote ended.
#[derive(Clone, Copy, Debug, PartialEq, Eq)]
pub enum Ended {
    /// No line says it.
    Untold,
    /// It was off.
    Off,
    /// It ran this version of an image.
    On { image: u8, version: u32 },
}

/// Whether a line reports a change at a mote.
pub fn is_change(report: &Report) -> bool
    ensures { result ≡ is_change report.now }
{
    match *report {
        Report::Order { .. } => true,
        Report::Lost { .. } => true,
        Report::Have { .. } => true,
        Report::Start { .. } => true,
        Report::Off { .. } => true,
        _ => false,
    }
}

// Whether a line speaks of this image at this mote.
fn is_at(at: u8, of: u8, mote: u32, image: u8) -> bool
    ensures { result ≡ (at == mote && of == image) }
{
    u32::from(at) == mote && of == image
}

// Whether a line reports a change of an image at a mote.
fn is_change_of(mote: u32, image: u8, report: &Report) -> bool
    ensures { result ≡ is_change_of mote image report.now }
{
    match *report {
        Report::Have {
            mote: at,
            image: of,
            ..
        } => is_at(at, of, mote, image),
        Report::Lost {
            mote: at,
            image: of,
        } => is_at(at, of, mote, image),
        _ => false,
    }
}

/// Whether some line reports a change of an image at a mote.
pub fn changes_image(mote: u32, image: u8, told: &[Told]) -> bool
    ensures { result ≡ list_any (λ t. is_change_of mote image t.report) told.now }
{
    told.iter()
        .any(|here| is_change_of(mote, image, &here.report))
}

// What a mote keeps of an image after a line, where this was kept before it.
fn reported(kept: Pages, mote: u32, image: u8, report: &Report) -> Pages
    ensures { result ≡ reported mote image kept report.now }
{
    match *report {
        Report::Have {
            mote: at,
            image: of,
            version,
            pages,
        } => {
            if is_at(at, of, mote, image) {
                return Pages {
                    version,
                    count: pages,
                };
            }
            kept
        }
        Report::Lost {
            mote: at,
            image: of,
        } => {
            if is_at(at, of, mote, image) {
                return Pages {
                    version: 0,
                    count: 0,
                };
            }
            kept
        }
        _ => kept,
    }
}

/// What a mote keeps of an image after lines, where this was kept before them.
pub fn last_reported(first: Pages, mote: u32, image: u8, told: &[Told]) -> Pages
    ensures { result ≡ fold (λ kept t. reported mote image kept t.report) first told.now }
{
    let mut kept = first;
    for here in told {
        kept = reported(kept, mote, image, &here.report);
    }
    kept
}

// What a mote kept of an image at the end, as far as it is known after a line.
fn kept_at_end(kept: Option<Pages>, mote: u32, image: u8, report: &Report) -> Option<Pages>
    ensures { result ≡ kept_at_end mote image kept report.now }
{
    match *report {
        Report::Kept {
            mote: at,
            image: of,
            version,
            pages,
        } => {
            if is_at(at, of, mote, image) {
                return Some(Pages {
                    version,
                    count: pages,
                });
            }
            kept
        }
        _ => kept,
    }
}

/// What a mote kept of an image at the end, where a line says it.
pub fn total(mote: u32, image: u8, told: &[Told]) -> Option<Pages>
    ensures { result ≡ total mote image told.now }
{
    let mut kept = None;
    for here in told {
        kept = kept_at_end(kept, mote, image, &here.report);
    }
    kept
}

// Whether a mote is on after a line, where it was so before.
fn powered(on: bool, mote: u32, report: &Report) -> bool
    ensures { result ≡ powered mote on report.now }
{
    match *report {
        Report::Start { mote: at, .. } => on || u32::from(at) == mote,
        Report::Off { mote: at } => on && u32::from(at) != mote,
        _ => on,
    }
}

/// Whether a mote is on after lines, where it was so before them.
pub fn last_powered(first: bool, mote: u32, told: &[Told]) -> bool
    ensures { result ≡ fold (λ on t. powered mote on t.report) first told.now }
{
    let mut on = first;
    for here in told {
        on = powered(on, mote, &here.report);
    }
    on
}

// How a mote ended, as far as it is known after a line.
fn ended_by(how: Ended, mote: u32, report: &Report) -> Ended
    ensures { result ≡ ended_by mote how report.now }
{
    match *report {
        Report::MoteOn {
            mote: at,
            image,
            version,
        } => {
            if u32::from(at) == mote {
                return Ended::On { image, version };
            }
            how
        }
        Report::MoteOff { mote: at } => {
            if u32::from(at) == mote {
                return Ended::Off;
            }
            how
        }
        _ => how,
    }
}

/// How a mote ended, as far as the report says.
pub fn how_ended(mote: u32, told: &[Told]) -> Ended
    ensures { result ≡ ended_of mote told.now }
{
    let mut how = Ended::Untold;
    for here in told {
        how = ended_by(how, mote, &here.report);
    }
    how
}

/// One more than the number of the mote of a line, or 0.
pub fn motes_of(report: &Report) -> u32
    ensures value { result ≡ report_motes report.now }
    ensures bound { result ≤ 256 }
{
    let mote = match *report {
        Report::Order { mote, .. } => mote,
        Report::Lost { mote, .. } => mote,
        Report::Have { mote, .. } => mote,
        Report::Start { mote, .. } => mote,
        Report::Off { mote } => mote,
        Report::SentAdvert { mote } => mote,
        Report::SentRequest { mote, .. } => mote,
        Report::SentData { mote, .. } => mote,
        Report::Refused { mote, .. } => mote,
        Report::MoteOn { mote, .. } => mote,
        Report::MoteOff { mote } => mote,
        Report::Kept { mote, .. } => mote,
        Report::Taken { .. } => return 0,
        Report::End { .. } => return 0,
    };
    u32::from(mote) + 1
}

/// How many motes there are, as far as the report says.
pub fn motes(told: &[Told]) -> u32
    ensures value { result ≡ motes told.now }
    ensures bound { result ≤ 256 }
{
    let mut motes = 0;
    for here in told {
        motes = motes_of(&here.report).max(motes);
    }
    motes
}

/// The image of a line, or 0.
pub fn image_of(report: &Report) -> u8
    ensures { result ≡ report_image report.now }
{
    match *report {
        Report::Order { image, .. } => image,
        Report::Lost { image, .. } => image,
        Report::Have { image, .. } => image,
        Report::Start { image, .. } => image,
        Report::SentRequest { image, .. } => image,
        Report::SentData { image, .. } => image,
        Report::Taken { image, .. } => image,
        Report::MoteOn { image, .. } => image,
        Report::Kept { image, .. } => image,
        _ => 0,
    }
}

/// The largest image that is reported.
pub fn images(told: &[Told]) -> u8
    ensures { result ≡ last_image told.now }
{
    let mut images = 0;
    for here in told {
        images = image_of(&here.report).max(images);
    }
    images
}

// Whether a line is the start of an image at a mote.
fn is_start(report: &Report, mote: u32, image: u8) -> bool
    ensures { result ≡ is_marked (Mark.Started image) mote report.now }
{
    match *report {
        Report::Start {
            mote: at,
            image: of,
            ..
        } => is_at(at, of, mote, image),
        _ => false,
    }
}

// Whether a line is an order at a mote to start an image.
fn is_order(report: &Report, mote: u32, image: u8) -> bool
    ensures { result ≡ is_marked (Mark.Ordered image) mote report.now }
{
    match *report {
        Report::Order {
            mote: at,
            image: of,
            ..
        } => is_at(at, of, mote, image),
        _ => false,
    }
}

// Whether a line is a loss of power at a mote.
fn is_loss(report: &Report, mote: u32) -> bool
    ensures { result ≡ is_marked Mark.Lost mote report.now }
{
    match *report {
        Report::Off { mote: at } => u32::from(at) == mote,
        _ => false,
    }
}

// Whether a line is marked at a mote.
fn is_marked(mark: Mark, mote: u32, report: &Report) -> bool
    ensures { result ≡ is_marked mark mote report.now }
{
    match mark {
        Mark::Started { image } => is_start(report, mote, image),
        Mark::Ordered { image } => is_order(report, mote, image),
        Mark::Lost => is_loss(report, mote),
    }
}

/// Whether some line is marked at a mote.
pub fn has_mark(mark: Mark, mote: u32, told: &[Told]) -> bool
    ensures { result ≡ list_any (λ t. is_marked mark mote t.report) told.now }
{
    told.iter().any(|here| is_marked(mark, mote, &here.report))
}
