//! The outcome of an event, by the lines that are reported of it.
ghost use Rattle.std.specs.Prelude.{◌≡◌, true};
ghost use Rattle.dg_events.specs.Told.{and_line, nothing_told, told_by};
ghost use Rattle.dg_events.specs.declared.told.Told.{Told};

use dg_rules::Cause;
use dg_script::Report;

/// The outcome of an event, by the lines that are reported of it.
#[derive(Clone, Copy)]
pub struct Told {
    /// The event was refused by this cause.
    pub refused: Option<Cause>,
    /// A cut fired in the event.
    pub off: bool,
    /// The event started this image.
    pub started: Option<u8>,
}

/// Nothing is reported.
pub const NOTHING_TOLD: Told = Told {
    refused: None,
    off: false,
    started: None,
};

impl Told {
    /// Adds what one more line says.
    fn note(&mut self, report: &Report)
        ensures { self.new ≡ and_line self.old report.now }
    {
        match report {
            Report::Refused { cause, .. } => self.refused = Some(*cause),
            Report::Off { .. } => self.off = true,
            Report::Start { image, .. } => self.started = Some(*image),
            Report::Order { .. }
            | Report::Lost { .. }
            | Report::Have { .. }
            | Report::SentAdvert { .. }
            | Report::SentRequest { .. }
            | Report::SentData { .. }
            | Report::Taken { .. }
            | Report::End { .. }
            | Report::MoteOn { .. }
            | Report::MoteOff { .. }
            | Report::Kept { .. } => {}
        }
    }
}

/// The outcome that these lines report.
pub fn told_by(reports: &[Report]) -> Told
    ensures { result ≡ told_by reports.now }
{
    let mut told = NOTHING_TOLD;
    for report in reports {
        told.note(report);
    }
    told
}

/// Whether nothing is reported, so that no outcome is told.
#[inline(always)]
pub fn are_none(reports: &[Report]) -> bool
    ensures { result ≡ true → told_by reports.now ≡ nothing_told }
{
    reports.is_empty()
}

/// Whether these lines report frames that were sent and nothing else, so that no outcome is told.
#[inline(always)]
pub fn are_sent(reports: &[Report]) -> bool
    ensures { result ≡ true → told_by reports.now ≡ nothing_told }
{
    for report in reports {
        if !is_sent(report) {
            return false;
        }
    }
    true
}

/// Whether a line reports a frame that was sent, which adds nothing to an outcome.
#[inline(always)]
fn is_sent(report: &Report) -> bool
    ensures { result ≡ true → (told : Told) → and_line told report.now ≡ told }
{
    match report {
        Report::SentAdvert { .. } | Report::SentRequest { .. } | Report::SentData { .. } => true,
        Report::Refused { .. }
        | Report::Off { .. }
        | Report::Start { .. }
        | Report::Order { .. }
        | Report::Lost { .. }
        | Report::Have { .. }
        | Report::Taken { .. }
        | Report::End { .. }
        | Report::MoteOn { .. }
        | Report::MoteOff { .. }
        | Report::Kept { .. } => false,
    }
}
