//! Words of reports.
ghost use Rattle.std.specs.Prelude.{◌≡◌};
ghost use Rattle.dg_inspect_text.specs.Json.{condition_word, order_word, reason_word, side_word, kind_word, verdict_word};

use dg_breaks::Condition;
use dg_compare::{Side, Verdict};
use dg_inspect::{FileSeen, OrderState, StartReason};

/// The condition of a volume that a chip does not meet.
pub fn condition_text(condition: Condition) -> &'static str
    ensures { result.now ≡ condition_word condition }
{
    match condition {
        Condition::Ledger => "ledger",
        Condition::Snapshot => "snapshot",
        Condition::Golden => "golden",
        Condition::Header { .. } => "header",
        Condition::Descriptor { .. } => "descriptor",
        Condition::Program => "program",
    }
}

/// What becomes of an order.
pub fn order_text(state: OrderState) -> &'static str
    ensures { result.now ≡ order_word state }
{
    match state {
        OrderState::Absent => "none",
        OrderState::Waived => "waived",
        OrderState::Started => "started",
        OrderState::Waits => "waits",
        OrderState::Incomplete => "incomplete",
        OrderState::Never => "never",
    }
}

/// Why a start runs what it runs.
pub fn reason_text(reason: StartReason) -> &'static str
    ensures { result.now ≡ reason_word reason }
{
    match reason {
        StartReason::ShortStarts => "short starts",
        StartReason::Order => "order",
        StartReason::Program => "program memory",
        StartReason::Blank => "blank program memory",
    }
}

/// Which of two chips.
pub fn side_text(side: Side) -> &'static str
    ensures { result.now ≡ side_word side }
{
    match side {
        Side::First => "first",
        Side::Second => "second",
    }
}

/// What a file is.
pub(crate) fn kind_text(seen: &FileSeen) -> &'static str
    ensures { result.now ≡ kind_word seen.now }
{
    match seen {
        FileSeen::Other => "other",
        FileSeen::Blank => "blank",
        FileSeen::Chip { older: true, .. } => "older chip",
        FileSeen::Chip { older: false, .. } => "chip",
    }
}

/// The word of a verdict.
pub(crate) fn verdict_text(verdict: Verdict) -> &'static str
    ensures { result.now ≡ verdict_word verdict }
{
    match verdict {
        Verdict::Sound => "sound",
        Verdict::Flawed(_) => "not sound",
        Verdict::NoVolume => "no volume",
    }
}
