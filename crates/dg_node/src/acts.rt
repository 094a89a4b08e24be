//! The results of injections and orders.
ghost use Rattle.std.specs.Prelude.{◌≡◌};
ghost use Rattle.dg_node.specs.inner.Faults.{order_failed, inject_failed};

use crate::report::ChipReport;
use dg_volume::{InjectFault, MountFault, OrderFault};

/// The change of a chip: its reports before and after, and whether it is orderly afterwards.
#[derive(Clone, Copy, Debug, PartialEq, Eq)]
pub struct Change {
    pub before: ChipReport,
    pub after: ChipReport,
    pub orderly: bool,
}

/// The outcome of an order that did not fail.
#[derive(Clone, Copy, Debug, PartialEq, Eq)]
pub enum Ordered {
    Kept(Change),
    /// It was refused. `orderly` is whether the chip is orderly.
    Refused { why: OrderFault, orderly: bool },
}

/// The outcome of an injection that did not fail.
#[derive(Clone, Copy, Debug, PartialEq, Eq)]
pub enum Injected {
    Kept(Change),
    /// It was refused. `orderly` is whether the chip is orderly.
    Refused { why: InjectFault, orderly: bool },
}

/// Why an injection or an order was not done.
#[derive(Clone, Copy, Debug, PartialEq, Eq)]
pub enum ActFault {
    /// The chip is stopped. `before` is its report before the act, unless it stopped while it was mounted.
    Stopped { before: Option<ChipReport> },
    /// Its bytes are not a volume.
    NotAVolume,
}

impl From<MountFault> for ActFault {
    ghost use Rattle.std.specs.Prelude.{◌≡◌};
    ghost use Rattle.dg_node.specs.Acts.{mount_failed};

    ghost from_gives = { λ fault e. e ≡ mount_failed fault };

    fn from(fault: MountFault) -> ActFault {
        match fault {
            MountFault::Stopped => ActFault::Stopped { before: None },
            MountFault::NotAVolume => ActFault::NotAVolume,
        }
    }
}

/// An order that was not kept.
pub(crate) fn order_failed(
    why: OrderFault,
    before: ChipReport,
    orderly: bool,
) -> Result<Ordered, ActFault>
    ensures { result ≡ order_failed why before orderly }
{
    match why {
        OrderFault::Stopped => Err(ActFault::Stopped {
            before: Some(before),
        }),
        OrderFault::Worn { .. } | OrderFault::OldOrder { .. } => {
            Ok(Ordered::Refused { why, orderly })
        }
    }
}

/// An injection that was not done.
pub(crate) fn inject_failed(
    why: InjectFault,
    before: ChipReport,
    orderly: bool,
) -> Result<Injected, ActFault>
    ensures { result ≡ inject_failed why before orderly }
{
    match why {
        InjectFault::Stopped => Err(ActFault::Stopped {
            before: Some(before),
        }),
        InjectFault::Empty
        | InjectFault::TooLarge
        | InjectFault::Stale { .. }
        | InjectFault::Reserved
        | InjectFault::Taken
        | InjectFault::Worn { .. } => Ok(Injected::Refused { why, orderly }),
    }
}
