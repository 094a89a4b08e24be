//! The outcome of an event at a mote.
ghost use Rattle.std.specs.Prelude.{◌≡◌, None, true, false};
ghost use Rattle.dg_mote.specs.Motes.{sent_in};
ghost use Rattle.dg_world.specs.inner.Untold.{is_untold};

use dg_boot::BootFault;
use dg_control::{IMAGES, Order};
use dg_mote::{Heard, Outbox};
use dg_node::{ChipReport, StartedImage, TickFault};
use dg_nor::Stopped;
use dg_rules::Cause;
use dg_volume::MountFault;

/// What is reported of a chip that keeps nothing.
const BLANK: ChipReport = ChipReport {
    order: Order {
        number: 0,
        image: 0,
        version: 0,
    },
    kept: [None; IMAGES],
};

/// The outcome of an event. It is filled in place as the event goes on, since it is large, and most events set little of it.
#[derive(Drop)]
pub struct Outcome {
    /// Why the event was refused.
    pub(crate) refused: Option<Cause>,
    /// What is reported of the chip before the event, if the event may change it.
    pub(crate) before: Option<ChipReport>,
    /// What is reported of it after the event.
    pub(crate) after: Option<ChipReport>,
    pub(crate) started: Option<StartedImage>,
    /// Whether the chip is orderly, if an act on its volume or a look at it reported that.
    pub(crate) orderly: Option<bool>,
    /// Whether any of the five values above may be set. For most events all are unset, so that one flag is checked for them.
    pub(crate) is_told: bool,
    /// The frame that is sent.
    pub(crate) outbox: Outbox,
    /// What was reported of a chip before the frame that was heard last. It is not cleared.
    pub(crate) kept: ChipReport,
    /// What the mote that heard a frame last did. It is not cleared: it is read only after a frame was heard.
    pub(crate) heard: Heard,
    ghost untold: { is_told ≡ false → is_untold refused before after started orderly ≡ true },
}

impl Outcome {
    ghost use Rattle.dg_world.specs.inner.Outcomes.{IsNothing};

    /// An empty outcome.
    pub(crate) fn new() -> Outcome
        ensures { IsNothing result }
    {
        Outcome {
            refused: None,
            before: None,
            after: None,
            started: None,
            orderly: None,
            is_told: false,
            outbox: Outbox::new(),
            kept: BLANK,
            heard: Heard::Dropped,
        }
    }

    /// Clears the outcome for the next event. What is clear already is not written again.
    pub(crate) fn clear(&mut self)
        ensures { IsNothing self.new }
    {
        clear_outbox(&mut self.outbox);
        if !self.is_told {
            return;
        }
        self.refused = None;
        self.before = None;
        self.after = None;
        self.started = None;
        self.orderly = None;
        self.is_told = false;
    }
}

fn clear_outbox(outbox: &mut Outbox)
    ensures { sent_in outbox.new ≡ None }
{
    if outbox.message().is_some() {
        *outbox = Outbox::new();
    }
}

/// Why an event was not done.
#[derive(Clone, Copy, Debug, PartialEq, Eq)]
pub enum Fault {
    /// The board is stopped.
    Stopped,
    /// The board is not a volume.
    NotAVolume,
    /// The mote was to start, and there was no image.
    NoImage,
}

impl From<BootFault> for Fault {
    ghost use Rattle.std.specs.Prelude.{◌≡◌};
    ghost use Rattle.dg_world.specs.inner.Faults.{fault_of_start};

    ghost from_gives = { λ fault e. e ≡ fault_of_start fault };

    fn from(fault: BootFault) -> Fault {
        match fault {
            BootFault::Stopped => Fault::Stopped,
            BootFault::NotAVolume => Fault::NotAVolume,
            BootFault::NoImage => Fault::NoImage,
        }
    }
}

impl From<MountFault> for Fault {
    ghost use Rattle.std.specs.Prelude.{◌≡◌};
    ghost use Rattle.dg_world.specs.inner.Faults.{fault_of_mount};

    ghost from_gives = { λ fault e. e ≡ fault_of_mount fault };

    fn from(fault: MountFault) -> Fault {
        match fault {
            MountFault::Stopped => Fault::Stopped,
            MountFault::NotAVolume => Fault::NotAVolume,
        }
    }
}

impl From<TickFault> for Fault {
    ghost use Rattle.std.specs.Prelude.{◌≡◌};
    ghost use Rattle.dg_world.specs.inner.Faults.{fault_of_tick};

    ghost from_gives = { λ fault e. e ≡ fault_of_tick fault };

    fn from(fault: TickFault) -> Fault {
        match fault {
            TickFault::Stopped => Fault::Stopped,
            TickFault::NoImage => Fault::NoImage,
        }
    }
}

impl From<Stopped> for Fault {
    ghost use Rattle.std.specs.Prelude.{◌≡◌};
    ghost use Rattle.dg_world.specs.declared.outcome.Fault.TheVariants as faults;

    ghost from_gives = { λ _ e. e ≡ faults.Stopped };

    fn from(_stopped: Stopped) -> Fault {
        Fault::Stopped
    }
}

/// How an event whose power may have been cut ended.
#[derive(Clone, Copy)]
pub(crate) enum Power {
    Stays,
    /// The cut fired.
    Cut,
}
