//! Why a service ends before its turns are over.
use dg_end::End;
use dg_world::Fault;
use std::alloc::AllocError;

/// Why a service ends before its turns are over.
#[derive(Clone, Copy, Debug, PartialEq, Eq)]
pub enum Stop {
    /// Memory ran out.
    Memory,
    /// The trace could not be written.
    Write,
    /// The link failed.
    Link,
    /// A board is stopped.
    Flash,
    /// A board is not a volume.
    NotAVolume,
    /// A mote was to start, and there was no image.
    NoImage,
}

impl From<AllocError> for Stop {
    ghost use Rattle.std.specs.Prelude.{◌≡◌};
    ghost use Rattle.dg_serve.specs.declared.stop.Stop.{Stop};

    ghost from_gives = { λ _ e. e ≡ Stop.Memory };

    fn from(_error: AllocError) -> Stop {
        Stop::Memory
    }
}

impl From<Fault> for Stop {
    ghost use Rattle.std.specs.Prelude.{◌≡◌};
    ghost use Rattle.dg_serve.specs.Standings.{stop_by};

    ghost from_gives = { λ fault e. e ≡ stop_by fault };

    fn from(fault: Fault) -> Stop {
        match fault {
            Fault::Stopped => Stop::Flash,
            Fault::NotAVolume => Stop::NotAVolume,
            Fault::NoImage => Stop::NoImage,
        }
    }
}

impl From<Stop> for End {
    ghost use Rattle.std.specs.Prelude.{◌≡◌};
    ghost use Rattle.dg_serve.specs.Endings.{end_of_stop};

    ghost from_gives = { λ stop e. e ≡ end_of_stop stop };

    fn from(stop: Stop) -> End {
        match stop {
            Stop::Memory => End::Memory,
            Stop::Write => End::WriteFault,
            Stop::Link => End::LinkFault,
            Stop::Flash => End::FlashFault,
            Stop::NotAVolume => End::NotAVolume,
            Stop::NoImage => End::NoImage,
        }
    }
}
