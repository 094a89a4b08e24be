//! Why a rehearsal is given up.
use std::alloc::AllocError;

/// Why a rehearsal is given up. Then there is no script.
#[derive(Clone, Copy, Debug, PartialEq, Eq)]
pub enum Stop {
    /// Memory ran out.
    Memory,
    /// A chip stopped.
    Flash,
    /// There are fewer chips than motes.
    NoBoard,
    /// The network has no mote with the number of the one to inject into.
    NoMote,
    /// The image is refused: it is empty, or has more than 70,656 bytes.
    Size,
}

impl From<AllocError> for Stop {
    ghost use Rattle.std.specs.Prelude.{◌≡◌};
    ghost use Rattle.dg_rehearse.specs.declared.stop.Stop.{Stop};

    ghost from_gives = { λ _ e. e ≡ Stop.Memory };

    fn from(_: AllocError) -> Stop {
        Stop::Memory
    }
}

/// Why a rehearsal that is under way is given up.
#[derive(Clone, Copy)]
pub(crate) enum Halt {
    /// Memory ran out.
    Memory,
    /// A chip stopped.
    Flash,
}

impl From<AllocError> for Halt {
    fn from(_: AllocError) -> Halt {
        Halt::Memory
    }
}
