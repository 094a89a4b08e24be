//! Faults of the layers below, as faults of a look.
use crate::seen::LookFault;
use dg_nor::Stopped;
use std::alloc::AllocError;

impl From<AllocError> for LookFault {
    ghost use Rattle.std.specs.Prelude.{◌≡◌};
    ghost use Rattle.dg_inspect.specs.declared.seen.LookFault.{LookFault};

    ghost from_gives = { λ _ e. e ≡ LookFault.Memory };

    fn from(_error: AllocError) -> LookFault {
        LookFault::Memory
    }
}

impl From<Stopped> for LookFault {
    ghost use Rattle.std.specs.Prelude.{◌≡◌};
    ghost use Rattle.dg_inspect.specs.declared.seen.LookFault.{LookFault};

    ghost from_gives = { λ _ e. e ≡ LookFault.Stopped };

    fn from(_stopped: Stopped) -> LookFault {
        LookFault::Stopped
    }
}
