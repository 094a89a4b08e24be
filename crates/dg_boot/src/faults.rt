//! How the fault of a start is displayed, and how the faults of lower calls are mapped.
use crate::BootFault;
use dg_nor::Stopped;
use dg_volume::MountFault;
use std::error::Error;
use std::fmt;

impl fmt::Display for BootFault {
    ghost use Rattle.std.specs.Prelude.{Some};
    ghost use Rattle.dg_boot.specs.Faults.{boot_fault_text};

    ghost output = { λ fault. Some (boot_fault_text fault) };

    fn fmt<W: fmt::Write>(&self, f: &mut fmt::Formatter<W>) -> fmt::Result {
        match self {
            BootFault::Stopped => f.write_str("the flash chip is stopped"),
            BootFault::NotAVolume => f.write_str("the flash chip holds no volume"),
            BootFault::NoImage => f.write_str("there is no image to start"),
        }
    }
}

impl Error for BootFault {}

impl From<MountFault> for BootFault {
    ghost use Rattle.std.specs.Prelude.{◌≡◌};
    ghost use Rattle.dg_boot.specs.Faults.{boot_fault_of};

    ghost from_gives = { λ fault e. e ≡ boot_fault_of fault };

    fn from(fault: MountFault) -> BootFault {
        match fault {
            MountFault::Stopped => BootFault::Stopped,
            MountFault::NotAVolume => BootFault::NotAVolume,
        }
    }
}

impl From<Stopped> for BootFault {
    ghost use Rattle.std.specs.Prelude.{◌≡◌};
    ghost use Rattle.dg_boot.specs.declared.BootFault.TheVariants as boot_fault;

    ghost from_gives = { λ _ e. e ≡ boot_fault.Stopped };

    fn from(_stopped: Stopped) -> BootFault {
        BootFault::Stopped
    }
}
