//! How faults are displayed, and how the faults of lower calls are mapped.
use crate::volume::{FormatFault, InjectFault, MountFault, OrderFault, TakeFault};
use dg_control::MountFault as ControlFault;
use dg_nor::Stopped;
use std::error::Error;
use std::fmt;

impl fmt::Display for FormatFault {
    ghost use Rattle.std.specs.Prelude.{Some};
    ghost use Rattle.dg_volume.specs.Texts.{format_fault_text};

    ghost output = { λ fault. Some (format_fault_text fault) };

    fn fmt<W: fmt::Write>(&self, f: &mut fmt::Formatter<W>) -> fmt::Result {
        match self {
            FormatFault::Stopped => f.write_str("the flash chip is stopped"),
            FormatFault::Empty => f.write_str("the golden image is empty"),
            FormatFault::TooLarge => f.write_str("the golden image is too large"),
        }
    }
}

impl fmt::Display for MountFault {
    ghost use Rattle.std.specs.Prelude.{Some};
    ghost use Rattle.dg_volume.specs.Texts.{volume_mount_text};

    ghost output = { λ fault. Some (volume_mount_text fault) };

    fn fmt<W: fmt::Write>(&self, f: &mut fmt::Formatter<W>) -> fmt::Result {
        match self {
            MountFault::Stopped => f.write_str("the flash chip is stopped"),
            MountFault::NotAVolume => f.write_str("the flash chip holds no volume"),
        }
    }
}

impl fmt::Display for TakeFault {
    ghost use Rattle.std.specs.Prelude.{Some};
    ghost use Rattle.dg_volume.specs.Texts.{take_fault_text};

    ghost output = { λ fault. Some (take_fault_text fault) };

    fn fmt<W: fmt::Write>(&self, f: &mut fmt::Formatter<W>) -> fmt::Result {
        match self {
            TakeFault::Stopped => f.write_str("the flash chip is stopped"),
            TakeFault::Stale { kept } => write!(f, "version {kept} is kept"),
            TakeFault::Reserved => f.write_str("image 0 is golden"),
            TakeFault::Worn { room } => write!(f, "the flash chip has room for {room} commits"),
        }
    }
}

impl fmt::Display for InjectFault {
    ghost use Rattle.std.specs.Prelude.{Some};
    ghost use Rattle.dg_volume.specs.Texts.{inject_fault_text};

    ghost output = { λ fault. Some (inject_fault_text fault) };

    fn fmt<W: fmt::Write>(&self, f: &mut fmt::Formatter<W>) -> fmt::Result {
        match self {
            InjectFault::Stopped => f.write_str("the flash chip is stopped"),
            InjectFault::Empty => f.write_str("the image is empty"),
            InjectFault::TooLarge => f.write_str("the image is too large"),
            InjectFault::Stale { kept } => write!(f, "version {kept} is kept, which is larger"),
            InjectFault::Reserved => f.write_str("image 0 is golden"),
            InjectFault::Worn { room } => write!(f, "the flash chip has room for {room} commits"),
            InjectFault::Taken => f.write_str("this version is kept with other content"),
        }
    }
}

impl fmt::Display for OrderFault {
    ghost use Rattle.std.specs.Prelude.{Some};
    ghost use Rattle.dg_volume.specs.Texts.{order_fault_text};

    ghost output = { λ fault. Some (order_fault_text fault) };

    fn fmt<W: fmt::Write>(&self, f: &mut fmt::Formatter<W>) -> fmt::Result {
        match self {
            OrderFault::Stopped => f.write_str("the flash chip is stopped"),
            OrderFault::Worn { room } => write!(f, "the flash chip has room for {room} commits"),
            OrderFault::OldOrder { kept } => write!(f, "an order with number {kept} is kept"),
        }
    }
}

impl Error for FormatFault {}

impl Error for MountFault {}

impl Error for TakeFault {}

impl Error for InjectFault {}

impl Error for OrderFault {}

impl From<Stopped> for FormatFault {
    ghost use Rattle.std.specs.Prelude.{◌≡◌};
    ghost use Rattle.dg_volume.specs.declared.volume.FormatFault.TheVariants as format_faults;

    ghost from_gives = { λ _ e. e ≡ format_faults.Stopped };

    fn from(_stopped: Stopped) -> FormatFault {
        FormatFault::Stopped
    }
}

impl From<Stopped> for MountFault {
    ghost use Rattle.std.specs.Prelude.{◌≡◌};
    ghost use Rattle.dg_volume.specs.declared.volume.MountFault.TheVariants as mount_faults;

    ghost from_gives = { λ _ e. e ≡ mount_faults.Stopped };

    fn from(_stopped: Stopped) -> MountFault {
        MountFault::Stopped
    }
}

impl From<ControlFault> for MountFault {
    ghost use Rattle.std.specs.Prelude.{◌≡◌};
    ghost use Rattle.dg_volume.specs.Reading.{volume_mount_fault};

    ghost from_gives = { λ fault e. e ≡ volume_mount_fault fault };

    fn from(fault: ControlFault) -> MountFault {
        match fault {
            ControlFault::Stopped => MountFault::Stopped,
            ControlFault::NotAVolume => MountFault::NotAVolume,
        }
    }
}

impl From<Stopped> for TakeFault {
    ghost use Rattle.std.specs.Prelude.{◌≡◌};
    ghost use Rattle.dg_volume.specs.declared.volume.TakeFault.TheVariants as take_faults;

    ghost from_gives = { λ _ e. e ≡ take_faults.Stopped };

    fn from(_stopped: Stopped) -> TakeFault {
        TakeFault::Stopped
    }
}

impl From<Stopped> for InjectFault {
    ghost use Rattle.std.specs.Prelude.{◌≡◌};
    ghost use Rattle.dg_volume.specs.declared.volume.InjectFault.TheVariants as inject_faults;

    ghost from_gives = { λ _ e. e ≡ inject_faults.Stopped };

    fn from(_stopped: Stopped) -> InjectFault {
        InjectFault::Stopped
    }
}
