//! How the faults of the layers below end a command. Each is one definition of `specs/Conversions`.
ghost use Rattle.std.specs.Prelude.{◌≡◌};
ghost use Rattle.dg_end.specs.Conversions.{end_of_injection, end_of_format};

use crate::{End, Refusal};
use dg_base::{ReadFailed, WriteFailed};
use dg_boot::BootFault;
use dg_chain::{ChainFault, WrapFault};
use dg_control::CommitFault;
use dg_ihex::{HexCause, HexFileFault};
use dg_input::ReadStop;
use dg_link::LinkFailed;
use dg_netcfg::ProfileFault;
use dg_nor::Stopped;
use dg_volume::{FormatFault, InjectFault, MountFault, OrderFault, TakeFault};
use std::alloc::AllocError;

impl From<AllocError> for End {
    ghost use Rattle.std.specs.Prelude.{◌≡◌};
    ghost use Rattle.dg_end.specs.declared.ends.End.{End};

    ghost from_gives = { λ _ e. e ≡ End.Memory };

    fn from(_error: AllocError) -> End {
        End::Memory
    }
}

impl From<ReadFailed> for End {
    ghost use Rattle.std.specs.Prelude.{◌≡◌};
    ghost use Rattle.dg_end.specs.declared.ends.End.{End};

    ghost from_gives = { λ _ e. e ≡ End.ReadFault };

    fn from(_error: ReadFailed) -> End {
        End::ReadFault
    }
}

impl From<WriteFailed> for End {
    ghost use Rattle.std.specs.Prelude.{◌≡◌};
    ghost use Rattle.dg_end.specs.declared.ends.End.{End};

    ghost from_gives = { λ _ e. e ≡ End.WriteFault };

    fn from(_error: WriteFailed) -> End {
        End::WriteFault
    }
}

impl From<Stopped> for End {
    ghost use Rattle.std.specs.Prelude.{◌≡◌};
    ghost use Rattle.dg_end.specs.declared.ends.End.{End};

    ghost from_gives = { λ _ e. e ≡ End.FlashFault };

    fn from(_error: Stopped) -> End {
        End::FlashFault
    }
}

impl From<LinkFailed> for End {
    ghost use Rattle.std.specs.Prelude.{◌≡◌};
    ghost use Rattle.dg_end.specs.declared.ends.End.{End};

    ghost from_gives = { λ _ e. e ≡ End.LinkFault };

    fn from(_error: LinkFailed) -> End {
        End::LinkFault
    }
}

impl From<ReadStop> for End {
    ghost use Rattle.std.specs.Prelude.{◌≡◌};
    ghost use Rattle.dg_end.specs.Conversions.{end_of_read};

    ghost from_gives = { λ stop e. e ≡ end_of_read stop };

    fn from(stop: ReadStop) -> End {
        match stop {
            ReadStop::Memory => End::Memory,
            ReadStop::ReadFault => End::ReadFault,
        }
    }
}

impl From<MountFault> for End {
    ghost use Rattle.std.specs.Prelude.{◌≡◌};
    ghost use Rattle.dg_end.specs.Conversions.{end_of_mount};

    ghost from_gives = { λ fault e. e ≡ end_of_mount fault };

    fn from(fault: MountFault) -> End {
        match fault {
            MountFault::Stopped => End::FlashFault,
            MountFault::NotAVolume => End::NotAVolume,
        }
    }
}

impl From<BootFault> for End {
    ghost use Rattle.std.specs.Prelude.{◌≡◌};
    ghost use Rattle.dg_end.specs.Conversions.{end_of_boot};

    ghost from_gives = { λ fault e. e ≡ end_of_boot fault };

    fn from(fault: BootFault) -> End {
        match fault {
            BootFault::Stopped => End::FlashFault,
            BootFault::NotAVolume => End::NotAVolume,
            BootFault::NoImage => End::NoImage,
        }
    }
}

impl From<OrderFault> for End {
    ghost use Rattle.std.specs.Prelude.{◌≡◌};
    ghost use Rattle.dg_end.specs.Conversions.{end_of_order};

    ghost from_gives = { λ fault e. e ≡ end_of_order fault };

    fn from(fault: OrderFault) -> End {
        match fault {
            OrderFault::Stopped => End::FlashFault,
            OrderFault::Worn { room } => End::Refused(Refusal::Worn { room }),
            OrderFault::OldOrder { kept } => End::Refused(Refusal::OldOrder { number: kept }),
        }
    }
}

impl From<CommitFault> for End {
    ghost use Rattle.std.specs.Prelude.{◌≡◌};
    ghost use Rattle.dg_end.specs.Conversions.{end_of_commit};

    ghost from_gives = { λ fault e. e ≡ end_of_commit fault };

    fn from(fault: CommitFault) -> End {
        match fault {
            CommitFault::Stopped => End::FlashFault,
            CommitFault::Worn => End::Refused(Refusal::Worn { room: 0 }),
        }
    }
}

impl From<ProfileFault> for End {
    ghost use Rattle.std.specs.Prelude.{◌≡◌};
    ghost use Rattle.dg_end.specs.Conversions.{end_of_profile};

    ghost from_gives = { λ fault e. e ≡ end_of_profile fault };

    fn from(fault: ProfileFault) -> End {
        match fault {
            ProfileFault::Memory => End::Memory,
            _ => End::BadProfile(fault),
        }
    }
}

impl From<HexFileFault> for End {
    ghost use Rattle.std.specs.Prelude.{◌≡◌};
    ghost use Rattle.dg_end.specs.Conversions.{end_of_hex};

    ghost from_gives = { λ fault e. e ≡ end_of_hex fault };

    fn from(fault: HexFileFault) -> End {
        match fault.cause {
            HexCause::Memory => End::Memory,
            _ => End::BadHex(fault),
        }
    }
}

impl From<TakeFault> for End {
    ghost use Rattle.std.specs.Prelude.{◌≡◌};
    ghost use Rattle.dg_end.specs.Conversions.{end_of_take};

    ghost from_gives = { λ fault e. e ≡ end_of_take fault };

    fn from(fault: TakeFault) -> End {
        match fault {
            TakeFault::Stopped => End::FlashFault,
            TakeFault::Stale { kept } => End::Refused(Refusal::Stale { version: kept }),
            TakeFault::Reserved => End::Refused(Refusal::Reserved),
            TakeFault::Worn { room } => End::Refused(Refusal::Worn { room }),
        }
    }
}

impl From<WrapFault> for End {
    ghost use Rattle.std.specs.Prelude.{◌≡◌};
    ghost use Rattle.dg_end.specs.Conversions.{end_of_wrap};

    ghost from_gives = { λ fault e. e ≡ end_of_wrap fault };

    fn from(fault: WrapFault) -> End {
        match fault {
            WrapFault::Memory => End::Memory,
            WrapFault::Empty => End::Refused(Refusal::Empty),
            WrapFault::TooLarge { length } => End::Refused(Refusal::TooLarge { length }),
        }
    }
}

impl From<ChainFault> for End {
    ghost use Rattle.std.specs.Prelude.{◌≡◌};
    ghost use Rattle.dg_end.specs.Conversions.{end_of_chain};

    ghost from_gives = { λ fault e. e ≡ end_of_chain fault };

    fn from(fault: ChainFault) -> End {
        match fault {
            ChainFault::Stopped => End::FlashFault,
            ChainFault::Broken { page, kept, found } => {
                End::Refused(Refusal::Broken { page, kept, found })
            }
            ChainFault::Shape => End::Refused(Refusal::Shape),
        }
    }
}

/// How an injection that is not done ends a command. `size` is the length of the image.
pub fn end_of_injection(fault: InjectFault, size: usize) -> End
    ensures { result ≡ end_of_injection size fault }
{
    match fault {
        InjectFault::Stopped => End::FlashFault,
        InjectFault::Empty => End::Refused(Refusal::Empty),
        InjectFault::TooLarge => End::Refused(Refusal::TooLarge { length: size }),
        InjectFault::Stale { kept } => End::Refused(Refusal::Stale { version: kept }),
        InjectFault::Reserved => End::Refused(Refusal::Reserved),
        InjectFault::Worn { room } => End::Refused(Refusal::Worn { room }),
        InjectFault::Taken => End::Refused(Refusal::Taken),
    }
}

/// How formatting that is not done ends a command. `size` is the length of the image.
pub fn end_of_format(fault: FormatFault, size: usize) -> End
    ensures { result ≡ end_of_format size fault }
{
    match fault {
        FormatFault::Stopped => End::FlashFault,
        FormatFault::Empty => End::Refused(Refusal::Empty),
        FormatFault::TooLarge => End::Refused(Refusal::TooLarge { length: size }),
    }
}
