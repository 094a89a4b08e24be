//! Whether a chip is a volume, and what breaks it otherwise.
ghost use Rattle.std.specs.Prelude.{IfOk, IfSome, IsNone};
ghost use Rattle.dg_nor.specs.Reads.{ReadEnds};
ghost use Rattle.dg_volume.specs.Stands.{IsVolume};
ghost use Rattle.dg_breaks.specs.Breaks.{BreaksAt};

use crate::breaks::first_break;
use crate::condition::Break;
use dg_nor::{Nor, Stopped};
use dg_volume::{MountFault, Volume};

/// The first condition of a volume that a chip does not meet. None if it is a volume.
pub fn find_break<N: Nor>(nor: &mut N) -> Result<Option<Break>, Stopped>
    ensures first { IfOk result (λ found. IfSome found (BreaksAt (N.device nor.old).image)) }
    ensures none { IfOk result (λ found. IsNone found → IsVolume (N.device nor.old).image) }
    ensures ends { ReadEnds result (N.device nor.old) (N.device nor.new) }
{
    match Volume::mount(nor) {
        Ok(_) => Ok(None),
        Err(MountFault::Stopped) => Err(Stopped),
        Err(MountFault::NotAVolume) => Ok(Some(first_break(nor)?)),
    }
}
