//! The volume in the bytes of a file.
ghost use Rattle.std.specs.Prelude.{IfOk, IfSome, IsNone};
ghost use Rattle.dg_compare.specs.Volumes.{IsVolumeFile, ShowsVolume};

use dg_inspect::{ChipSeen, LookFault, StillChip, VolumeSeen, is_chip_length, look};
use std::alloc::Global;

/// A chip, and what it shows.
#[derive(Drop)]
pub(crate) struct Opened {
    pub(crate) chip: StillChip,
    pub(crate) volume: VolumeSeen,
}

/// The volume that the bytes of a file are. None where they are not one.
pub(crate) fn open(alloc: Global, bytes: &[u8]) -> Result<Option<Opened>, LookFault>
    ensures opens { IfOk result (λ found. IfSome found (ShowsVolume bytes.now)) }
    ensures none { IfOk result (λ found. IsNone found → IsVolumeFile bytes.now → ⊥) }
{
    if !is_chip_length(bytes.len()) {
        return Ok(None);
    }
    let mut chip = StillChip::new(alloc, bytes)?;
    match look(alloc, &mut chip)? {
        ChipSeen::Broken(_) => Ok(None),
        ChipSeen::Volume(volume) => Ok(Some(Opened { chip, volume })),
    }
}
