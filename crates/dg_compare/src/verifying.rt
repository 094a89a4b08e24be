//! Whether the chip in a file is sound.
ghost use Rattle.std.specs.Prelude.{IfOk};
ghost use Rattle.dg_compare.specs.Sound.{Judges};

use crate::flaws::find_flaw;
use crate::opening::open;
use crate::results::{Rooted, Verdict};
use dg_inspect::LookFault;
use std::alloc::Global;

/// Reads every page that the chip in a file keeps and runs. A volume is sound if its data pages, as far as each image is
/// complete, have the CRC that page 0 keeps of them. If a root is given, the pages of its image must be those that it names.
pub fn verify(alloc: Global, bytes: &[u8], rooted: &Option<Rooted>) -> Result<Verdict, LookFault>
    ensures judges { IfOk result (Judges bytes.now rooted.now) }
{
    let Some(opened) = open(alloc, bytes)? else {
        return Ok(Verdict::NoVolume);
    };
    match find_flaw(&opened.volume, rooted) {
        None => Ok(Verdict::Sound),
        Some(flaw) => Ok(Verdict::Flawed(flaw)),
    }
}
