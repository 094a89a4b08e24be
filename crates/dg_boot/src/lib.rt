//! How a mote starts: which image is chosen, and that it is in program memory.
//!
//! A start by power counts as a short one, and three in a row choose golden. Otherwise an order that waits is started if its
//! image is sound, and waived if it is not. Otherwise what program memory is set to runs, or golden is started. An image that
//! is not in program memory is copied there, between two commits: the first says that program memory is blank, the second that
//! it is set to the image. So a stop on the way leaves program memory blank, or as it was recorded before, and never set to an
//! image with missing pages.
#![tactic(auto)]

mod choosing;
mod committing;
mod faults;
mod laws;
mod loaded;
mod loading;
mod pieces;
mod sound;
mod starting;

ghost use Rattle.std.specs.Prelude.{◌≡◌, false, IfOk, OnOk, IsErrOf};
ghost use Rattle.dg_object.specs.Object.{Row};
ghost use Rattle.dg_nor.specs.Trail.{operations};
ghost use Rattle.dg_nor.specs.Reads.{Looked, ReadStopped, ActStopped};
ghost use Rattle.dg_slot.specs.Layout.{program_sector, program_end};
ghost use Rattle.dg_slot.specs.Pages.{program};
ghost use Rattle.dg_volume.specs.Store.{Store};
ghost use Rattle.dg_volume.specs.Stands.{Stands, IsNoVolume};
ghost use Rattle.dg_volume.specs.Start.{boot};
ghost use Rattle.dg_volume.specs.Acts.{Stops, TouchesBut};
ghost use Rattle.dg_volume.specs.Consistent.{Consistent, IsSoundApp};
ghost use Rattle.dg_boot.specs.Started.{Starts, NoImageFound};

use crate::starting::start_mounted;
pub use choosing::order_waits;
use dg_nor::Nor;
pub use dg_volume::StartCause as Kind;
use dg_volume::{Volume, trails_keep_consistency};
pub use laws::{
    a_copy_has_these_sizes, a_waived_order_is_not_started, an_image_is_set_once_it_is_copied,
    golden_can_be_started, three_short_starts_start_golden,
};
pub use pieces::{COPY_PIECE, COPY_PIECES, CopyPiece, SIZE_OF_COPY_PIECE};

/// What was started. `pages` counts the descriptor too, `length` is the number of the image's bytes, and `crc` is their
/// checksum in program memory.
#[derive(Drop)]
pub struct Started {
    pub volume: Volume,
    pub image: u8,
    pub version: u32,
    pub pages: u8,
    pub length: u32,
    pub crc: u16,
}

/// Why nothing was started.
#[derive(Clone, Copy, Debug, PartialEq, Eq)]
pub enum BootFault {
    /// The chip is stopped.
    Stopped,
    /// Its bytes are not a volume.
    NotAVolume,
    /// Golden is to be started, is not in program memory, and is not sound.
    NoImage,
}

/// Starts the image of a chip: counts the start, makes the choice, copies the image if it is not in program memory yet, and
/// sets program memory to it. A page is copied by 9 operations, an erase and 8 programs of 138 bytes. A start with nothing to
/// commit and nothing to copy writes nothing. No clause bounds what is read.
///
/// On a consistent chip, whatever frames made its store, golden runs byte for byte, or pages that fit the descriptor before
/// them. The chip stays consistent however the start ends, also if it stops. A chip that is not a volume keeps its bytes.
///
/// `NoImage` may follow a commit that counted the start, and one that waived the order.
pub fn start<N: Nor>(nor: &mut N, kind: Kind) -> Result<Started, BootFault>
    ensures started { IfOk result (λ told. (s : Store) → Stands (N.device nor.old).image s
        → Starts (boot kind s) (N.device nor.old) (N.device nor.new) told) }
    ensures runs_on { OnOk result ((s : Store) → Stands (N.device nor.old).image s
        → operations (boot kind s).trail ≡ 0 → Looked (N.device nor.old) (N.device nor.new)) }
    ensures volume { OnOk result ((s : Store) × Stands (N.device nor.old).image s) }
    ensures same_reference { (N.device nor.new).references ≡ (N.device nor.old).references }
    ensures awake { OnOk result ((N.device nor.old).stopped ≡ false) }
    ensures touches { TouchesBut (program_sector 0) program_end (N.device nor.old).image (N.device nor.new).image }
    ensures no_image { IsErrOf result BootFault.NoImage → (s : Store) → Stands (N.device nor.old).image s
        → NoImageFound (boot kind s) (N.device nor.old) (N.device nor.new) }
    ensures of_a_volume { IsErrOf result BootFault.NoImage → (s : Store) × Stands (N.device nor.old).image s }
    ensures not_a_volume { IsErrOf result BootFault.NotAVolume → IsNoVolume (N.device nor.old).image
        × Looked (N.device nor.old) (N.device nor.new) }
    ensures stopped { IsErrOf result BootFault.Stopped → (s : Store) → Stands (N.device nor.old).image s
        → Stops (boot kind s).trail (N.device nor.old) (N.device nor.new) }
    ensures no_volume { IsErrOf result BootFault.Stopped → IsNoVolume (N.device nor.old).image
        → ReadStopped (N.device nor.old) (N.device nor.new) }
    ensures cause { IsErrOf result BootFault.Stopped → ActStopped (N.device nor.old) (N.device nor.new) }
    ensures sound { IfOk result (λ told. (golden : Row) (s : Store) → Stands (N.device nor.old).image s → Consistent golden s
        → IsSoundApp golden
        (record { image = told.image; version = told.version; pages = program (N.device nor.new).image told.pages })) }
    ensures consistent { (golden : Row) (s : Store) → Stands (N.device nor.old).image s → Consistent golden s
        → (t : Store) × Stands (N.device nor.new).image t × Consistent golden t }
{
    trails_keep_consistency();
    let volume = Volume::mount(nor)?;
    start_mounted(nor, volume, kind)
}
