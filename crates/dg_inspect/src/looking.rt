//! All that a chip shows.
ghost use Rattle.std.specs.Prelude.{◌≡◌, ℕ, ◌<◌, None, Option, IfOk, IfSome, IsNone, OnOk, length, slice_index_or};
ghost use Rattle.dg_nor.specs.Reads.{ReadEnds};
ghost use Rattle.dg_control.specs.Store.{HasForm};
ghost use Rattle.dg_volume.specs.Sizes.{images};
ghost use Rattle.dg_volume.specs.Store.{App, Store, held};
ghost use Rattle.dg_volume.specs.Told.{program_told};
ghost use Rattle.dg_volume.specs.Stands.{HoldsApp, Mounted, IsMounted};
ghost use Rattle.dg_inspect.specs.Pages.{ShowsKept};
ghost use Rattle.dg_inspect.specs.Seen.{ShowsProgram, ShowsStore, ShowsChip, LookEnds};

use crate::images::see_image;
use crate::orders::order_state;
use crate::pages::see_whole;
use crate::seen::{ChipSeen, ImageSeen, ImageVersion, LookFault, ProgramSeen, VolumeSeen};
use crate::starting::next_start;
use dg_breaks::first_break;
use dg_control::{IMAGES, Program};
use dg_nor::{Nor, Stopped};
use dg_slot::PROGRAM_SECTOR;
use dg_volume::{MountFault, Volume};
use std::alloc::Global;

/// What program memory shows.
fn see_program<N: Nor>(nor: &mut N, program: Program) -> Result<Option<ProgramSeen>, Stopped>
    requires holds { (app : Option App) × (program ≡ program_told app) × IfSome app (HoldsApp (N.device nor.old).image) }
    ensures shows { IfOk result (λ seen. (app : Option App) → program ≡ program_told app
        → IfSome app (HoldsApp (N.device nor.old).image) → ShowsProgram app seen) }
    ensures ends { ReadEnds result (N.device nor.old) (N.device nor.new) }
{
    match program {
        Program::Blank => Ok(None),
        Program::Set { image, version } => {
            let Some(pages) = see_whole(nor, PROGRAM_SECTOR)? else {
                return Ok(None);
            };
            Ok(Some(ProgramSeen {
                set: ImageVersion { image, version },
                pages,
            }))
        }
    }
}

/// What each image shows.
fn see_images<N: Nor>(
    alloc: Global,
    nor: &mut N,
    volume: &Volume,
) -> Result<Vec<Option<ImageSeen>>, LookFault>
    requires mounted { IsMounted (N.device nor.old).image volume.now }
    ensures count { IfOk result (λ seen. length seen.items ≡ images) }
    ensures shows { IfOk result (λ seen. (s : Store) → Mounted (N.device nor.old).image volume.now s
        → (i : ℕ) → i < images → ShowsKept (held s i) (slice_index_or seen.items i None)) }
    ensures ends { LookEnds result (N.device nor.old) (N.device nor.new) }
{
    let mut seen = Vec::new(alloc);
    for image in 0..IMAGES as u8 {
        let next = see_image(nor, volume, image)?;
        match seen.push(next) {
            Ok(()) => {}
            Err(_) => return Err(LookFault::Memory),
        }
    }
    Ok(seen)
}

/// What a volume shows.
fn see_volume<N: Nor>(alloc: Global, nor: &mut N, volume: &Volume) -> Result<VolumeSeen, LookFault>
    requires mounted { IsMounted (N.device nor.old).image volume.now }
    ensures shows { IfOk result (λ seen. (s : Store) → Mounted (N.device nor.old).image volume.now s → ShowsStore s seen) }
    ensures form { IfOk result (λ seen. HasForm (N.device nor.old).image seen.form) }
    ensures ends { LookEnds result (N.device nor.old) (N.device nor.new) }
{
    let now = volume.snapshot();
    let images = see_images(alloc, nor, volume)?;
    let program = see_program(nor, now.program)?;
    Ok(VolumeSeen {
        form: volume.form(),
        room: volume.room(),
        order: now.order,
        order_state: order_state(volume),
        gesture: now.gesture,
        next: next_start(volume, &images),
        program,
        images,
    })
}

/// What a chip shows, whatever its bytes are.
pub fn look<N: Nor>(alloc: Global, nor: &mut N) -> Result<ChipSeen, LookFault>
    ensures shows { IfOk result (ShowsChip (N.device nor.old).image) }
    ensures unchanged { (N.device nor.new).image ≡ (N.device nor.old).image }
    ensures ends { LookEnds result (N.device nor.old) (N.device nor.new) }
{
    match Volume::mount(nor) {
        Ok(volume) => {
            let seen = see_volume(alloc, nor, &volume)?;
            Ok(ChipSeen::Volume(seen))
        }
        Err(MountFault::Stopped) => Err(LookFault::Stopped),
        Err(MountFault::NotAVolume) => Ok(ChipSeen::Broken(first_break(nor)?)),
    }
}
