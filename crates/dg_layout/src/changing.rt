//! What changes at motes, after what their chips kept from the start.
ghost use Rattle.std.specs.Prelude.{◌≡◌, ◌++◌, ◌∷◌, [], ◌+◌, ◌<◌, ◌≤◌, if◌then◌else◌, OnOk, IfOk};
ghost use Rattle.std.specs.List.{filter};
ghost use Rattle.dg_story.specs.Reports.{is_change, first_of, kept_first};
ghost use Rattle.dg_layout.specs.Layout.{each, changes_of};

use crate::layout::Frame;
use dg_script::Report;
use dg_story::{Pages, Told, changes_image, is_change, total};
use std::alloc::{AllocError, Global};

// Keeps what was kept of an image at a mote, at the beginning of the axis.
fn keep_pages(
    changes: &mut Vec<Told>,
    mote: u8,
    image: u8,
    kept: Option<Pages>,
) -> Result<(), AllocError>
    ensures { OnOk result (changes.new.items ≡ changes.old.items ++ kept_first mote image kept) }
{
    let Some(pages) = kept else {
        return Ok(());
    };
    changes.push(Told {
        place: 0,
        report: Report::Have {
            mote,
            image,
            version: pages.version,
            pages: pages.count,
        },
    })?;
    Ok(())
}

// Keeps what a chip kept of an image from the start on.
fn keep_first(changes: &mut Vec<Told>, told: &[Told], mote: u8, image: u8) -> Result<(), AllocError>
    ensures { OnOk result (changes.new.items ≡ changes.old.items ++ first_of told.now mote image) }
{
    let at = u32::from(mote);
    if changes_image(at, image, told) {
        return Ok(());
    }
    keep_pages(changes, mote, image, total(at, image, told))
}

// Keeps what a chip kept of all images from the start on.
fn keep_mote(changes: &mut Vec<Told>, told: &[Told], images: u8, mote: u8) -> Result<(), AllocError>
    ensures { OnOk result (changes.new.items ≡ changes.old.items ++ each (λ i. first_of told.now mote (i + 1)) images) }
{
    for before in 0..images {
        keep_first(changes, told, mote, before + 1)?;
    }
    Ok(())
}

// Keeps what all chips kept from the start on.
fn keep_firsts(changes: &mut Vec<Told>, told: &[Told], frame: Frame) -> Result<(), AllocError>
    requires rows { frame.rows ≤ 256 }
    ensures { OnOk result (changes.new.items ≡ changes.old.items
        ++ each (λ mote. each (λ i. first_of told.now mote (i + 1)) frame.images) frame.rows) }
{
    for mote in 0..frame.rows {
        keep_mote(changes, told, frame.images, mote as u8)?;
    }
    Ok(())
}

// Keeps a line that reports a change.
fn keep_change(changes: &mut Vec<Told>, here: &Told) -> Result<(), AllocError>
    ensures { OnOk result (changes.new.items ≡ changes.old.items ++ (if is_change here.now.report then here.now ∷ [] else [])) }
{
    if !is_change(&here.report) {
        return Ok(());
    }
    changes.push(*here)?;
    Ok(())
}

// Keeps all lines that report a change.
fn keep_changes(changes: &mut Vec<Told>, told: &[Told]) -> Result<(), AllocError>
    ensures { OnOk result (changes.new.items ≡ changes.old.items ++ filter (λ t. is_change t.report) told.now) }
{
    for here in told {
        keep_change(changes, here)?;
    }
    Ok(())
}

/// What each chip kept from the start on, and the lines that report a change at a mote, in their order.
#[tactic(auto, unfolding(crate::specs::Layout::changes_of))]
pub fn changes(alloc: Global, told: &[Told], frame: Frame) -> Result<Vec<Told>, AllocError>
    requires rows { frame.rows ≤ 256 }
    ensures { IfOk result (λ v. v.items ≡ changes_of frame told.now) }
{
    let mut changes = Vec::new(alloc);
    keep_firsts(&mut changes, told, frame)?;
    keep_changes(&mut changes, told)?;
    Ok(changes)
}
