//! The verb `ping`.
ghost use Rattle.std.specs.Prelude.{◌≡◌, ◌≢◌, ◌≤◌, ◌<◌, ◌+◌, ◌-◌, ◌++◌, ◌∷◌, [], ℕ, List, Option, Some, OnOk, IfOk, codes, map};
ghost use Rattle.std.specs.Prelude.{length, if◌then◌else◌, Ok};
ghost use Rattle.std.specs.List.{flat_map, range_with_len};
ghost use Rattle.dg_slot.specs.Kept.{Held, KeepsImage};
ghost use Rattle.dg_volume.specs.Sizes.{images};
ghost use Rattle.dg_volume.specs.Store.{App, Store, held};
ghost use Rattle.dg_volume.specs.Stands.{Mounted, IsMounted, Tells};
ghost use Rattle.dg_volume.specs.Told.{told_held, program_told};
ghost use Rattle.dg_end.specs.Texts.{numbers, line};
ghost use Rattle.dg_tool.specs.Endings.{Acting};
ghost use Rattle.dg_tool.specs.Verbs.{program_line, order_line, commits_text, ping_line, ping_text};
ghost use Rattle.dg_tool.specs.inner.OnChip.{kept_lines};
ghost use Rattle.dg_tool.specs.Done.{OnBoards};
ghost use Rattle.dg_end.specs.Lines.{text_outcome};
ghost use Rattle.dg_tool.specs.inner.OneBoard.{ReadsOn};
ghost use Rattle.dg_tool.specs.Rules.{reading_rule};

use crate::pages::read_first;
use dg_control::{GOLDEN, IMAGES, Order, Program};
use dg_end::{End, push_line, push_numbers, push_words};
use dg_nor::Nor;
use dg_object::Descriptor;
use dg_volume::{Kept, Volume};
use std::alloc::{AllocError, Global};

/// Appends the line of golden.
fn push_golden(text: &mut Vec<u8>, golden: &Descriptor) -> Result<(), AllocError>
    ensures { OnOk result (text.new.items ≡ text.old.items
        ++ line (codes "golden " ++ golden.now.name ++ numbers (golden.now.length ∷ []))) }
{
    text.extend_from_slice(b"golden ")?;
    text.extend_from_slice(golden.name.as_slice())?;
    push_numbers(text, &[golden.length])?;
    text.push(b'\n')?;
    Ok(())
}

/// Appends the line of program memory.
fn push_program(text: &mut Vec<u8>, program: Program) -> Result<(), AllocError>
    ensures { OnOk result ((app : Option App) → program ≡ program_told app
        → text.new.items ≡ text.old.items ++ program_line app) }
{
    match program {
        Program::Blank => push_line(text, b"program blank", &[]),
        Program::Set { image, version } => {
            push_line(text, b"program", &[u32::from(image), version])
        }
    }
}

/// Appends the line of an order, whose number is 0 where there is none.
fn push_order(text: &mut Vec<u8>, order: &Order, waived: bool) -> Result<(), AllocError>
    ensures { OnOk result (text.new.items ≡ text.old.items ++ order_line order.now waived) }
{
    if order.number == 0 {
        return push_line(text, b"order none", &[]);
    }
    push_words(
        text,
        b"order",
        &[order.number, u32::from(order.image), order.version],
    )?;
    push_waived(text, waived)?;
    text.push(b'\n')?;
    Ok(())
}

/// Appends the word of an order that is waived.
fn push_waived(text: &mut Vec<u8>, waived: bool) -> Result<(), AllocError>
    ensures { OnOk result (text.new.items ≡ text.old.items ++ (if waived then codes " waived" else [])) }
{
    if waived {
        text.extend_from_slice(b" waived")
    } else {
        Ok(())
    }
}

/// Appends the lines of what a volume commits.
fn push_commits(text: &mut Vec<u8>, volume: &Volume) -> Result<(), AllocError>
    ensures { OnOk result ((s : Store) → Tells volume.now s → text.new.items ≡ text.old.items ++ commits_text s) }
{
    let now = volume.snapshot();
    push_program(text, now.program)?;
    push_order(text, &now.order, now.waived)?;
    push_line(text, b"gesture", &[u32::from(now.gesture)])?;
    push_line(text, b"room", &[volume.room()])
}

/// Appends the line of an image with this name.
fn push_named(text: &mut Vec<u8>, image: u8, kept: &Kept, name: &[u8]) -> Result<(), AllocError>
    ensures { OnOk result (text.new.items ≡ text.old.items
        ++ line (codes "kept" ++ numbers (image ∷ kept.now.version ∷ kept.now.done ∷ kept.now.pages ∷ []) ++ 32 ∷ name.now)) }
{
    push_words(
        text,
        b"kept",
        &[
            u32::from(image),
            kept.version,
            u32::from(kept.done),
            u32::from(kept.pages),
        ],
    )?;
    text.push(b' ')?;
    text.extend_from_slice(name)?;
    text.push(b'\n')?;
    Ok(())
}

/// Appends the line of an image of which this is kept.
fn push_kept<N: Nor>(text: &mut Vec<u8>, image: u8, kept: &Kept, nor: &mut N) -> Result<(), End>
    requires known_image { image < images }
    requires keeps { (h : Held) × KeepsImage (N.device nor.old).image image h × (kept.now ≡ told_held h) }
    ensures told { OnOk result ((h : Held) → KeepsImage (N.device nor.old).image image h → kept.now ≡ told_held h
        → text.new.items ≡ text.old.items ++ ping_line image (Some h)) }
    ensures ends { ReadsOn result (N.device nor.old) (N.device nor.new) }
{
    if kept.done == 0 {
        push_named(text, image, kept, b"-")?;
        return Ok(());
    }
    let first = read_first(nor, image)?;
    push_named(text, image, kept, first.name.as_slice())?;
    Ok(())
}

/// Appends the line of an image, where something is kept of it.
fn push_image<N: Nor>(
    text: &mut Vec<u8>,
    image: u8,
    nor: &mut N,
    volume: &Volume,
) -> Result<(), End>
    requires known_image { image < images }
    requires mounted { IsMounted (N.device nor.old).image volume.now }
    ensures told { OnOk result ((s : Store) → Mounted (N.device nor.old).image volume.now s
        → text.new.items ≡ text.old.items ++ ping_line image (held s image)) }
    ensures ends { ReadsOn result (N.device nor.old) (N.device nor.new) }
{
    match volume.kept(image) {
        None => Ok(()),
        Some(kept) => push_kept(text, image, &kept, nor),
    }
}

/// Appends the lines of the images after golden.
fn push_images<N: Nor>(text: &mut Vec<u8>, nor: &mut N, volume: &Volume) -> Result<(), End>
    requires mounted { IsMounted (N.device nor.old).image volume.now }
    ensures told { OnOk result ((s : Store) → Mounted (N.device nor.old).image volume.now s
        → text.new.items ≡ text.old.items ++ kept_lines s) }
    ensures ends { ReadsOn result (N.device nor.old) (N.device nor.new) }
{
    for image in 1..IMAGES as u8 {
        push_image(text, image, nor, volume)?;
    }
    Ok(())
}

/// Reports what a mounted board keeps.
fn ping_mounted<N: Nor>(alloc: Global, nor: &mut N, volume: &Volume) -> Result<Vec<u8>, End>
    requires mounted { IsMounted (N.device nor.old).image volume.now }
    ensures told { IfOk result (λ text. (s : Store) → Mounted (N.device nor.old).image volume.now s → text.items ≡ ping_text s) }
    ensures ends { ReadsOn result (N.device nor.old) (N.device nor.new) }
{
    let mut text = Vec::new(alloc);
    let golden = read_first(nor, GOLDEN)?;
    push_golden(&mut text, &golden)?;
    push_commits(&mut text, volume)?;
    push_images(&mut text, nor, volume)?;
    Ok(text)
}

/// Reports what the first of the boards keeps.
pub(crate) fn ping_first<N: Nor>(alloc: Global, boards: &mut [N]) -> Result<Vec<u8>, End>
    ensures done { OnBoards (text_outcome (λ text. text.items) result)
        (reading_rule (map N.device boards.old) (λ s. Acting (Ok (ping_text s)))) ⊥
        (map N.device boards.old) (map N.device boards.new) }
    ensures unchanged { map (λ board. (N.device board).image) boards.new ≡ map (λ board. (N.device board).image) boards.old }
{
    if boards.is_empty() {
        return Err(End::NoBoard { need: 1, have: 0 });
    }
    let nor = &mut boards[0];
    let volume = Volume::mount(nor)?;
    let text = ping_mounted(alloc, nor, &volume)?;
    Ok(text)
}
