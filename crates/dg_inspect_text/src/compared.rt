//! Findings on chips, whether they are sound and how two compare, as lines of at most 100 columns but for the
//! names of files.
use crate::lines::push_line;
use crate::texts::side_text;
use dg_compare::{
    Ahead, Comparison, Flaw, ImageCompared, OrderCompared, ProgramCompared, SharedPages, Verdict,
};
use std::alloc::{AllocError, Global};

/// What is not sound.
fn flaw_text(alloc: Global, flaw: Flaw) -> Result<String, AllocError> {
    match flaw {
        Flaw::Image { image, page } => {
            format!(in alloc; "not sound: image {image}, page {page}")
        }
        Flaw::Program { page } => format!(in alloc; "not sound: program memory, page {page}"),
        Flaw::Root { image } => format!(in alloc; "not so: image {image} has not this root"),
    }
}

/// A verdict, as a line.
pub fn verdict_line(alloc: Global, verdict: Verdict) -> Result<String, AllocError> {
    let mut text = match verdict {
        Verdict::Sound => String::from_str(alloc, "sound")?,
        Verdict::Flawed(flaw) => flaw_text(alloc, flaw)?,
        Verdict::NoVolume => String::from_str(alloc, "no volume")?,
    };
    text.push_str("\n")?;
    Ok(text)
}

/// What both chips have of one version.
fn shared_text(alloc: Global, shared: SharedPages) -> Result<String, AllocError> {
    match shared {
        SharedPages::Nothing => String::from_str(alloc, "no version that both have"),
        SharedPages::Equal => String::from_str(alloc, "pages that both have are equal"),
        SharedPages::Differ { page } => format!(in alloc; "page {page} differs first"),
    }
}

/// What keeps the chip that is behind from taking what the other has.
fn lag_text(ahead: Ahead) -> &'static str {
    if ahead.other_profile {
        "; the other keeps another profile of it"
    } else if ahead.has_room {
        ""
    } else {
        "; the other has no room for it"
    }
}

/// How two chips compare in an image.
fn image_text(alloc: Global, image: &ImageCompared) -> Result<String, AllocError> {
    if image.alike {
        return match image.shared {
            SharedPages::Nothing => String::from_str(alloc, "on neither"),
            _ => String::from_str(alloc, "alike"),
        };
    }
    let shared = shared_text(alloc, image.shared)?;
    match image.ahead {
        None => format!(in alloc; "neither is ahead, {shared}"),
        Some(ahead) => {
            format!(in alloc;
                "{} is ahead, {shared}{}",
                side_text(ahead.side),
                lag_text(ahead)
            )
        }
    }
}

/// How two program memories compare.
fn program_text(alloc: Global, program: &ProgramCompared) -> Result<String, AllocError> {
    if program.alike {
        return String::from_str(alloc, "alike");
    }
    let shared = shared_text(alloc, program.shared)?;
    format!(in alloc; "not alike, {shared}")
}

/// How two orders compare.
fn order_text(order: &OrderCompared) -> &'static str {
    match order.ahead {
        Some(dg_compare::Side::First) => "first is ahead",
        Some(dg_compare::Side::Second) => "second is ahead",
        None if order.alike => "alike",
        None => "not alike, with one number",
    }
}

/// How two chips compare, as lines.
pub fn comparison_lines(alloc: Global, found: &Comparison) -> Result<String, AllocError> {
    let mut text = String::new(alloc);
    for number in 0..found.images.len() {
        let said = image_text(alloc, &found.images[number])?;
        push_line(
            &mut text,
            format!(in alloc; "image {number}   {said}")?.as_str(),
        )?;
    }
    let program = program_text(alloc, &found.program)?;
    push_line(
        &mut text,
        format!(in alloc; "program   {program}")?.as_str(),
    )?;
    let order = order_text(&found.order);
    push_line(&mut text, format!(in alloc; "order     {order}")?.as_str())?;
    push_line(&mut text, if found.alike { "alike" } else { "not alike" })?;
    Ok(text)
}
