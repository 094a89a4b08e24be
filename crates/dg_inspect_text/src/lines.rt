//! What chips show, as lines for a terminal, of at most 100 columns each but for the name of a file.
use crate::images::PAGES;
use crate::report::{Moment, Report};
use crate::texts::{condition_text, order_text, reason_text};
use dg_bits::PageBits;
use dg_breaks::Break;
use dg_control::MOST_ROOM;
use dg_inspect::{
    ChipSeen, FileSeen, ImageSeen, NextNumbers, NextStart, PagesSeen, ProgramSeen, VolumeSeen,
};
use std::alloc::{AllocError, Global};
use std::str;

/// Appends a line.
pub(crate) fn push_line(text: &mut String, line: &str) -> Result<(), AllocError> {
    text.push_str(line)?;
    text.push_str("\n")?;
    Ok(())
}

/// A count with its unit.
fn counted(alloc: Global, count: u64, unit: &str) -> Result<String, AllocError> {
    if count == 1 {
        format!(in alloc; "1 {unit}")
    } else {
        format!(in alloc; "{count} {unit}s")
    }
}

/// The kind of a file.
fn kind_line(alloc: Global, seen: &FileSeen) -> Result<String, AllocError> {
    match seen {
        FileSeen::Other => String::from_str(alloc, "no chip: it has another length"),
        FileSeen::Blank => String::from_str(alloc, "blank: all bytes are ff"),
        FileSeen::Chip { older, chip } => chip_line(alloc, *older, chip),
    }
}

/// The kind of a chip.
fn chip_line(alloc: Global, older: bool, chip: &ChipSeen) -> Result<String, AllocError> {
    let kind = if older { "older chip" } else { "chip" };
    match chip {
        ChipSeen::Volume(volume) => format!(in alloc; "{kind}, form {}", volume.form),
        ChipSeen::Broken(broken) => broken_line(alloc, kind, broken),
    }
}

/// Why a chip is not a volume.
fn broken_line(alloc: Global, kind: &str, broken: &Break) -> Result<String, AllocError> {
    format!(in alloc;
        "{kind}, no volume: {}, sector {}, byte {}",
        condition_text(broken.condition),
        broken.sector,
        broken.byte
    )
}

/// When a file was read.
fn moment_line(alloc: Global, moment: &Moment) -> Result<String, AllocError> {
    let length = counted(alloc, moment.length, "byte")?;
    let state = if moment.settled {
        ""
    } else {
        ", and changed each time"
    };
    match moment.modified {
        None => format!(in alloc; "{length}, read {} times{state}", moment.reads),
        Some(seconds) => format!(in alloc;
            "{length}, changed at {seconds} s since 1970, read {} times{state}",
            moment.reads
        ),
    }
}

/// The share of its life that a chip has spent, in hundredths of a percent.
fn spent_share(room: u32) -> u32 {
    let spent = MOST_ROOM.saturating_sub(room);
    (u64::from(spent) * 10_000 / u64::from(MOST_ROOM)) as u32
}

/// The commits that are left.
fn room_line(alloc: Global, room: u32) -> Result<String, AllocError> {
    let share = spent_share(room);
    format!(in alloc;
        "room      {room} of {MOST_ROOM} commits, {}.{:02} % spent",
        share / 100,
        share % 100
    )
}

/// The order.
fn order_line(alloc: Global, volume: &VolumeSeen) -> Result<String, AllocError> {
    let order = volume.order;
    if order.number == 0 {
        return String::from_str(alloc, "order     none");
    }
    format!(in alloc;
        "order     {}: image {}, version {}, {}",
        order.number,
        order.image,
        order.version,
        order_text(volume.order_state)
    )
}

/// What the next start runs.
fn start_line(alloc: Global, next: &NextStart) -> Result<String, AllocError> {
    let waives = if next.waives {
        ", behind an order that is waived"
    } else {
        ""
    };
    match next.runs {
        None => format!(in alloc; "next      no image: {}{waives}", reason_text(next.reason)),
        Some(runs) => format!(in alloc;
            "next      image {}, version {}: {}{waives}",
            runs.image,
            runs.version,
            reason_text(next.reason)
        ),
    }
}

/// How sound pages are.
fn sound_text(alloc: Global, unsound: &PageBits<{ PAGES }>) -> Result<String, AllocError> {
    match unsound.first() {
        None => String::from_str(alloc, "sound"),
        Some(page) => format!(in alloc;
            "{}, page {page} first",
            counted(alloc, u64::from(unsound.count()), "unsound page")?
        ),
    }
}

/// The name, the length and the soundness of pages.
fn pages_text(alloc: Global, pages: &PagesSeen) -> Result<String, AllocError> {
    let name = str::from_utf8(pages.descriptor.name.as_slice()).unwrap_or("");
    let length = counted(alloc, u64::from(pages.descriptor.length), "byte")?;
    let sound = sound_text(alloc, &pages.unsound)?;
    format!(in alloc; "{name}, {length}, {sound}")
}

/// Appends the lines of the bytes of an image.
fn push_bytes(alloc: Global, text: &mut String, pages: &PagesSeen) -> Result<(), AllocError> {
    let Some(bytes) = pages.bytes else {
        return Ok(());
    };
    let sha256 = hex::encode(alloc, bytes.sha256)?;
    let line = format!(in alloc; "  CRC {:04x}, SHA-256 {sha256}", bytes.crc)?;
    push_line(text, line.as_str())
}

/// Appends the lines of program memory.
fn push_program(
    alloc: Global,
    text: &mut String,
    program: &Option<ProgramSeen>,
) -> Result<(), AllocError> {
    let Some(program) = program else {
        return push_line(text, "program   blank");
    };
    let pages = pages_text(alloc, &program.pages)?;
    let line = format!(in alloc;
        "program   image {}, version {}: {pages}",
        program.set.image, program.set.version
    )?;
    push_line(text, line.as_str())?;
    push_bytes(alloc, text, &program.pages)
}

/// Appends the lines of an image.
fn push_image(
    alloc: Global,
    text: &mut String,
    number: usize,
    image: &ImageSeen,
) -> Result<(), AllocError> {
    let line = format!(in alloc;
        "image {number}   version {}, {} of {} pages, CRC of page 0 {:04x}",
        image.version, image.done, image.pages, image.crc
    )?;
    push_line(text, line.as_str())?;
    let Some(pages) = &image.complete else {
        return Ok(());
    };
    let said = pages_text(alloc, pages)?;
    let line = format!(in alloc; "  {said}")?;
    push_line(text, line.as_str())?;
    push_bytes(alloc, text, pages)?;
    let Some(chain) = image.chain else {
        return Ok(());
    };
    let root = hex::encode(alloc, chain.root)?;
    let line = format!(in alloc; "  root {root}")?;
    push_line(text, line.as_str())
}

/// Appends the lines of a volume.
fn push_volume(alloc: Global, text: &mut String, volume: &VolumeSeen) -> Result<(), AllocError> {
    push_line(text, room_line(alloc, volume.room)?.as_str())?;
    let starts = counted(alloc, u64::from(volume.gesture), "short start")?;
    let line = format!(in alloc; "starts    {starts} in a row")?;
    push_line(text, line.as_str())?;
    push_line(text, order_line(alloc, volume)?.as_str())?;
    push_line(text, start_line(alloc, &volume.next)?.as_str())?;
    push_program(alloc, text, &volume.program)?;
    for number in 0..volume.images.len() {
        if let Some(image) = &volume.images[number] {
            push_image(alloc, text, number, image)?;
        }
    }
    Ok(())
}

/// What a file shows, as lines.
pub fn report_lines(alloc: Global, report: &Report) -> Result<String, AllocError> {
    let mut text = String::new(alloc);
    let kind = kind_line(alloc, &report.seen)?;
    let line = format!(in alloc; "{}: {kind}", report.name.as_str())?;
    push_line(&mut text, line.as_str())?;
    push_line(&mut text, moment_line(alloc, &report.moment)?.as_str())?;
    if let FileSeen::Chip {
        chip: ChipSeen::Volume(volume),
        ..
    } = &report.seen
    {
        push_volume(alloc, &mut text, volume)?;
    }
    Ok(text)
}

/// The line of a number that may be used next.
fn push_next(
    alloc: Global,
    text: &mut String,
    what: &str,
    next: Option<u32>,
) -> Result<(), AllocError> {
    let line = match next {
        None => format!(in alloc; "{what} none")?,
        Some(number) => format!(in alloc; "{what} {number}")?,
    };
    push_line(text, line.as_str())
}

/// The numbers that may be used next, as lines: `version IMAGE VERSION` for each image from 1 on, and `number NUMBER`.
pub fn next_lines(alloc: Global, next: &NextNumbers) -> Result<String, AllocError> {
    let mut text = String::new(alloc);
    for image in 1..next.versions.len() {
        let what = format!(in alloc; "version {image}")?;
        push_next(alloc, &mut text, what.as_str(), next.versions[image])?;
    }
    push_next(alloc, &mut text, "number", next.number)?;
    Ok(text)
}

/// The name of a file, and the moment at which it was read.
pub fn file_line(alloc: Global, name: &str, moment: &Moment) -> Result<String, AllocError> {
    let seen = moment_line(alloc, moment)?;
    format!(in alloc; "{name}: {seen}\n")
}
