//! What was counted as tables for people, of at most 100 columns.

use crate::layout::Layout;
use crate::model::Model;
use crate::moment::{Moment, What};
use crate::rows::{Counted, Rows};
use std::alloc::{AllocError, Global};

const RADIO: &str = "\
Radio
mote      sent        bytes      heard        bytes    in vain              seconds on
";

const FLASH: &str = "
Flash: sectors erased, and bytes programmed
mote   ledger  control  program    slots |    ledger     control       program         slots
";

const COMMITS: &str = "
Commits, room and starts
mote    commits       cut  room before   room left |    starts       cut  no image    events
";

const MOMENTS: &str = "
Images that became whole
mote  image     version  times         event                seconds
";

const ENERGY: &str = "
Energy by the model
mote                               picojoules
";

const SCHEDULED: &str = "
Rounds or sweeps were played: moments are those of their schedule, which gives a round 5 h 32 min,
and no estimate of a network's time.
";

/// The motes one after another, and all of them where there is more than one.
fn each(counted: &Counted, layout: &mut Layout, line: Line) -> Result<(), AllocError> {
    for mote in 0..counted.motes.len() {
        layout.name(Some(mote))?;
        line_of(layout, &counted.motes[mote], line)?;
    }
    if 1 < counted.motes.len() {
        layout.name(None)?;
        line_of(layout, &counted.all, line)?;
    }
    Ok(())
}

/// A kind of line with a mote's numbers.
#[derive(Clone, Copy)]
enum Line {
    Radio,
    Flash,
    Commits,
}

fn line_of(layout: &mut Layout, rows: &Rows, line: Line) -> Result<(), AllocError> {
    match line {
        Line::Radio => radio(layout, rows)?,
        Line::Flash => flash(layout, rows)?,
        Line::Commits => commits(layout, rows)?,
    }
    layout.put("\n")
}

fn radio(layout: &mut Layout, rows: &Rows) -> Result<(), AllocError> {
    layout.number(rows.sum_of("sent.", ".count"), 10)?;
    layout.number(rows.sum_of("sent.", ".bytes"), 13)?;
    layout.number(rows.sum_of("heard.", ".count"), 11)?;
    layout.number(rows.sum_of("heard.", ".bytes"), 13)?;
    layout.number(rows.value("packets.vain.count"), 11)?;
    layout.seconds(rows.value("on.ms"), 24)
}

fn flash(layout: &mut Layout, rows: &Rows) -> Result<(), AllocError> {
    layout.number(rows.value("flash.run.erase.ledger.count"), 9)?;
    layout.number(rows.value("flash.run.erase.control.count"), 9)?;
    layout.number(rows.value("flash.run.erase.program.count"), 9)?;
    layout.number(rows.value("flash.run.erase.slots.count"), 9)?;
    layout.put(" |")?;
    layout.number(rows.value("flash.run.program.ledger.bytes"), 10)?;
    layout.number(rows.value("flash.run.program.control.bytes"), 12)?;
    layout.number(rows.value("flash.run.program.program.bytes"), 14)?;
    layout.number(rows.value("flash.run.program.slots.bytes"), 14)
}

/// The value of a key in a column of this width, which is empty where there is no such row.
fn known(layout: &mut Layout, rows: &Rows, key: &str, width: usize) -> Result<(), AllocError> {
    match rows.find(key) {
        Some(value) => layout.number(value, width),
        None => layout.word("", width),
    }
}

fn commits(layout: &mut Layout, rows: &Rows) -> Result<(), AllocError> {
    let power = rows.value("starts.power");
    let order = rows.value("starts.order");
    let cut = rows.value("starts.cut.power");
    let cut_order = rows.value("starts.cut.order");
    layout.number(rows.value("commits.made"), 11)?;
    layout.number(rows.value("commits.cut"), 10)?;
    known(layout, rows, "room.begin", 13)?;
    known(layout, rows, "room.end", 12)?;
    layout.put(" |")?;
    layout.number(power.saturating_add(order), 10)?;
    layout.number(cut.saturating_add(cut_order), 10)?;
    layout.number(rows.value("starts.none"), 10)?;
    layout.number(rows.sum_of("events.", ""), 10)
}

/// A moment of a mote, or of all.
fn moment_line(
    layout: &mut Layout,
    mote: Option<usize>,
    what: What,
    at: Moment,
) -> Result<(), AllocError> {
    layout.name(mote)?;
    match what {
        What::Whole {
            image,
            version,
            times,
        } => {
            layout.number(u64::from(image), 7)?;
            layout.number(u64::from(version), 12)?;
            layout.number(u64::from(times), 7)?;
        }
        What::All { image, version } => {
            layout.number(u64::from(image), 7)?;
            layout.number(u64::from(version), 12)?;
            layout.word("", 7)?;
        }
        What::Newest { image } => {
            layout.number(u64::from(image), 7)?;
            layout.word("newest", 12)?;
            layout.word("", 7)?;
        }
    }
    layout.number(at.event, 14)?;
    layout.seconds(at.ms, 23)?;
    layout.put("\n")
}

/// The moments of a mote, or of all.
fn moment_lines(layout: &mut Layout, mote: Option<usize>, rows: &Rows) -> Result<(), AllocError> {
    for (what, at) in &rows.moments {
        moment_line(layout, mote, *what, *at)?;
    }
    Ok(())
}

fn moments(layout: &mut Layout, counted: &Counted) -> Result<(), AllocError> {
    layout.put(MOMENTS)?;
    for mote in 0..counted.motes.len() {
        moment_lines(layout, Some(mote), &counted.motes[mote])?;
    }
    moment_lines(layout, None, &counted.all)
}

fn energy(layout: &mut Layout, counted: &Counted, model: &Model) -> Result<(), AllocError> {
    layout.put(ENERGY)?;
    for mote in 0..counted.motes.len() {
        layout.name(Some(mote))?;
        layout.great(model.energy(&counted.motes[mote]), 41)?;
        layout.put("\n")?;
    }
    layout.name(None)?;
    layout.great(model.energy_of_all(&counted.motes), 41)?;
    layout.put("\n")
}

/// What is in none of the tables: frames from outside, and what formatting made.
fn others(layout: &mut Layout, all: &Rows) -> Result<(), AllocError> {
    let outside = all.sum_of("outside.", ".count");
    if 0 < outside {
        layout.put("\nFrames from outside, which are not among those that were heard: ")?;
        layout.number(outside, 0)?;
        layout.put(", of ")?;
        layout.number(all.sum_of("outside.", ".bytes"), 0)?;
        layout.line(" bytes.")?;
    }
    let erased = all.value("flash.format.erase.slots.count");
    let programmed = all.value("flash.format.program.slots.bytes");
    if 0 < programmed {
        layout.put("\nFormatting stands apart: it erased ")?;
        layout.number(erased.saturating_add(format_erases(all)), 0)?;
        layout.put(" sectors and programmed ")?;
        layout.number(programmed.saturating_add(format_bytes(all)), 0)?;
        layout.line(" bytes.")?;
    }
    Ok(())
}

/// The sectors that formatting erased beside slots.
fn format_erases(all: &Rows) -> u64 {
    all.value("flash.format.erase.ledger.count")
        .saturating_add(all.value("flash.format.erase.control.count"))
        .saturating_add(all.value("flash.format.erase.program.count"))
}

/// The bytes that formatting programmed beside slots.
fn format_bytes(all: &Rows) -> u64 {
    all.value("flash.format.program.ledger.bytes")
        .saturating_add(all.value("flash.format.program.control.bytes"))
        .saturating_add(all.value("flash.format.program.program.bytes"))
}

/// How far the run came.
fn head(layout: &mut Layout, all: &Rows) -> Result<(), AllocError> {
    layout.put("Motes ")?;
    layout.number(all.value("run.motes"), 0)?;
    layout.put(", events ")?;
    layout.number(all.value("run.events"), 0)?;
    layout.put(", seconds ")?;
    layout.seconds(all.value("run.ms"), 0)?;
    layout.put(", status ")?;
    layout.number(all.value("run.status"), 0)?;
    layout.line("\n")
}

/// What was counted as tables for people, of at most 100 columns, with the energy of each mote where there is a model.
pub fn table_text(
    alloc: Global,
    counted: &Counted,
    model: Option<&Model>,
) -> Result<Vec<u8>, AllocError> {
    let mut layout = Layout::new(alloc);
    head(&mut layout, &counted.all)?;
    layout.put(RADIO)?;
    each(counted, &mut layout, Line::Radio)?;
    layout.put(FLASH)?;
    each(counted, &mut layout, Line::Flash)?;
    layout.put(COMMITS)?;
    each(counted, &mut layout, Line::Commits)?;
    moments(&mut layout, counted)?;
    if let Some(model) = model {
        energy(&mut layout, counted, model)?;
    }
    others(&mut layout, &counted.all)?;
    if counted.scheduled {
        layout.put(SCHEDULED)?;
    }
    let Layout { text, .. } = layout;
    Ok(text)
}
