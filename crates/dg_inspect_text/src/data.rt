//! What chips show as JSON.
ghost use Rattle.std.specs.Prelude.{◌≡◌, string_bytes, IfOk};
ghost use Rattle.serde_json.specs.View.{view};
ghost use Rattle.dg_inspect_text.specs.Json.{or_null, program_json, version_json, start_json, order_json, volume_json};
ghost use Rattle.dg_inspect_text.specs.Json.{break_json, moment_json, file_volume, file_break, chip_volume, chip_break};
ghost use Rattle.dg_inspect_text.specs.Json.{report_json, reports_json, next_json, versions_json, line_of};

use crate::images::{complete_value, images_value};
use crate::report::{Moment, Report};
use crate::texts::{condition_text, kind_text, order_text, reason_text};
use crate::values::{large_value, line_of, number_value, text_value};
use dg_breaks::Break;
use dg_control::{MOST_ROOM, Order};
use dg_inspect::{
    ChipSeen, FileSeen, ImageVersion, NextNumbers, NextStart, OrderState, ProgramSeen, VolumeSeen,
};
use serde_json::{Map, Value, put};
use std::alloc::{AllocError, Global};

/// Program memory.
fn program_value(alloc: Global, program: &Option<ProgramSeen>) -> Result<Value, AllocError>
    ensures { IfOk result (λ v. view v ≡ or_null program_json program.now) }
{
    let Some(program) = program else {
        return Ok(Value::Null);
    };
    let count = program.pages.descriptor.pages;
    let mut members = Map::new(alloc);
    put(
        &mut members,
        alloc,
        "complete",
        complete_value(alloc, &program.pages)?,
    )?;
    put(&mut members, alloc, "image", Value::from(program.set.image))?;
    put(&mut members, alloc, "pages", Value::from(count))?;
    put(
        &mut members,
        alloc,
        "version",
        Value::from(program.set.version),
    )?;
    Ok(Value::Object(members))
}

/// A version of an image.
fn version_value(alloc: Global, runs: &Option<ImageVersion>) -> Result<Value, AllocError>
    ensures { IfOk result (λ v. view v ≡ or_null version_json runs.now) }
{
    let Some(runs) = runs else {
        return Ok(Value::Null);
    };
    let mut members = Map::new(alloc);
    put(&mut members, alloc, "image", Value::from(runs.image))?;
    put(&mut members, alloc, "version", Value::from(runs.version))?;
    Ok(Value::Object(members))
}

/// What the next start runs.
fn start_value(alloc: Global, next: &NextStart) -> Result<Value, AllocError>
    ensures { IfOk result (λ v. view v ≡ start_json next.now) }
{
    let mut members = Map::new(alloc);
    put(
        &mut members,
        alloc,
        "reason",
        text_value(alloc, reason_text(next.reason))?,
    )?;
    put(
        &mut members,
        alloc,
        "runs",
        version_value(alloc, &next.runs)?,
    )?;
    put(&mut members, alloc, "waives", Value::from(next.waives))?;
    Ok(Value::Object(members))
}

/// The order.
fn order_value(alloc: Global, order: &Order, state: OrderState) -> Result<Value, AllocError>
    ensures { IfOk result (λ v. view v ≡ order_json order.now state) }
{
    if order.number == 0 {
        return Ok(Value::Null);
    }
    let mut members = Map::new(alloc);
    put(&mut members, alloc, "image", Value::from(order.image))?;
    put(&mut members, alloc, "number", Value::from(order.number))?;
    put(
        &mut members,
        alloc,
        "state",
        text_value(alloc, order_text(state))?,
    )?;
    put(&mut members, alloc, "version", Value::from(order.version))?;
    Ok(Value::Object(members))
}

/// A volume.
fn volume_value(alloc: Global, volume: &VolumeSeen) -> Result<Value, AllocError>
    ensures { IfOk result (λ v. view v ≡ volume_json volume.now) }
{
    let order = order_value(alloc, &volume.order, volume.order_state)?;
    let mut members = Map::new(alloc);
    put(&mut members, alloc, "form", Value::from(volume.form))?;
    put(
        &mut members,
        alloc,
        "images",
        images_value(alloc, &volume.images)?,
    )?;
    put(&mut members, alloc, "life", Value::from(MOST_ROOM))?;
    put(
        &mut members,
        alloc,
        "next",
        start_value(alloc, &volume.next)?,
    )?;
    put(&mut members, alloc, "order", order)?;
    put(
        &mut members,
        alloc,
        "program",
        program_value(alloc, &volume.program)?,
    )?;
    put(&mut members, alloc, "room", Value::from(volume.room))?;
    put(
        &mut members,
        alloc,
        "short_starts",
        Value::from(volume.gesture),
    )?;
    Ok(Value::Object(members))
}

/// Why a chip is not a volume.
fn break_value(alloc: Global, broken: &Break) -> Result<Value, AllocError>
    ensures { IfOk result (λ v. view v ≡ break_json broken.now) }
{
    let condition = text_value(alloc, condition_text(broken.condition))?;
    let mut members = Map::new(alloc);
    put(&mut members, alloc, "byte", Value::from(broken.byte))?;
    put(&mut members, alloc, "condition", condition)?;
    put(&mut members, alloc, "sector", Value::from(broken.sector))?;
    Ok(Value::Object(members))
}

/// The moment of a file.
pub(crate) fn moment_value(alloc: Global, moment: &Moment) -> Result<Value, AllocError>
    ensures { IfOk result (λ v. view v ≡ moment_json moment.now) }
{
    let mut members = Map::new(alloc);
    put(&mut members, alloc, "length", Value::from(moment.length))?;
    put(
        &mut members,
        alloc,
        "modified",
        large_value(moment.modified),
    )?;
    put(&mut members, alloc, "reads", Value::from(moment.reads))?;
    put(&mut members, alloc, "settled", Value::from(moment.settled))?;
    Ok(Value::Object(members))
}

/// The volume of a chip, or null.
fn chip_volume(alloc: Global, chip: &ChipSeen) -> Result<Value, AllocError>
    ensures { IfOk result (λ v. view v ≡ chip_volume chip.now) }
{
    match chip {
        ChipSeen::Volume(volume) => volume_value(alloc, volume),
        ChipSeen::Broken(_) => Ok(Value::Null),
    }
}

/// Why a chip is not a volume, or null.
fn chip_break(alloc: Global, chip: &ChipSeen) -> Result<Value, AllocError>
    ensures { IfOk result (λ v. view v ≡ chip_break chip.now) }
{
    match chip {
        ChipSeen::Volume(_) => Ok(Value::Null),
        ChipSeen::Broken(broken) => break_value(alloc, broken),
    }
}

/// The volume of a file, or null.
fn file_volume(alloc: Global, seen: &FileSeen) -> Result<Value, AllocError>
    ensures { IfOk result (λ v. view v ≡ file_volume seen.now) }
{
    match seen {
        FileSeen::Other => Ok(Value::Null),
        FileSeen::Blank => Ok(Value::Null),
        FileSeen::Chip { chip, .. } => chip_volume(alloc, chip),
    }
}

/// Why the chip of a file is not a volume, or null.
fn file_break(alloc: Global, seen: &FileSeen) -> Result<Value, AllocError>
    ensures { IfOk result (λ v. view v ≡ file_break seen.now) }
{
    match seen {
        FileSeen::Other => Ok(Value::Null),
        FileSeen::Blank => Ok(Value::Null),
        FileSeen::Chip { chip, .. } => chip_break(alloc, chip),
    }
}

/// What a file shows.
fn report_value(alloc: Global, report: &Report) -> Result<Value, AllocError>
    ensures { IfOk result (λ v. view v ≡ report_json report.now) }
{
    let mut members = Map::new(alloc);
    put(
        &mut members,
        alloc,
        "break",
        file_break(alloc, &report.seen)?,
    )?;
    put(
        &mut members,
        alloc,
        "file",
        text_value(alloc, report.name.as_str())?,
    )?;
    put(
        &mut members,
        alloc,
        "kind",
        text_value(alloc, kind_text(&report.seen))?,
    )?;
    put(
        &mut members,
        alloc,
        "moment",
        moment_value(alloc, &report.moment)?,
    )?;
    put(
        &mut members,
        alloc,
        "volume",
        file_volume(alloc, &report.seen)?,
    )?;
    Ok(Value::Object(members))
}

/// What files show.
fn reports_value(alloc: Global, reports: &[Report]) -> Result<Value, AllocError>
    ensures { IfOk result (λ v. view v ≡ reports_json reports.now) }
{
    let mut values = Vec::new(alloc);
    for report in reports {
        values.push(report_value(alloc, report)?)?;
    }
    Ok(Value::Array(values))
}

/// What files show, as a line of JSON: an array with a value for each.
pub fn reports_json(alloc: Global, reports: &[Report]) -> Result<String, AllocError>
    ensures { IfOk result (λ line. string_bytes line ≡ line_of (reports_json reports.now)) }
{
    let value = reports_value(alloc, reports)?;
    line_of(alloc, &value)
}

/// Versions, as numbers or null.
fn versions_value(alloc: Global, versions: &[Option<u32>]) -> Result<Value, AllocError>
    ensures { IfOk result (λ v. view v ≡ versions_json versions.now) }
{
    let mut values = Vec::new(alloc);
    for version in versions {
        values.push(number_value(*version))?;
    }
    Ok(Value::Array(values))
}

/// The numbers that may be used next.
fn next_value(alloc: Global, next: &NextNumbers) -> Result<Value, AllocError>
    ensures { IfOk result (λ v. view v ≡ next_json next.now) }
{
    let mut members = Map::new(alloc);
    put(&mut members, alloc, "number", number_value(next.number))?;
    put(
        &mut members,
        alloc,
        "versions",
        versions_value(alloc, &next.versions[1..])?,
    )?;
    Ok(Value::Object(members))
}

/// The numbers that may be used next, as a line of JSON: a version for each image from 1 on, in order, and an order number.
pub fn next_json(alloc: Global, next: &NextNumbers) -> Result<String, AllocError>
    ensures { IfOk result (λ line. string_bytes line ≡ line_of (next_json next.now)) }
{
    let value = next_value(alloc, next)?;
    line_of(alloc, &value)
}
