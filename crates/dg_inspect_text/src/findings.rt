//! Findings on chips, whether they are sound and how two compare, as JSON.
ghost use Rattle.std.specs.Prelude.{◌≡◌, string_bytes, IfOk};
ghost use Rattle.serde_json.specs.View.{view};
ghost use Rattle.dg_inspect_text.specs.Json.{or_null, parts_json, equal_json, flaw_json, verdict_flaw, verdict_json};
ghost use Rattle.dg_inspect_text.specs.Json.{side_json, shared_json, ahead_json};
ghost use Rattle.dg_inspect_text.specs.Json.{image_compared_json, images_compared_json, program_compared_json};
ghost use Rattle.dg_inspect_text.specs.Json.{order_compared_json, source_json, sources_json, comparison_json, line_of};

use crate::data::moment_value;
use crate::report::Moment;
use crate::texts::{side_text, verdict_text};
use crate::values::{line_of, text_value};
use dg_compare::{
    Ahead, Comparison, Flaw, ImageCompared, OrderCompared, ProgramCompared, SharedPages, Side,
    Verdict,
};
use serde_json::{Map, Value, put};
use std::alloc::{AllocError, Global};

/// The parts of a flaw, of which those that are not there are null.
fn parts_value(alloc: Global, image: Value, page: Value, what: &str) -> Result<Value, AllocError>
    ensures { IfOk result (λ v. view v ≡ parts_json (view image) (view page) what.now) }
{
    let mut members = Map::new(alloc);
    put(&mut members, alloc, "image", image)?;
    put(&mut members, alloc, "page", page)?;
    put(&mut members, alloc, "what", text_value(alloc, what)?)?;
    Ok(Value::Object(members))
}

/// What is not sound.
fn flaw_value(alloc: Global, flaw: Flaw) -> Result<Value, AllocError>
    ensures { IfOk result (λ v. view v ≡ flaw_json flaw) }
{
    match flaw {
        Flaw::Image { image, page } => {
            parts_value(alloc, Value::from(image), Value::from(page), "image")
        }
        Flaw::Program { page } => parts_value(alloc, Value::Null, Value::from(page), "program"),
        Flaw::Root { image } => parts_value(alloc, Value::from(image), Value::Null, "root"),
    }
}

/// The flaw of a verdict, or null.
fn verdict_flaw(alloc: Global, verdict: Verdict) -> Result<Value, AllocError>
    ensures { IfOk result (λ v. view v ≡ verdict_flaw verdict) }
{
    match verdict {
        Verdict::Flawed(flaw) => flaw_value(alloc, flaw),
        Verdict::Sound => Ok(Value::Null),
        Verdict::NoVolume => Ok(Value::Null),
    }
}

/// A verdict on the chip in a file.
fn verdict_value(
    alloc: Global,
    file: &str,
    moment: &Moment,
    verdict: Verdict,
) -> Result<Value, AllocError>
    ensures { IfOk result (λ v. view v ≡ verdict_json file.now moment.now verdict) }
{
    let mut members = Map::new(alloc);
    put(&mut members, alloc, "file", text_value(alloc, file)?)?;
    put(&mut members, alloc, "flaw", verdict_flaw(alloc, verdict)?)?;
    put(&mut members, alloc, "moment", moment_value(alloc, moment)?)?;
    put(
        &mut members,
        alloc,
        "verdict",
        text_value(alloc, verdict_text(verdict))?,
    )?;
    Ok(Value::Object(members))
}

/// A verdict on the chip in a file, as a line of JSON.
pub fn verdict_json(
    alloc: Global,
    file: &str,
    moment: &Moment,
    verdict: Verdict,
) -> Result<String, AllocError>
    ensures { IfOk result (λ line. string_bytes line ≡ line_of (verdict_json file.now moment.now verdict)) }
{
    let value = verdict_value(alloc, file, moment, verdict)?;
    line_of(alloc, &value)
}

/// Which of two chips, or null.
fn side_value(alloc: Global, side: Option<Side>) -> Result<Value, AllocError>
    ensures { IfOk result (λ v. view v ≡ or_null side_json side) }
{
    match side {
        None => Ok(Value::Null),
        Some(side) => text_value(alloc, side_text(side)),
    }
}

/// Whether the pages that both have are equal, and the first that differs.
fn equal_value(alloc: Global, differs: Value, equal: bool) -> Result<Value, AllocError>
    ensures { IfOk result (λ v. view v ≡ equal_json (view differs) equal) }
{
    let mut members = Map::new(alloc);
    put(&mut members, alloc, "differs", differs)?;
    put(&mut members, alloc, "equal", Value::from(equal))?;
    Ok(Value::Object(members))
}

/// What both chips have of one version.
fn shared_value(alloc: Global, shared: SharedPages) -> Result<Value, AllocError>
    ensures { IfOk result (λ v. view v ≡ shared_json shared) }
{
    match shared {
        SharedPages::Nothing => Ok(Value::Null),
        SharedPages::Equal => equal_value(alloc, Value::Null, true),
        SharedPages::Differ { page } => equal_value(alloc, Value::from(page), false),
    }
}

/// The chip that is ahead, or null.
fn ahead_value(alloc: Global, ahead: Option<Ahead>) -> Result<Value, AllocError>
    ensures { IfOk result (λ v. view v ≡ or_null ahead_json ahead) }
{
    let Some(ahead) = ahead else {
        return Ok(Value::Null);
    };
    let mut members = Map::new(alloc);
    put(
        &mut members,
        alloc,
        "chip",
        text_value(alloc, side_text(ahead.side))?,
    )?;
    put(&mut members, alloc, "has_room", Value::from(ahead.has_room))?;
    put(
        &mut members,
        alloc,
        "other_profile",
        Value::from(ahead.other_profile),
    )?;
    Ok(Value::Object(members))
}

/// How two chips compare in an image.
fn image_value(alloc: Global, number: usize, image: &ImageCompared) -> Result<Value, AllocError>
    ensures { IfOk result (λ v. view v ≡ image_compared_json number image.now) }
{
    let mut members = Map::new(alloc);
    put(
        &mut members,
        alloc,
        "ahead",
        ahead_value(alloc, image.ahead)?,
    )?;
    put(&mut members, alloc, "alike", Value::from(image.alike))?;
    put(&mut members, alloc, "image", Value::from(number))?;
    put(
        &mut members,
        alloc,
        "shared",
        shared_value(alloc, image.shared)?,
    )?;
    Ok(Value::Object(members))
}

/// How two chips compare in each image.
fn images_value(alloc: Global, images: &[ImageCompared]) -> Result<Value, AllocError>
    ensures { IfOk result (λ v. view v ≡ images_compared_json images.now) }
{
    let mut values = Vec::new(alloc);
    for number in 0..images.len() {
        values.push(image_value(alloc, number, &images[number])?)?;
    }
    Ok(Value::Array(values))
}

/// How two program memories compare.
fn program_value(alloc: Global, program: &ProgramCompared) -> Result<Value, AllocError>
    ensures { IfOk result (λ v. view v ≡ program_compared_json program.now) }
{
    let mut members = Map::new(alloc);
    put(&mut members, alloc, "alike", Value::from(program.alike))?;
    put(
        &mut members,
        alloc,
        "shared",
        shared_value(alloc, program.shared)?,
    )?;
    Ok(Value::Object(members))
}

/// How two orders compare.
fn order_value(alloc: Global, order: &OrderCompared) -> Result<Value, AllocError>
    ensures { IfOk result (λ v. view v ≡ order_compared_json order.now) }
{
    let mut members = Map::new(alloc);
    put(
        &mut members,
        alloc,
        "ahead",
        side_value(alloc, order.ahead)?,
    )?;
    put(&mut members, alloc, "alike", Value::from(order.alike))?;
    Ok(Value::Object(members))
}

/// A file, and the moment at which it was read.
fn source_value(alloc: Global, name: &str, moment: &Moment) -> Result<Value, AllocError>
    ensures { IfOk result (λ v. view v ≡ source_json name.now moment.now) }
{
    let mut members = Map::new(alloc);
    put(&mut members, alloc, "file", text_value(alloc, name)?)?;
    put(&mut members, alloc, "moment", moment_value(alloc, moment)?)?;
    Ok(Value::Object(members))
}

/// Two files, and the moments at which they were read.
fn sources_value(
    alloc: Global,
    name: &str,
    moment: &Moment,
    other: &str,
    other_moment: &Moment,
) -> Result<Value, AllocError>
    ensures { IfOk result (λ v. view v ≡ sources_json name.now moment.now other.now other_moment.now) }
{
    let mut values = Vec::new(alloc);
    values.push(source_value(alloc, name, moment)?)?;
    values.push(source_value(alloc, other, other_moment)?)?;
    Ok(Value::Array(values))
}

/// How the chips in two files compare.
fn comparison_value(alloc: Global, files: Value, found: &Comparison) -> Result<Value, AllocError>
    ensures { IfOk result (λ v. view v ≡ comparison_json (view files) found.now) }
{
    let mut members = Map::new(alloc);
    put(&mut members, alloc, "alike", Value::from(found.alike))?;
    put(&mut members, alloc, "files", files)?;
    put(
        &mut members,
        alloc,
        "images",
        images_value(alloc, &found.images)?,
    )?;
    put(
        &mut members,
        alloc,
        "order",
        order_value(alloc, &found.order)?,
    )?;
    put(
        &mut members,
        alloc,
        "program",
        program_value(alloc, &found.program)?,
    )?;
    Ok(Value::Object(members))
}

/// How the chips in two files compare, as a line of JSON, with the moments at which these files were read.
pub fn comparison_json(
    alloc: Global,
    name: &str,
    moment: &Moment,
    other: &str,
    other_moment: &Moment,
    found: &Comparison,
) -> Result<String, AllocError>
    ensures { IfOk result (λ line. string_bytes line
        ≡ line_of (comparison_json (sources_json name.now moment.now other.now other_moment.now) found.now)) }
{
    let files = sources_value(alloc, name, moment, other, other_moment)?;
    let value = comparison_value(alloc, files, found)?;
    line_of(alloc, &value)
}
