//! What is shown of images as JSON.
ghost use Rattle.std.specs.Prelude.{◌≡◌, IfOk};
ghost use Rattle.serde_json.specs.View.{view};
ghost use Rattle.dg_inspect_text.specs.Json.{or_null, pages_json, bytes_json, complete_json, chain_json};
ghost use Rattle.dg_inspect_text.specs.Json.{image_json, images_json};

use crate::values::{crc_value, hex_value, name_value};
use dg_bits::PageBits;
use dg_inspect::{BytesSeen, ChainSeen, ImageSeen, PagesSeen};
use dg_object::MOST_PAGES;
use serde_json::{Map, Value, put};
use std::alloc::{AllocError, Global};

/// The pages of an image, at most.
pub(crate) const PAGES: usize = MOST_PAGES as usize;

/// The numbers of the pages in a set.
fn pages_value(alloc: Global, pages: &PageBits<{ PAGES }>) -> Result<Value, AllocError>
    ensures { IfOk result (λ v. view v ≡ pages_json pages.now) }
{
    let mut numbers = Vec::new(alloc);
    for page in 0..MOST_PAGES {
        if pages.has(page) {
            numbers.push(Value::from(page))?;
        }
    }
    Ok(Value::Array(numbers))
}

/// The bytes of an image.
fn bytes_value(alloc: Global, bytes: &Option<BytesSeen>) -> Result<Value, AllocError>
    ensures { IfOk result (λ v. view v ≡ or_null bytes_json bytes.now) }
{
    let Some(bytes) = bytes else {
        return Ok(Value::Null);
    };
    let mut members = Map::new(alloc);
    put(&mut members, alloc, "crc", crc_value(alloc, bytes.crc)?)?;
    put(
        &mut members,
        alloc,
        "sha256",
        hex_value(alloc, &bytes.sha256)?,
    )?;
    Ok(Value::Object(members))
}

/// The pages of an image.
pub(crate) fn complete_value(alloc: Global, pages: &PagesSeen) -> Result<Value, AllocError>
    ensures { IfOk result (λ v. view v ≡ complete_json pages.now) }
{
    let descriptor = &pages.descriptor;
    let mut members = Map::new(alloc);
    put(
        &mut members,
        alloc,
        "bytes",
        bytes_value(alloc, &pages.bytes)?,
    )?;
    put(
        &mut members,
        alloc,
        "length",
        Value::from(descriptor.length),
    )?;
    put(
        &mut members,
        alloc,
        "name",
        name_value(alloc, descriptor.name.as_slice())?,
    )?;
    put(
        &mut members,
        alloc,
        "unsound",
        pages_value(alloc, &pages.unsound)?,
    )?;
    Ok(Value::Object(members))
}

/// A hash chain.
fn chain_value(alloc: Global, chain: &Option<ChainSeen>) -> Result<Value, AllocError>
    ensures { IfOk result (λ v. view v ≡ or_null chain_json chain.now) }
{
    let Some(chain) = chain else {
        return Ok(Value::Null);
    };
    let mut members = Map::new(alloc);
    put(&mut members, alloc, "length", Value::from(chain.length))?;
    put(&mut members, alloc, "root", hex_value(alloc, &chain.root)?)?;
    Ok(Value::Object(members))
}

/// The complete pages of an image, or null.
fn complete_or_null(alloc: Global, complete: &Option<PagesSeen>) -> Result<Value, AllocError>
    ensures { IfOk result (λ v. view v ≡ or_null complete_json complete.now) }
{
    match complete {
        None => Ok(Value::Null),
        Some(pages) => complete_value(alloc, pages),
    }
}

/// What a slot keeps.
fn image_value(alloc: Global, number: usize, image: &ImageSeen) -> Result<Value, AllocError>
    ensures { IfOk result (λ v. view v ≡ image_json number image.now) }
{
    let mut members = Map::new(alloc);
    put(
        &mut members,
        alloc,
        "chain",
        chain_value(alloc, &image.chain)?,
    )?;
    put(
        &mut members,
        alloc,
        "complete",
        complete_or_null(alloc, &image.complete)?,
    )?;
    put(&mut members, alloc, "crc", crc_value(alloc, image.crc)?)?;
    put(&mut members, alloc, "done", Value::from(image.done))?;
    put(&mut members, alloc, "image", Value::from(number))?;
    put(&mut members, alloc, "pages", Value::from(image.pages))?;
    put(&mut members, alloc, "version", Value::from(image.version))?;
    Ok(Value::Object(members))
}

/// The images of a volume that are kept.
pub(crate) fn images_value(alloc: Global, images: &[Option<ImageSeen>]) -> Result<Value, AllocError>
    ensures { IfOk result (λ v. view v ≡ images_json images.now) }
{
    let mut kept = Vec::new(alloc);
    for number in 0..images.len() {
        if let Some(image) = &images[number] {
            kept.push(image_value(alloc, number, image)?)?;
        }
    }
    Ok(Value::Array(kept))
}
