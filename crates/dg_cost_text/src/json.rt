//! What was counted as JSON.

use crate::model::Model;
use crate::rows::{Counted, Rows};
use serde_json::{Map, Value};
use std::alloc::{AllocError, Global};
use std::str;

/// The values of rows that are not 0, by their keys.
fn rows_map(alloc: Global, rows: &Rows) -> Result<Map<String, Value>, AllocError> {
    let mut map = Map::new(alloc);
    for row in &rows.rows {
        if row.value != 0 {
            let key = str::from_utf8(&row.key).unwrap_or("");
            insert(alloc, &mut map, key, Value::from(row.value))?;
        }
    }
    Ok(map)
}

/// Gives a key its value.
fn insert(
    alloc: Global,
    map: &mut Map<String, Value>,
    key: &str,
    value: Value,
) -> Result<(), AllocError> {
    match map.insert(String::from_str(alloc, key)?, value) {
        Ok(_) => Ok(()),
        Err(_) => Err(AllocError),
    }
}

/// An amount of energy as decimal digits: it may exceed what readers of JSON accept as a number.
fn energy_value(alloc: Global, energy: u128) -> Result<Value, AllocError> {
    Ok(Value::from(format!(in alloc; "{energy}")?))
}

/// A mote, with the energy that it takes if there is a model.
fn mote_value(
    alloc: Global,
    number: usize,
    rows: &Rows,
    model: Option<&Model>,
) -> Result<Value, AllocError> {
    let mut map = rows_map(alloc, rows)?;
    insert(alloc, &mut map, "mote", Value::from(number as u64))?;
    if let Some(model) = model {
        let energy = energy_value(alloc, model.energy(rows))?;
        insert(alloc, &mut map, "energy.pj", energy)?;
    }
    Ok(Value::Object(map))
}

/// All motes, in order.
fn motes_value(alloc: Global, motes: &[Rows], model: Option<&Model>) -> Result<Value, AllocError> {
    let mut values = Vec::new(alloc);
    for number in 0..motes.len() {
        values.push(mote_value(alloc, number, &motes[number], model)?)?;
    }
    Ok(Value::Array(values))
}

/// The sums over the motes, and the values of all motes alone.
fn all_value(alloc: Global, counted: &Counted, model: Option<&Model>) -> Result<Value, AllocError> {
    let mut map = rows_map(alloc, &counted.all)?;
    if let Some(model) = model {
        let energy = energy_value(alloc, model.energy_of_all(&counted.motes))?;
        insert(alloc, &mut map, "energy.pj", energy)?;
    }
    Ok(Value::Object(map))
}

/// What was counted as JSON, on one line: the keys and values of each mote and of all that are not 0, and whether moments are
/// those of a schedule. If there is a model, the energy is written too, as decimal digits.
pub fn json_text(
    alloc: Global,
    counted: &Counted,
    model: Option<&Model>,
) -> Result<Vec<u8>, AllocError> {
    let mut map = Map::new(alloc);
    insert(alloc, &mut map, "all", all_value(alloc, counted, model)?)?;
    insert(
        alloc,
        &mut map,
        "motes",
        motes_value(alloc, &counted.motes, model)?,
    )?;
    insert(alloc, &mut map, "scheduled", Value::from(counted.scheduled))?;
    let line = Value::Object(map).to_string(alloc)?;
    let mut text = Vec::new(alloc);
    text.extend_from_slice(line.as_bytes())?;
    text.push(b'\n')?;
    Ok(text)
}
