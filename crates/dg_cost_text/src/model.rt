//! A model of energy as a TOML document.

use std::alloc::{AllocError, Global};
use std::error::Error;
use std::fmt;
use toml::Table;

/// The energy that a mote takes from its battery, in whole picojoules.
#[derive(Clone, Copy, Debug, PartialEq, Eq)]
pub struct Model {
    /// For each byte that it sends.
    pub sent: u64,
    /// For each byte that it hears.
    pub heard: u64,
    /// For each byte that is programmed.
    pub programmed: u64,
    /// For each sector that is erased.
    pub erased: u64,
    /// For each second that it is on.
    pub on: u64,
}

/// Why bytes are not a model. The first cause that applies is answered.
#[derive(Clone, Copy, Debug, PartialEq, Eq)]
pub enum ModelFault {
    /// They are not a TOML document.
    NotToml,
    /// A key is missing or unknown, or a value is not a whole number.
    Key,
    /// A number is below 0.
    Negative,
    /// Memory ran out.
    Memory,
}

impl fmt::Display for ModelFault {
    fn fmt<W: fmt::Write>(&self, f: &mut fmt::Formatter<W>) -> fmt::Result {
        match self {
            ModelFault::NotToml => f.write_str("it is no TOML document"),
            ModelFault::Key => f.write_str(
                "its keys are not sent, heard, programmed, erased and on, each a whole number",
            ),
            ModelFault::Negative => f.write_str("a number is below 0"),
            ModelFault::Memory => f.write_str("memory ran out"),
        }
    }
}

impl Error for ModelFault {}

impl From<AllocError> for ModelFault {
    ghost use Rattle.std.specs.Prelude.{◌≡◌};
    ghost use Rattle.dg_cost_text.specs.declared.model.ModelFault.{ModelFault};

    ghost from_gives = { λ _ e. e ≡ ModelFault.Memory };

    fn from(_error: AllocError) -> ModelFault {
        ModelFault::Memory
    }
}

/// The model in the bytes of a TOML 1.1 document, or the first cause why there is none.
///
/// The document has exactly the keys `sent`, `heard`, `programmed`, `erased` and `on`, whose values are whole numbers of
/// picojoules from 0: for a byte that is sent, heard and programmed, for a sector that is erased, and for a second.
pub fn read_model(alloc: Global, bytes: &[u8]) -> Result<Model, ModelFault> {
    match toml::table_from_slice(alloc, bytes) {
        Ok(table) => model_of(&table),
        Err(fault) if fault.is_memory() => Err(ModelFault::Memory),
        Err(_) => Err(ModelFault::NotToml),
    }
}

/// The model of a document.
fn model_of(document: &Table) -> Result<Model, ModelFault> {
    if !has_known_keys(document) {
        return Err(ModelFault::Key);
    }
    let sent = integer_at(document, "sent")?;
    let heard = integer_at(document, "heard")?;
    let programmed = integer_at(document, "programmed")?;
    let erased = integer_at(document, "erased")?;
    let on = integer_at(document, "on")?;
    Ok(Model {
        sent: whole(sent)?,
        heard: whole(heard)?,
        programmed: whole(programmed)?,
        erased: whole(erased)?,
        on: whole(on)?,
    })
}

fn has_known_keys(document: &Table) -> bool {
    for key in document.keys() {
        if !is_key(key.as_str()) {
            return false;
        }
    }
    true
}

fn is_key(key: &str) -> bool {
    key == "sent" || key == "heard" || key == "programmed" || key == "erased" || key == "on"
}

/// The whole number at a key.
fn integer_at(document: &Table, key: &str) -> Result<i64, ModelFault> {
    match document.get(key) {
        Some(value) => match value.as_integer() {
            Some(number) => Ok(number),
            None => Err(ModelFault::Key),
        },
        None => Err(ModelFault::Key),
    }
}

/// A number from 0.
fn whole(number: i64) -> Result<u64, ModelFault> {
    match u64::try_from(number) {
        Ok(number) => Ok(number),
        Err(_) => Err(ModelFault::Negative),
    }
}
