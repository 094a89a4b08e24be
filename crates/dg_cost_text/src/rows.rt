//! What was counted, as rows of a key and a value.
ghost use Rattle.std.specs.Prelude.{◌≡◌, ◌∷◌, ◌++◌, [], if◌then◌else◌, map, min, length, OnOk, IfOk};
ghost use Rattle.dg_cost_text.specs.Moments.{what_key, whole_key, rows_at, summed_table};
ghost use Rattle.dg_cost_text.specs.Table.{part_text, key_of, table_of_rows, named_rows, share_rows, shared_rows};

use crate::moment::{Moment, What};
use dg_meter::Share;
use itoa::Buffer;
use smallvec::SmallVec;
use std::alloc::{AllocError, Global};

/// How long a key is that takes no memory of its own: few are longer.
const KEY_ROOM: usize = 32;

/// How many rows there is room for at first: a mote that keeps a few images has fewer.
const ROWS_ROOM: usize = 256;

/// A key.
pub type Key = SmallVec<u8, KEY_ROOM>;

/// A key with its value.
#[derive(Drop)]
pub struct Row {
    pub key: Key,
    pub value: u64,
    /// Whether the sum over the motes is a row of `all`.
    pub summed: bool,
}

/// Rows of a mote or of all motes, in the order in which they are written.
#[derive(Drop)]
pub struct Rows {
    alloc: Global,
    pub rows: Vec<Row>,
    /// The moments among them.
    pub moments: Vec<(What, Moment)>,
}

/// What was counted of a run.
#[derive(Drop)]
pub struct Counted {
    /// The rows of each mote, that of mote 0 first.
    pub motes: Vec<Rows>,
    /// The rows of all motes.
    pub all: Rows,
    /// Whether rounds or sweeps were played, whose moments are those of a schedule.
    pub scheduled: bool,
}

/// A part of a key.
#[derive(Clone, Copy)]
pub enum Part<'a> {
    Text(&'a str),
    Number(u32),
}

impl Rows {
    /// There are none yet.
    pub fn new(alloc: Global) -> Rows
        ensures { table_of_rows result ≡ [] }
    {
        let mut rows = Vec::new(alloc);
        match rows.reserve(ROWS_ROOM) {
            Ok(()) => {}
            Err(AllocError) => {}
        }
        Rows {
            alloc,
            rows,
            moments: Vec::new(alloc),
        }
    }

    /// A row with a key of these parts.
    pub fn push(&mut self, parts: &[Part<'_>], value: u64, summed: bool) -> Result<(), AllocError>
        ensures { OnOk result (table_of_rows self.new ≡ table_of_rows self.old ++ (key_of parts.now [], value) ∷ []) }
    {
        self.push_ended(parts, "", value, summed)
    }

    /// A row with a key of these parts and this end.
    pub fn push_ended(
        &mut self,
        parts: &[Part<'_>],
        end: &str,
        value: u64,
        summed: bool,
    ) -> Result<(), AllocError>
        ensures rows { OnOk result (table_of_rows self.new ≡ table_of_rows self.old ++ (key_of parts.now end.now, value) ∷ []) }
        ensures sums { OnOk result (summed_table self.new
            ≡ summed_table self.old ++ (if summed then (key_of parts.now end.now, value) ∷ [] else [])) }
    {
        let key = key_text(self.alloc, parts, end)?;
        self.rows.push(Row { key, value, summed })?;
        Ok(())
    }

    /// A row with the key of another row.
    pub fn push_as(&mut self, row: &Row, value: u64) -> Result<(), AllocError>
        ensures { OnOk result (table_of_rows self.new ≡ table_of_rows self.old ++ (row.now.key.items, value) ∷ []) }
    {
        let key = SmallVec::from_slice(self.alloc, &row.key)?;
        self.rows.push(Row {
            key,
            value,
            summed: true,
        })?;
        Ok(())
    }

    /// A row whose sum over the motes is a row of `all`.
    pub fn sum(&mut self, key: &str, value: u64) -> Result<(), AllocError>
        ensures { OnOk result (table_of_rows self.new ≡ table_of_rows self.old ++ (key.now, value) ∷ []) }
    {
        self.push(&[Part::Text(key)], value, true)
    }

    /// A row of a mote alone, or of all motes alone.
    pub fn own(&mut self, key: &str, value: u64) -> Result<(), AllocError>
        ensures { OnOk result (table_of_rows self.new ≡ table_of_rows self.old ++ (key.now, value) ∷ []) }
    {
        self.push(&[Part::Text(key)], value, false)
    }

    /// Appends these rows, in their order.
    pub fn append(&mut self, mut rows: Rows) -> Result<(), AllocError>
        ensures rows { OnOk result (table_of_rows self.new ≡ table_of_rows self.old ++ table_of_rows rows) }
        ensures sums { OnOk result (summed_table self.new ≡ summed_table self.old ++ summed_table rows) }
    {
        self.rows.append(&mut rows.rows)?;
        self.moments.append(&mut rows.moments)?;
        Ok(())
    }

    /// A row for each of these names, between two pieces of the key.
    pub fn each(
        &mut self,
        before: &str,
        names: &[&str],
        values: &[u64],
        after: &str,
    ) -> Result<(), AllocError>
        ensures { OnOk result (table_of_rows self.new ≡ table_of_rows self.old
            ++ named_rows before.now after.now (map (λ n. n.now) names.now) values.now) }
    {
        let count = names.len().min(values.len());
        for index in 0..count {
            self.named(before, names[index], values[index], after)?;
        }
        Ok(())
    }

    /// A row for this name, between two pieces of the key.
    fn named(&mut self, before: &str, name: &str, value: u64, after: &str) -> Result<(), AllocError>
        ensures { OnOk result (table_of_rows self.new
            ≡ table_of_rows self.old ++ (before.now ++ (name.now ++ after.now), value) ∷ []) }
    {
        let parts = [Part::Text(before), Part::Text(name)];
        self.push_ended(&parts, after, value, true)
    }

    /// Two rows for a share.
    pub fn share(&mut self, before: &str, name: &str, share: Share) -> Result<(), AllocError>
        ensures { OnOk result (table_of_rows self.new ≡ table_of_rows self.old
            ++ share_rows before.now name.now share.count share.bytes) }
    {
        let parts = [Part::Text(before), Part::Text(name)];
        self.push_ended(&parts, ".count", share.count, true)?;
        self.push_ended(&parts, ".bytes", share.bytes, true)
    }

    /// Two rows for each of these shares.
    pub fn shares(
        &mut self,
        before: &str,
        names: &[&str],
        shares: &[Share],
    ) -> Result<(), AllocError>
        ensures { OnOk result (table_of_rows self.new ≡ table_of_rows self.old
            ++ shared_rows before.now (map (λ n. n.now) names.now) shares.now) }
    {
        let count = names.len().min(shares.len());
        for index in 0..count {
            self.share(before, names[index], shares[index])?;
        }
        Ok(())
    }

    /// The two rows of a moment.
    pub fn moment(&mut self, what: What, at: Moment) -> Result<(), AllocError>
        ensures rows { OnOk result (table_of_rows self.new ≡ table_of_rows self.old ++ rows_at (what_key what) at) }
        ensures sums { OnOk result (summed_table self.new ≡ summed_table self.old) }
    {
        self.what_rows(what, at)?;
        self.moments.push((what, at))?;
        Ok(())
    }

    fn what_rows(&mut self, what: What, at: Moment) -> Result<(), AllocError>
        ensures rows { OnOk result (table_of_rows self.new ≡ table_of_rows self.old ++ rows_at (what_key what) at) }
        ensures sums { OnOk result (summed_table self.new ≡ summed_table self.old) }
    {
        match what {
            What::Whole {
                image,
                version,
                times,
            } => self.whole(image, version, times, at),
            What::All { image, version } => {
                let parts = [
                    Part::Text("all."),
                    Part::Number(u32::from(image)),
                    Part::Text("."),
                    Part::Number(version),
                ];
                self.moment_rows(&parts, at)
            }
            What::Newest { image } => {
                let parts = [Part::Text("newest."), Part::Number(u32::from(image))];
                self.moment_rows(&parts, at)
            }
        }
    }

    fn whole(&mut self, image: u8, version: u32, times: u32, at: Moment) -> Result<(), AllocError>
        ensures rows { OnOk result (table_of_rows self.new
            ≡ table_of_rows self.old ++ rows_at (whole_key image version times) at) }
        ensures sums { OnOk result (summed_table self.new ≡ summed_table self.old) }
    {
        let begin = Part::Text("whole.");
        let image = Part::Number(u32::from(image));
        let version = Part::Number(version);
        if 1 < times {
            let (again, times) = (Part::Text(".again."), Part::Number(times));
            self.moment_rows(&[begin, image, Part::Text("."), version, again, times], at)
        } else {
            self.moment_rows(&[begin, image, Part::Text("."), version], at)
        }
    }

    fn moment_rows(&mut self, parts: &[Part<'_>], at: Moment) -> Result<(), AllocError>
        ensures rows { OnOk result (table_of_rows self.new ≡ table_of_rows self.old ++ rows_at (key_of parts.now []) at) }
        ensures sums { OnOk result (summed_table self.new ≡ summed_table self.old) }
    {
        self.push_ended(parts, ".event", at.event, false)?;
        self.push_ended(parts, ".ms", at.ms, false)?;
        Ok(())
    }

    /// The value of a key, if there is a row of it.
    pub fn find(&self, key: &str) -> Option<u64> {
        for row in &self.rows {
            if row.key.as_slice() == key.as_bytes() {
                return Some(row.value);
            }
        }
        None
    }

    /// The value of a key, 0 if there is no row of it.
    pub fn value(&self, key: &str) -> u64 {
        self.find(key).unwrap_or(0)
    }

    /// The sum of the values of keys that have one name between this beginning and this end.
    pub fn sum_of(&self, begin: &str, end: &str) -> u64 {
        let mut sum: u64 = 0;
        for row in &self.rows {
            if begins_and_ends(&row.key, begin.as_bytes(), end.as_bytes()) {
                sum = sum.saturating_add(row.value);
            }
        }
        sum
    }
}

/// Appends a part of a key.
fn push_part(key: &mut Key, part: Part<'_>) -> Result<(), AllocError>
    ensures { OnOk result (key.new.items ≡ key.old.items ++ part_text part.entry) }
{
    match part {
        Part::Text(text) => key.extend_from_slice(text.as_bytes()),
        Part::Number(number) => key.extend_from_slice(Buffer::new().format(number).as_bytes()),
    }
}

/// The key of these parts and this end.
fn key_text(alloc: Global, parts: &[Part<'_>], end: &str) -> Result<Key, AllocError>
    ensures { IfOk result (λ key. key.items ≡ key_of parts.now end.now) }
{
    let mut key = SmallVec::new(alloc);
    for part in parts {
        push_part(&mut key, *part)?;
    }
    if !end.is_empty() {
        key.extend_from_slice(end.as_bytes())?;
    }
    Ok(key)
}

/// Whether a key has a name between this beginning and this end.
fn begins_and_ends(key: &[u8], begin: &[u8], end: &[u8]) -> bool {
    begin.len().saturating_add(end.len()) < key.len()
        && key.starts_with(begin)
        && key.ends_with(end)
}

/// The sum over the motes of the rows at this index.
pub fn total_of(motes: &[Rows], index: usize) -> u64 {
    let mut total: u64 = 0;
    for rows in motes {
        if let Some(row) = rows.rows.get(index) {
            total = total.saturating_add(row.value);
        }
    }
    total
}
