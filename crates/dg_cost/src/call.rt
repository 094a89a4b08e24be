//! The call that replays a script and writes what it costs.
ghost use Rattle.std.specs.Prelude.{◌≡◌, ◌≤◌, map, IfOk};
ghost use Rattle.dg_meter.specs.Meters.{metered_device};
ghost use Rattle.dg_outside.specs.Outside.{Outside, with_input, with_output, with_boards};
ghost use Rattle.dg_cost.specs.Costs.{CostDone, IsText};
ghost use Rattle.dg_cost.specs.Counting.{IsCountOf};
ghost use Rattle.dg_cost_text.specs.Csv.{csv};
ghost use Rattle.dg_cost_text.specs.declared.rows.Counted.{Counted};

use crate::looking::{look, look_again};
use crate::mote_rows::{counted, ended_event};
use dg_base::{Sink, Source, Status, WriteFailed};
use dg_cost_text::{Model, csv_text, json_text, table_text, timed_text};
use dg_count::{Counter, replay_counted};
use dg_meter::Metered;
use dg_nor::Nor;
use std::alloc::{AllocError, Global};

/// What is asked for.
#[derive(Clone, Copy)]
pub enum Form {
    /// Tables for people, with the energy of each mote where there is a model.
    Table(Option<Model>),
    /// Rows of comma-separated values.
    Csv,
    /// JSON, with the energy of each mote where there is a model.
    Json(Option<Model>),
    /// The report, each line after its event and its moment.
    Timed,
}

impl Form {
    fn is_timed(&self) -> bool {
        match self {
            Form::Timed => true,
            Form::Table(_) | Form::Csv | Form::Json(_) => false,
        }
    }
}

/// A report that is kept.
#[derive(Drop)]
struct KeptReport {
    bytes: Vec<u8>,
    faults: u64,
}

impl Sink for KeptReport {
    ghost use Rattle.std.specs.Prelude.{Some};

    ghost written = { λ s. Some s.bytes.items };

    ghost faults = { λ s. s.faults };

    fn write(&mut self, bytes: &[u8]) -> Result<(), WriteFailed> {
        match self.bytes.extend_from_slice(bytes) {
            Ok(()) => Ok(()),
            Err(_) => {
                self.faults = self.faults.saturating_add(1);
                Err(WriteFailed)
            }
        }
    }
}

/// The counts as rows of comma-separated values.
fn csv_of(alloc: Global, counter: &Counter, status: Status) -> Result<Vec<u8>, AllocError>
    ensures { IfOk result (λ text. (counted : Counted) × (text.items ≡ csv counted) × IsCountOf counter.now status counted) }
{
    let counted = counted(alloc, counter, status)?;
    let text = csv_text(alloc, &counted)?;
    Ok(text)
}

/// The text that is written.
fn text_of(
    alloc: Global,
    asked: &Form,
    counter: &Counter,
    report: &[u8],
    status: Status,
) -> Result<Vec<u8>, AllocError>
    ensures { IfOk result (λ text. IsText asked.now (IsCountOf counter.now status) report.now text.items) }
{
    match asked {
        Form::Timed => timed_text(
            alloc,
            report,
            &counter.costs.stamps,
            counter.last(ended_event(counter, status)),
        ),
        Form::Csv => csv_of(alloc, counter, status),
        Form::Table(model) => {
            let counted = counted(alloc, counter, status)?;
            table_text(alloc, &counted, model.as_ref())
        }
        Form::Json(model) => {
            let counted = counted(alloc, counter, status)?;
            json_text(alloc, &counted, model.as_ref())
        }
    }
}

/// Replays a script over boards, and writes what it costs, or its report with moments.
pub fn cost<S: Source, K: Sink, N: Nor>(
    alloc: Global,
    asked: &Form,
    input: &mut S,
    out: &mut K,
    boards: &mut Vec<Metered<N>>,
) -> Status
    ensures done { (rest : Outside) → CostDone asked.now result
        (with_boards (map (metered_device N.device) boards.old.items)
        (with_output (K.Sink, out.old) (with_input (S.Source, input.old) rest)))
        (with_boards (map (metered_device N.device) boards.new.items)
        (with_output (K.Sink, out.new) (with_input (S.Source, input.new) rest))) }
    ensures reads { S.faults input.old ≤ S.faults input.new }
    ensures writes { K.faults out.old ≤ K.faults out.new }
{
    let Ok(given) = look(alloc, boards) else {
        return Status::Memory;
    };
    let mut report = KeptReport {
        bytes: Vec::new(alloc),
        faults: 0,
    };
    let mut counter = Counter::new(alloc, given, asked.is_timed());
    let status = replay_counted(alloc, input, &mut report, boards, &mut counter);
    if counter.failed() || 0 < report.faults {
        return Status::Memory;
    }
    look_again(&mut counter.costs, boards);
    match text_of(alloc, asked, &counter, report.bytes.as_slice(), status) {
        Ok(text) => match out.write(&text) {
            Ok(()) => status,
            Err(WriteFailed) => Status::WriteFault,
        },
        Err(AllocError) => Status::Memory,
    }
}
