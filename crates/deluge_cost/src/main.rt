//! `deluge_cost` replays a script and writes what that costs, by `cost` of `dg_cost`.
#![tactic(auto)]

use dg_base::{MOST_MOTES, Status, StdSink, StdSource};
use dg_cost::{Form, cost_for_program};
use dg_cost_text::{Model, ModelFault, read_model};
use dg_meter::Metered;
use dg_nor::Board;
use std::alloc::AllocError;
use std::env;
use std::env::Args;
use std::fs::{File, OpenOptions};
use std::io::{ErrorKind, Read};
use std::process::ExitCode;

const HELP: &str = "\
deluge_cost: tells what the run of a script costs

Usage: deluge_cost [--boards FILE..] [--csv|--json|--timed] [--model FILE] <SCRIPT

It replays the script from standard input over chips in memory, or over these files, and writes tables.

Options:
  --boards   the words behind it, up to the next option, are files of chips: mote 0 works on the first
  --csv      writes the counts of each mote, and of all, as rows
  --json     writes them as JSON
  --timed    writes the report of the replay, each line behind its event and its moment
  --model    the word behind it is a file of picojoules, by which tables and JSON tell energy
  --help     writes this text
  --version  writes the version
";

const VERSION: &str = "deluge_cost 0.9\n";

/// The most bytes that a model has.
const MOST_MODEL: u64 = 65_536;

/// What is written.
#[derive(Clone, Copy, Debug, PartialEq, Eq)]
enum Told {
    Table,
    Csv,
    Json,
    Timed,
}

/// What the words after the program's name ask for.
#[derive(Drop)]
enum Asked {
    Cost {
        told: Told,
        model: Option<String>,
        files: Vec<String>,
    },
    Help,
    Version,
    /// An invalid command line.
    Other,
}

/// What one word asks for.
#[derive(Clone, Copy)]
enum Word {
    Tells(Told),
    Boards,
    Model,
    Help,
    Version,
    /// An unknown option.
    Unknown,
    File,
}

fn word_of(word: &str) -> Word {
    match word {
        "--csv" => Word::Tells(Told::Csv),
        "--json" => Word::Tells(Told::Json),
        "--timed" => Word::Tells(Told::Timed),
        "--boards" => Word::Boards,
        "--model" => Word::Model,
        "--help" => Word::Help,
        "--version" => Word::Version,
        _ => {
            if word.as_bytes().first() == Some(&b'-') {
                Word::Unknown
            } else {
                Word::File
            }
        }
    }
}

/// What the next word may be, besides an option.
#[derive(Clone, Copy, Debug, PartialEq, Eq)]
enum Next {
    Option,
    /// A file of a chip.
    Chip,
    /// The file of the model, and no option.
    Model,
}

/// What was read of the words so far.
#[derive(Drop)]
struct Reading {
    told: Option<Told>,
    next: Next,
    model: Option<String>,
    /// Whether `--boards` was read.
    on_files: bool,
    files: Vec<String>,
}

impl Reading {
    /// Reads a word. Answers whether it is allowed there.
    fn read(&mut self, word: String) -> Result<bool, AllocError> {
        let next = self.next;
        self.next = Next::Option;
        match word_of(word.as_str()) {
            Word::File => self.take_file(next, word),
            _ if next == Next::Model => Ok(false),
            Word::Tells(told) => Ok(self.tell(told)),
            Word::Boards => Ok(self.begin_files()),
            Word::Model => Ok(self.begin_model()),
            Word::Help | Word::Version | Word::Unknown => Ok(false),
        }
    }

    /// The form is named at most once.
    fn tell(&mut self, told: Told) -> bool {
        let first = self.told.is_none();
        self.told = Some(told);
        first
    }

    /// `--boards` is given at most once.
    fn begin_files(&mut self) -> bool {
        let first = !self.on_files;
        self.on_files = true;
        self.next = Next::Chip;
        first
    }

    /// `--model` is given at most once.
    fn begin_model(&mut self) -> bool {
        self.next = Next::Model;
        self.model.is_none()
    }

    /// A file follows `--boards` or `--model`.
    fn take_file(&mut self, next: Next, file: String) -> Result<bool, AllocError> {
        match next {
            Next::Option => Ok(false),
            Next::Chip => {
                self.files.push(file)?;
                self.next = Next::Chip;
                Ok(true)
            }
            Next::Model => {
                self.model = Some(file);
                Ok(true)
            }
        }
    }

    /// What all words ask for. `--boards` has at least one file, and a model is for tables and JSON alone.
    fn asked(self) -> Asked {
        let Reading {
            told,
            next,
            model,
            on_files,
            files,
        } = self;
        let told = told.unwrap_or(Told::Table);
        let tells_energy = told == Told::Table || told == Told::Json;
        if on_files && files.is_empty() || next == Next::Model || model.is_some() && !tells_energy {
            return Asked::Other;
        }
        Asked::Cost { told, model, files }
    }
}

/// What the words ask for. A word that is not UTF-8 makes an invalid command line.
fn words_ask(rt: &HostRuntime) -> Result<Asked, AllocError> {
    match env::args(rt) {
        Ok(args) => read_words(rt, args),
        Err(error) if error.kind() == ErrorKind::InvalidData => Ok(Asked::Other),
        Err(_) => Err(AllocError),
    }
}

/// What these words, without the program's name, ask for.
fn read_words(rt: &HostRuntime, args: Args) -> Result<Asked, AllocError> {
    let mut reading = Reading {
        told: None,
        next: Next::Option,
        model: None,
        on_files: false,
        files: Vec::new(rt.alloc()),
    };
    for (number, word) in args.skip(1).enumerate() {
        if number == 0 {
            match word_of(word.as_str()) {
                Word::Help => return Ok(Asked::Help),
                Word::Version => return Ok(Asked::Version),
                _ => {}
            }
        }
        if !reading.read(word)? {
            return Ok(Asked::Other);
        }
    }
    Ok(reading.asked())
}

/// A chip for each file, or chips in memory if there is no file. `None` if memory runs out.
fn boards(rt: &HostRuntime, files: &Vec<String>) -> Option<Vec<Metered<Board>>> {
    if files.is_empty() {
        return boards_in_memory(rt);
    }
    let mut boards = Vec::new(rt.alloc());
    for name in files {
        let board = Board::on_file(rt, rt.alloc(), name.as_str(), false).ok()?;
        boards.push(Metered::new(board)).ok()?;
    }
    Some(boards)
}

/// A chip in memory for each mote that a script may have.
fn boards_in_memory(rt: &HostRuntime) -> Option<Vec<Metered<Board>>> {
    let mut boards = Vec::new(rt.alloc());
    for _ in 0..MOST_MOTES {
        let board = Board::memory(rt.alloc()).ok()?;
        boards.push(Metered::new(board)).ok()?;
    }
    Some(boards)
}

/// Files that take the numbers of standard streams that are closed. Where one is closed, the file that is opened next takes
/// its number, and gets what is written there: let that be one of these, and not a chip.
#[derive(Drop)]
struct Guard {
    files: [Option<File>; 3],
}

impl Guard {
    /// A file that keeps nothing and gives nothing for each standard stream.
    fn new(rt: &HostRuntime) -> Guard {
        Guard {
            files: [nothing(rt), nothing(rt), nothing(rt)],
        }
    }
}

/// The file that keeps nothing and gives nothing.
fn nothing(rt: &HostRuntime) -> Option<File> {
    OpenOptions::new()
        .read(true)
        .write(true)
        .open(rt, "/dev/null")
        .ok()
}

/// Why no model was read.
#[derive(Clone, Copy, Debug, PartialEq, Eq)]
enum NoModel {
    Unread,
    Fault(ModelFault),
}

/// The first bytes of a file, at most as many as a model may have.
fn read_file(rt: &HostRuntime, name: &str) -> Option<Vec<u8>> {
    let file = OpenOptions::new().read(true).open(rt, name).ok()?;
    let mut bytes = Vec::new(rt.alloc());
    file.take(MOST_MODEL).read_to_end(&mut bytes).ok()?;
    Some(bytes)
}

/// The model in a file.
fn model_in(rt: &HostRuntime, name: &str) -> Result<Model, NoModel> {
    let Some(bytes) = read_file(rt, name) else {
        return Err(NoModel::Unread);
    };
    match read_model(rt.alloc(), &bytes) {
        Ok(model) => Ok(model),
        Err(fault) => Err(NoModel::Fault(fault)),
    }
}

/// The form to write. An invalid model is reported on standard error.
fn form(rt: &HostRuntime, told: Told, model: &Option<String>) -> Result<Form, Status> {
    let model = match model {
        None => None,
        Some(name) => match model_in(rt, name.as_str()) {
            Ok(model) => Some(model),
            Err(NoModel::Unread) => {
                let _ = eprintln!(rt; "deluge_cost: {name}: the model cannot be read");
                return Err(Status::ReadFault);
            }
            Err(NoModel::Fault(ModelFault::Memory)) => return Err(Status::Memory),
            Err(NoModel::Fault(fault)) => {
                let _ = eprintln!(rt; "deluge_cost: {name}: no model: {fault}");
                return Err(Status::BadInput);
            }
        },
    };
    Ok(match told {
        Told::Table => Form::Table(model),
        Told::Csv => Form::Csv,
        Told::Json => Form::Json(model),
        Told::Timed => Form::Timed,
    })
}

/// Replays the script that comes by standard input. The guard stands while files of chips are open. A line on standard error
/// names the cause where the status is not 0.
fn tell_cost(rt: &HostRuntime, _guard: &Guard, form: &Form, files: &Vec<String>) -> Status {
    let status = match boards(rt, files) {
        None => Status::Memory,
        Some(mut boards) => {
            let mut input = StdSource::new(rt.stdin());
            let mut out = StdSink::new(rt.stdout());
            cost_for_program(rt.alloc(), form, &mut input, &mut out, &mut boards)
        }
    };
    tell_cause(rt, status)
}

/// Writes to standard error why it ends with this status.
fn tell_cause(rt: &HostRuntime, status: Status) -> Status {
    if let Some(cause) = cause(status) {
        let _ = eprintln!(rt; "deluge_cost: {cause}");
    }
    status
}

/// Writes a text to standard output, and ends with this status if that succeeds.
fn write(rt: &HostRuntime, text: &str, status: Status) -> Status {
    match rt.print(text) {
        Ok(()) => status,
        Err(_) => Status::WriteFault,
    }
}

/// Why it ends with this status, for standard error. `None` if it did what it was asked.
fn cause(status: Status) -> Option<&'static str> {
    match status {
        Status::Done => None,
        Status::Memory => Some("memory ran out"),
        Status::Usage => Some("try deluge_cost --help"),
        Status::BadInput => Some("the script has a fault; --timed tells its line"),
        Status::ReadFault => Some("a read of the script failed"),
        Status::WriteFault => Some("a write failed"),
        Status::FlashFault => Some("a chip stopped, or its file is none of a chip"),
        Status::NotAVolume => Some("a chip holds no volume"),
        Status::Refused => Some("refused"),
        Status::LinkFault => Some("a link failed"),
        Status::TooLong => Some("the script has more than 16,777,216 bytes"),
        Status::TooMany => Some("the script has more than 1,000,000 events"),
        Status::NoBoard => Some("the script has more motes than there are chips"),
        Status::NoImage => Some("a start found no image"),
    }
}

/// Does what the words ask for.
fn done(rt: &HostRuntime, guard: &Guard) -> Status {
    match words_ask(rt) {
        Ok(Asked::Cost { told, model, files }) => match form(rt, told, &model) {
            Ok(form) => tell_cost(rt, guard, &form, &files),
            Err(status) => status,
        },
        Ok(Asked::Help) => tell_cause(rt, write(rt, HELP, Status::Done)),
        Ok(Asked::Version) => tell_cause(rt, write(rt, VERSION, Status::Done)),
        Ok(Asked::Other) => tell_cause(rt, write(rt, "usage\n", Status::Usage)),
        Err(AllocError) => tell_cause(rt, Status::Memory),
    }
}

fn main(rt: HostRuntime) -> ExitCode {
    let guard = Guard::new(&rt);
    ExitCode::from(done(&rt, &guard).code())
}
