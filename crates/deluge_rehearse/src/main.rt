//! `deluge_rehearse` plays an update of a network by the clock, and writes the script of it, or the script of a trial.
//! `rehearse` and `write_trial` of `dg_rehearse` do the work.
#![tactic(auto)]

ghost use Rattle.std.specs.Prelude.{IfOk};
ghost use Rattle.dg_netcfg.specs.Readings.{IsAllowed};
ghost use Rattle.dg_script.specs.Ranges.{IsDeclared};
ghost use Rattle.dg_rehearse.specs.Rehearsed.{planned_row};

mod words;

use dg_base::{Bytes, MOST_INPUT, MOST_MOTES, Status, StdSource};
use dg_ihex::read_ihex;
use dg_input::{ReadStop, read_whole};
use dg_messages::{Told, push_sentence};
use dg_netcfg::{NetProfile, ProfileFault, read_profile};
use dg_nor::Board;
use dg_rehearse::{Ending, Plan, Rehearsal, Stop, rehearse_for_program, write_trial_for_program};
use std::alloc::AllocError;
use std::env;
use std::fs::File;
use std::io::{self, ErrorKind, Read};
use std::process::ExitCode;
use words::{Asked, Rehearse, Trial, read_words};

const HELP: &str = "\
deluge_rehearse: plays an update of a network by the clock, and writes the script of it

Usage: deluge_rehearse [OPTIONS] --image I --ver V --name NAME <PROFILE> < IMAGE.HEX
       deluge_rehearse --trial MOTES PAGES SEED

It reads the image from standard input, as Intel HEX. Each mote of the network profile (TOML) starts golden, the image
is injected into one of them, and the network runs by the rules: a mote is ticked when something of it is due, and each
frame is heard by each neighbour unless it is lost. It ends when every mote has the image. `deluge replay` plays the
script again, `deluge_cost` tells what it costs, and `deluge_picture` draws its report.

With --trial it reads no input, and writes the schedule that `deluge trial --motes MOTES --pages PAGES --seed SEED` plays.
MOTES is 2 to 16, PAGES 2 to 65, and SEED 0 to 4294967295.

Options:
  --image I     the number of the image, 1 to 6
  --ver V       its version, 1 to 4294967295
  --name NAME   its name, 1 to 16 bytes
  --at MOTE     the mote into which it is injected (default 0)
  --order       it is ordered too: it ends when every mote runs the image
  --loss P      of a hundred frames, so many are lost on their way to one neighbour (0 to 100, default 0)
  --cuts N      so many resets come whose power is cut within the start (0 to 1000, default 0)
  --minutes M   it ends after so many minutes of the schedule (1 to 60000, default 1440)
  --seed S      what stands for chance (0 to 4294967295, default 0)
  --help        writes this text
  --version     writes the version

Statuses: 0 every mote has it, or the schedule is written, 8 the time was over before, 1 out of memory, 2 usage, 3 bad
input, 4 a read failed, 5 a write failed, 6 the profile's file or a chip failed, 10 the input or the script is too long,
11 too many events.
";

const VERSION: &str = "deluge_rehearse 0.9\n";

/// The message for an image that cannot be injected.
const SIZE: &str =
    "standard input: the image is empty, or has more than 70,656 bytes; make one of 1 to 70,656";

/// The message if memory ran out.
const MEMORY: &str = "memory ran out; give the program more of it";

/// The name of standard input in messages.
const INPUT: &str = "standard input";

/// The longest profile that is read, in bytes.
const MOST_PROFILE: u64 = 16_777_217;

/// Writes a cause to standard error, and answers the status.
fn fail(rt: &HostRuntime, cause: &str, status: Status) -> Status {
    let _ = eprintln!(rt; "deluge_rehearse: {cause}");
    status
}

/// Writes to standard error what is wrong with an input and what to do, and answers the status.
fn bad_input(rt: &HostRuntime, place: &str, told: &Told<'_>) -> Status {
    let mut text = Vec::new(rt.alloc());
    let Ok(()) = push_sentence(rt.alloc(), &mut text, told) else {
        return fail(rt, MEMORY, Status::Memory);
    };
    match str::from_utf8(text.as_slice()) {
        Ok(sentence) => {
            let _ = eprintln!(rt; "deluge_rehearse: {place}: {sentence}");
            Status::BadInput
        }
        Err(_) => fail(rt, place, Status::BadInput),
    }
}

/// The bytes of a file.
fn read_file(rt: &HostRuntime, name: &str) -> io::Result<Vec<u8>> {
    let file = File::open(rt, name)?;
    let mut bytes = Vec::new(rt.alloc());
    file.take(MOST_PROFILE).read_to_end(&mut bytes)?;
    Ok(bytes)
}

/// The network profile of a file.
fn profile(rt: &HostRuntime, name: &str) -> Result<NetProfile, Status>
    ensures { IfOk result IsAllowed }
{
    let bytes = match read_file(rt, name) {
        Ok(bytes) => bytes,
        Err(error) => {
            let _ = eprintln!(rt; "deluge_rehearse: {name}: {error}");
            return Err(Status::FlashFault);
        }
    };
    match read_profile(rt.alloc(), bytes.as_slice()) {
        Ok(profile) => Ok(profile),
        Err(ProfileFault::Memory) => Err(fail(rt, MEMORY, Status::Memory)),
        Err(fault) => Err(bad_input(rt, name, &Told::Profile(fault))),
    }
}

/// Reads the image from standard input.
fn image(rt: &HostRuntime) -> Result<Vec<u8>, Status> {
    let mut input = StdSource::new(rt.stdin());
    let text = match read_whole(rt.alloc(), &mut input) {
        Ok(text) => text,
        Err(ReadStop::Memory) => return Err(fail(rt, MEMORY, Status::Memory)),
        Err(ReadStop::ReadFault) => {
            return Err(fail(rt, "standard input: a read failed", Status::ReadFault));
        }
    };
    if text.as_slice().len() > MOST_INPUT {
        return Err(fail(
            rt,
            "standard input: more than 16,777,216 bytes",
            Status::TooLong,
        ));
    }
    match read_ihex(rt.alloc(), text.as_slice()) {
        Ok(bytes) => Ok(bytes),
        Err(fault) => {
            let line = fault.line;
            let cause = fault.cause;
            Err(bad_input(rt, INPUT, &Told::Hex { cause, line }))
        }
    }
}

/// A chip in memory for each mote.
fn boards(rt: &HostRuntime) -> Result<Vec<Board>, AllocError> {
    let mut boards = Vec::new(rt.alloc());
    for _ in 0..MOST_MOTES {
        boards.push(Board::memory(rt.alloc())?)?;
    }
    Ok(boards)
}

/// Writes a script to standard output.
fn write_script(rt: &HostRuntime, script: &[u8]) -> Status {
    let mut out = rt.stdout();
    match io::Write::write_all(&mut out, script) {
        Ok(()) => Status::Done,
        Err(_) => fail(rt, "standard output: a write failed", Status::WriteFault),
    }
}

/// Writes the script of a rehearsal, and says on standard error how it ended.
fn told(rt: &HostRuntime, rehearsal: &Rehearsal) -> Status {
    let status = write_script(rt, rehearsal.script.as_slice());
    if status != Status::Done {
        return status;
    }
    let minutes = rehearsal.moment / 60_000;
    let seconds = rehearsal.moment / 1_000 % 60;
    let how = match rehearsal.ending {
        Ending::Complete => "every mote has it",
        Ending::OutOfTime => "the time was over before every mote had it",
        Ending::TooMany => "a script has no more than 1,000,000 events",
        Ending::TooLong => "a script has no more than 16,777,216 bytes",
    };
    let _ = eprintln!(rt; "deluge_rehearse: {how}, after {minutes} min {seconds} s");
    match rehearsal.ending {
        Ending::Complete => Status::Done,
        Ending::OutOfTime => Status::Refused,
        Ending::TooMany => Status::TooMany,
        Ending::TooLong => Status::TooLong,
    }
}

/// Rehearses what the words ask for.
fn run(rt: &HostRuntime, asked: Rehearse) -> Status {
    let profile = match profile(rt, asked.profile.as_str()) {
        Ok(profile) => profile,
        Err(status) => return status,
    };
    let content = match image(rt) {
        Ok(content) => content,
        Err(status) => return status,
    };
    let plan = Plan {
        image: asked.image,
        version: asked.version,
        name: asked.name,
        content: Bytes::new(content),
        at: asked.at,
        ordered: asked.ordered,
        loss: asked.loss,
        seed: asked.seed,
        minutes: asked.minutes,
        cuts: asked.cuts,
    };
    if plan.is_declarable() {
        play(rt, &profile, &plan)
    } else {
        fail(rt, SIZE, Status::BadInput)
    }
}

/// Rehearses a plan over chips in memory.
fn play(rt: &HostRuntime, profile: &NetProfile, plan: &Plan) -> Status
    requires allowed { IsAllowed profile.now }
    requires declared { IsDeclared (planned_row plan.now) }
{
    let Ok(mut boards) = boards(rt) else {
        return fail(rt, MEMORY, Status::Memory);
    };
    match rehearse_for_program(rt.alloc(), profile, plan, &mut boards) {
        Ok(rehearsal) => told(rt, &rehearsal),
        Err(stop) => stopped(rt, stop),
    }
}

/// Writes to standard error why there is no script, and answers the status.
fn stopped(rt: &HostRuntime, stop: Stop) -> Status {
    match stop {
        Stop::Memory => fail(rt, MEMORY, Status::Memory),
        Stop::Flash => fail(rt, "a chip stopped", Status::FlashFault),
        Stop::NoBoard => fail(rt, "fewer chips than motes", Status::NoBoard),
        Stop::NoMote => fail(
            rt,
            "--at: no mote of the profile has this number; the first is 0",
            Status::BadInput,
        ),
        Stop::Size => fail(rt, SIZE, Status::BadInput),
    }
}

/// Writes the script of a trial.
fn run_trial(rt: &HostRuntime, trial: &Trial) -> Status {
    let Ok(mut boards) = boards(rt) else {
        return fail(rt, MEMORY, Status::Memory);
    };
    match write_trial_for_program(
        rt.alloc(),
        trial.motes,
        trial.pages,
        trial.seed,
        &mut boards,
    ) {
        Ok(script) => write_script(rt, script.as_slice()),
        Err(stop) => stopped(rt, stop),
    }
}

/// Writes a text to standard output.
fn write(rt: &HostRuntime, text: &str) -> Status {
    match rt.print(text) {
        Ok(()) => Status::Done,
        Err(_) => Status::WriteFault,
    }
}

/// Does what the words ask for.
fn done(rt: &HostRuntime) -> Status {
    let asked = match env::args(rt) {
        Ok(args) => read_words(rt, args),
        Err(error) if error.kind() == ErrorKind::InvalidData => Ok(Asked::Other),
        Err(_) => Err(AllocError),
    };
    match asked {
        Ok(Asked::Rehearse(asked)) => run(rt, asked),
        Ok(Asked::Trial(trial)) => run_trial(rt, &trial),
        Ok(Asked::Help) => write(rt, HELP),
        Ok(Asked::Version) => write(rt, VERSION),
        Ok(Asked::Other) => fail(rt, "try deluge_rehearse --help", Status::Usage),
        Err(AllocError) => fail(rt, MEMORY, Status::Memory),
    }
}

fn main(rt: HostRuntime) -> ExitCode {
    ExitCode::from(done(&rt).code())
}
