//! What rows do not show: exit statuses, texts of help, chips in files and in memory, and services over sockets of this machine.
ghost use Rattle.std.specs.Prelude.{◌<◌};

use crate::Deluge;
use dg_base::{Clock, MemSink, MemSource, Sink, Source, Status, StepClock};
use dg_link::Link;
use dg_nor::{Board, program_in};
use dg_shell::{Commands, Guard, answer, exit_code, run_program};
use std::alloc::Global;
use std::net::{IpAddr, Ipv4Addr, SocketAddr, UdpSocket};
use std::process::ExitCode;
use std::{env, fs, io, process};

/// The exit status of each end of a command, as `docs/COMMANDS.md` has them.
const STATUSES: [(Status, u8); 14] = [
    (Status::Done, 0),
    (Status::Memory, 1),
    (Status::Usage, 2),
    (Status::BadInput, 3),
    (Status::ReadFault, 4),
    (Status::WriteFault, 5),
    (Status::FlashFault, 6),
    (Status::NotAVolume, 7),
    (Status::Refused, 8),
    (Status::LinkFault, 9),
    (Status::TooLong, 10),
    (Status::TooMany, 11),
    (Status::NoBoard, 12),
    (Status::NoImage, 13),
];

/// The HEX file of the one byte `A`.
const GOLDEN: &str = ":0100000041BE\n:00000001FF\n";

/// The words of `format` after which the name of a file stands.
const FORMATTING: &str = "format --name base --used 0";

/// The words of an injection.
const INJECTING: &str = "inject --image 1 --ver 1 --name blink";

/// The words of the other commands over one chip, `serve` aside, and their input.
const OTHERS: [(&str, &str); 10] = [
    ("replay", "motes 1\nboards\n"),
    ("inject --image 1 --ver 1 --name blink", GOLDEN),
    ("order --number 1 --image 1 --ver 1", ""),
    ("boot", ""),
    ("ping", ""),
    ("dump --image 0", ""),
    ("migrate", ""),
    (
        "check --image 1 --root ea4207ef9cfe98aa59325b9754abc2546e4324a0aea79da0f6e830963b86c531",
        "",
    ),
    (
        "receive --image 1 --ver 1 --name n --root ea4207ef9cfe98aa59325b9754abc2546e4324a0aea79da0f6e830963b86c531",
        GOLDEN,
    ),
    ("base --id 0 --step 500 --seed 0", ""),
];

/// The first words of the commands.
const VERBS: [&str; 15] = [
    "replay", "serve", "format", "inject", "order", "boot", "ping", "dump", "migrate", "trial",
    "wrap", "drip", "check", "receive", "base",
];

/// The script of two motes whose chips are left as they are, and its report where the first chip alone keeps an image.
const TWO_CHIPS: &str = "motes 2\nboards\n";

const FIRST_KEEPS: &str = "end 0\nmote 0 off\nkept 0 1 1 2\nmote 1 off\n";

/// The script of as many motes as there may be.
const ALL_MOTES: &str = "motes 16\ngolden base 0 hex:41\n";

/// More bytes than an answer of these checks has.
const AMPLE: usize = 100_000;

/// What was checked, and what was wrong.
#[derive(Drop)]
pub(crate) struct Checks {
    pub(crate) right: u32,
    pub(crate) wrong: u32,
}

impl Checks {
    /// Counts a check, and names it if it was wrong.
    fn note(&mut self, rt: &HostRuntime, right: bool, name: &str) -> anyhow::Result<()> {
        if right {
            self.right = self.right.saturating_add(1);
        } else {
            self.wrong = self.wrong.saturating_add(1);
            println!(rt; "wrong: {name}")?;
        }
        Ok(())
    }
}

/// Makes each check.
pub(crate) fn check_all(rt: &HostRuntime) -> anyhow::Result<Checks> {
    let mut checks = Checks { right: 0, wrong: 0 };
    checks.note(rt, are_exit_codes(), "each status is an exit code")?;
    checks.note(rt, Guard::new(rt).is_whole(), "a file for each stream")?;
    checks.note(rt, ends_as_its_command(rt), "a program's exit status")?;
    checks.note(rt, help_is_of_its_command(rt)?, "the help of each command")?;
    checks.note(
        rt,
        has_a_chip_for_each_mote(rt)?,
        "a chip in memory for each mote",
    )?;
    checks.note(rt, takes_files_in_order(rt)?, "the order of files")?;
    checks.note(
        rt,
        only_format_makes_a_file(rt)?,
        "format alone makes a file",
    )?;
    checks.note(rt, end_in_their_status(rt)?, "commands over a file")?;
    checks.note(
        rt,
        leaves_the_same_bytes(rt)?,
        "a trace leaves the same bytes",
    )?;
    checks.note(rt, needs_a_free_port(rt)?, "a port that is taken")?;
    Ok(checks)
}

/// Whether each status is the exit code of the table.
fn are_exit_codes() -> bool {
    STATUSES.iter().all(|(status, code)| exit_code(*status) == ExitCode::from(*code))
}

/// A new folder for the files of a check.
fn new_folder(rt: &HostRuntime, check: &str) -> anyhow::Result<String> {
    let id = process::id(rt.process());
    let name = format!(in rt.alloc(); "deluge-{check}-{id}")?;
    let folder = env::temp_dir(rt)?.join(rt.alloc(), name.as_str())?;
    let folder = format!(in rt.alloc(); "{}", folder.display())?;
    fs::create_dir(rt, folder.as_str())?;
    Ok(folder)
}

/// How the program ends with these words, one space between them, and an input; and what it writes.
fn answered(rt: &HostRuntime, text: &str, input: &[u8]) -> anyhow::Result<(ExitCode, Vec<u8>)> {
    let alloc = rt.alloc();
    let mut words = Vec::new(alloc);
    for word in text.split(' ') {
        words.push(String::from_str(alloc, word)?)?;
    }
    let mut input = MemSource::new(Vec::from_slice(alloc, input)?, Vec::new(alloc));
    let mut out = MemSink::new(alloc, AMPLE, Vec::new(alloc))?;
    let mut clock = StepClock::new(100);
    let end = answer(rt, &Deluge, &words, &mut input, &mut out, &mut clock);
    Ok((end, Vec::from_slice(alloc, out.bytes())?))
}

/// Whether it ends in this status with these words, the name of a file after them, and an input.
fn ends(rt: &HostRuntime, verb: &str, name: &str, text: &str, code: u8) -> anyhow::Result<bool> {
    let words = format!(in rt.alloc(); "{verb} {name}")?;
    let (end, _) = answered(rt, words.as_str(), text.as_bytes())?;
    Ok(end == ExitCode::from(code))
}

/// Commands that all end as a start without an image does.
#[derive(Clone, Copy)]
struct Imageless;

impl Commands for Imageless {
    fn run<S: Source, K: Sink, L: Link, C: Clock>(
        &self,
        _alloc: Global,
        _words: &Vec<String>,
        _input: &mut S,
        _out: &mut K,
        _boards: &mut Vec<Board>,
        _link: &mut L,
        _clock: &mut C,
    ) -> Status {
        Status::NoImage
    }
}

/// Whether a program ends in the status of its command, and says on standard error alone why.
fn ends_as_its_command(rt: &HostRuntime) -> bool {
    run_program(rt, &Imageless) == ExitCode::from(13)
}

/// Whether the help of the program has a line of each command, and that of each command an example of it.
fn help_is_of_its_command(rt: &HostRuntime) -> anyhow::Result<bool> {
    let (end, text) = answered(rt, "--help", b"")?;
    let mut right = end == ExitCode::SUCCESS;
    for verb in VERBS {
        let line = format!(in rt.alloc(); "\n  {verb} ")?;
        right = str::from_utf8(&text)?.contains(line.as_str()) && right;
        right = has_an_example(rt, verb)? && right;
    }
    Ok(right)
}

/// Whether the help of a command has an example of it.
fn has_an_example(rt: &HostRuntime, verb: &str) -> anyhow::Result<bool> {
    let words = format!(in rt.alloc(); "{verb} --help")?;
    let (end, text) = answered(rt, words.as_str(), b"")?;
    let example = format!(in rt.alloc(); "\nExample: deluge {verb}")?;
    Ok(end == ExitCode::SUCCESS && str::from_utf8(&text)?.contains(example.as_str()))
}

/// Whether a command that names no file has a chip in memory for each mote that there may be.
fn has_a_chip_for_each_mote(rt: &HostRuntime) -> anyhow::Result<bool> {
    let (end, _) = answered(rt, "replay", ALL_MOTES.as_bytes())?;
    Ok(end == ExitCode::SUCCESS)
}

/// Whether the chips of a command are those of its files, in their order.
fn takes_files_in_order(rt: &HostRuntime) -> anyhow::Result<bool> {
    let folder = new_folder(rt, "order")?;
    let folder = folder.as_str();
    let mut right = make_chip(rt, folder, "a", true)?;
    right = make_chip(rt, folder, "b", false)? && right;
    let replay = format!(in rt.alloc(); "replay {folder}/a {folder}/b")?;
    let (end, report) = answered(rt, replay.as_str(), TWO_CHIPS.as_bytes())?;
    right = end == ExitCode::SUCCESS && report.as_slice() == FIRST_KEEPS.as_bytes() && right;
    fs::remove_dir_all(rt, folder)?;
    Ok(right)
}

/// Whether a command whose file is missing ends in status 6, and makes no file.
fn makes_no_file(rt: &HostRuntime, verb: &str, name: &str, text: &str) -> anyhow::Result<bool> {
    Ok(ends(rt, verb, name, text, 6)? && !fs::exists(rt, name)?)
}

/// Whether no command but `format` makes the file that it names.
fn only_format_makes_a_file(rt: &HostRuntime) -> anyhow::Result<bool> {
    let folder = new_folder(rt, "missing")?;
    let name = format!(in rt.alloc(); "{folder}/chip")?;
    let name = name.as_str();
    let port = free_port(rt);
    let one_mote = format!(in rt.alloc(); "motes = 1\nport = {port}\nlinks = []\n")?;
    let mut right = makes_no_file(rt, "serve --turns 1 --seed 0", name, one_mote.as_str())?;
    for (verb, text) in OTHERS {
        right = makes_no_file(rt, verb, name, text)? && right;
    }
    right = ends(rt, FORMATTING, name, GOLDEN, 0)? && right;
    right = fs::read(rt, name)?.len() == 1_085_440 && right;
    fs::remove_dir_all(rt, folder.as_str())?;
    Ok(right)
}

/// The sector in which the first page of golden begins.
const GOLDEN_SECTOR: u32 = 70;

/// Whether commands over a file end in their status, whatever became of it.
fn end_in_their_status(rt: &HostRuntime) -> anyhow::Result<bool> {
    let folder = new_folder(rt, "statuses")?;
    let name = format!(in rt.alloc(); "{folder}/chip")?;
    let name = name.as_str();
    let mut right = ends(rt, FORMATTING, name, GOLDEN, 0)?;
    right = ends(rt, "dump --image 1", name, "", 8)? && right;
    let mut chip = Board::on_file(rt, rt.alloc(), name, false)?;
    right = program_in(&mut chip, GOLDEN_SECTOR, 0, &[0]).is_ok() && right;
    right = ends(rt, "ping", name, "", 6)? && right;
    drop(chip);
    right = ends(rt, "boot", name, "", 13)? && right;
    fs::remove_dir_all(rt, folder.as_str())?;
    Ok(right)
}

/// A socket of this machine.
fn socket(rt: &HostRuntime, port: u16) -> io::Result<UdpSocket> {
    UdpSocket::bind(
        rt,
        SocketAddr::new(IpAddr::V4(Ipv4Addr::new(127, 0, 0, 1)), port),
    )
}

/// The first of two ports that are free, as far as is known. Each process looks elsewhere first.
fn free_port(rt: &HostRuntime) -> u16
    ensures { result < 65000 }
{
    let process = process::id(rt.process());
    for step in 0..200 {
        let port = 20_001 + 200 * (((process % 200) as u16 + step) % 200);
        if socket(rt, port).is_ok() && socket(rt, port + 1).is_ok() {
            return port;
        }
    }
    20_001
}

/// The profile of two neighbours.
fn two_motes(rt: &HostRuntime, port: u16) -> anyhow::Result<String> {
    Ok(format!(in rt.alloc(); "motes = 2\nport = {port}\nlinks = [[0, 1]]\n")?)
}

/// Formats a chip in a file, and copies the file.
fn make_chip(rt: &HostRuntime, folder: &str, name: &str, injected: bool) -> anyhow::Result<bool> {
    let chip = format!(in rt.alloc(); "{folder}/{name}")?;
    let mut right = ends(rt, FORMATTING, chip.as_str(), GOLDEN, 0)?;
    if injected {
        right = ends(rt, INJECTING, chip.as_str(), GOLDEN, 0)? && right;
    }
    let copy = format!(in rt.alloc(); "{folder}/old-{name}")?;
    fs::write(rt, copy.as_str(), &fs::read(rt, chip.as_str())?)?;
    Ok(right)
}

/// Whether a chip is the same as its copy.
fn is_as_its_copy(rt: &HostRuntime, folder: &str, name: &str) -> anyhow::Result<bool> {
    let chip = fs::read(rt, format!(in rt.alloc(); "{folder}/{name}")?.as_str())?;
    let copy = fs::read(rt, format!(in rt.alloc(); "{folder}/old-{name}")?.as_str())?;
    Ok(chip == copy)
}

/// Whether the trace of a service over sockets, replayed over copies of its chips that were made before, leaves the same bytes.
fn leaves_the_same_bytes(rt: &HostRuntime) -> anyhow::Result<bool> {
    let folder = new_folder(rt, "trace")?;
    let folder = folder.as_str();
    let mut right = make_chip(rt, folder, "a", true)?;
    right = make_chip(rt, folder, "b", false)? && right;
    let profile = two_motes(rt, free_port(rt))?;
    let serve = format!(in rt.alloc(); "serve --turns 50 --seed 7 {folder}/a {folder}/b")?;
    let (served, trace) = answered(rt, serve.as_str(), profile.as_bytes())?;
    let replay = format!(in rt.alloc(); "replay {folder}/old-a {folder}/old-b")?;
    let (replayed, _) = answered(rt, replay.as_str(), &trace)?;
    right = served == ExitCode::SUCCESS && replayed == ExitCode::SUCCESS && right;
    right = is_as_its_copy(rt, folder, "a")? && is_as_its_copy(rt, folder, "b")? && right;
    fs::remove_dir_all(rt, folder)?;
    Ok(right)
}

/// Whether a service does not begin at a port that is taken.
fn needs_a_free_port(rt: &HostRuntime) -> anyhow::Result<bool> {
    let port = free_port(rt);
    let _taken = socket(rt, port + 1)?;
    let profile = two_motes(rt, port)?;
    let (end, trace) = answered(rt, "serve --turns 1 --seed 0", profile.as_bytes())?;
    Ok(end == ExitCode::from(9) && trace.as_slice() == b"motes 2\nboards\nlink 0 1\n".as_slice())
}
