//! A command from its words to its exit status.
use crate::commands::Commands;
use crate::finding::first_chip;
use crate::guard::Guard;
use crate::notes::{note_volume, note_waiting};
use crate::opening::chips;
use crate::telling::{Ended, exit_code, tell, without_memory};
use crate::words::words;
use dg_base::{Clock, Sink, Source};
use dg_command::flash_names;
use dg_messages::{Input, Output};
use dg_net::{SystemClock, UdpLink};
use dg_nor::{Board, FileFault};
use std::process::ExitCode;

/// Why the file of the chip with this number is gone, if it is.
fn fault_at(boards: &[Board], chip: Option<usize>) -> Option<FileFault> {
    boards.get(chip?)?.file_fault()
}

/// Runs the command of these words over an input, an output and a clock, chips in the files that they name or in memory, and
/// sockets of this machine. The guard is held while files of chips are open. None where memory runs out.
fn run_words<M: Commands, S: Source, K: Sink, C: Clock>(
    rt: &HostRuntime,
    _guard: &Guard,
    commands: &M,
    words: &Vec<String>,
    input: &mut S,
    out: &mut K,
    clock: &mut C,
) -> Option<Ended> {
    let names = flash_names(rt.alloc(), words).ok()?;
    let mut boards = chips(rt, words, &names)?;
    note_volume(rt, words, &names, &mut boards);
    let mut link = UdpLink::new(rt, rt.alloc());
    let status = commands.run(rt.alloc(), words, input, out, &mut boards, &mut link, clock);
    let chip = first_chip(rt, status, &mut boards);
    let file = fault_at(&boards, chip);
    Some(Ended {
        names,
        status,
        chip,
        file,
        link: link.cause(),
    })
}

/// Runs the command of these words, as [`run_program`] does, over an input, an output and a clock, and returns the exit status.
/// Nothing is told on standard error of how it ended.
pub fn answer<M: Commands, S: Source, K: Sink, C: Clock>(
    rt: &HostRuntime,
    commands: &M,
    words: &Vec<String>,
    input: &mut S,
    out: &mut K,
    clock: &mut C,
) -> ExitCode {
    let guard = Guard::new(rt);
    match run_words(rt, &guard, commands, words, input, out, clock) {
        Some(ended) => exit_code(ended.status),
        None => without_memory(rt),
    }
}

/// Runs the command of the words that the program is given, over standard input and output, chips in files or in memory, sockets
/// of this machine and its clock. Why it did not do what it was asked is told on standard error.
pub fn run_program<M: Commands>(rt: &HostRuntime, commands: &M) -> ExitCode {
    let mut clock = SystemClock::new(rt);
    let guard = Guard::new(rt);
    let Some(words) = words(rt) else {
        return without_memory(rt);
    };
    let mut input = Input::new(rt.stdin());
    let mut out = Output::new(rt.stdout());
    note_waiting(rt, &words);
    let Some(ended) = run_words(
        rt, &guard, commands, &words, &mut input, &mut out, &mut clock,
    ) else {
        return without_memory(rt);
    };
    tell(rt, &words, &ended, &input, &out);
    exit_code(ended.status)
}
