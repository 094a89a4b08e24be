//! `deluge` reprograms a network of motes over many hops. `run` of `dg_cli` does all that it does.
#![tactic(auto)]

use dg_base::{Clock, Sink, Source, Status};
use dg_link::Link;
use dg_nor::Board;
use dg_shell::{Commands, run_program};
use std::alloc::Global;
use std::process::ExitCode;

/// The commands of the program.
#[derive(Clone, Copy)]
struct Deluge;

impl Commands for Deluge {
    fn run<S: Source, K: Sink, L: Link, C: Clock>(
        &self,
        alloc: Global,
        words: &Vec<String>,
        input: &mut S,
        out: &mut K,
        boards: &mut Vec<Board>,
        link: &mut L,
        clock: &mut C,
    ) -> Status {
        dg_cli::run_for_program(alloc, words, input, out, boards, link, clock)
    }
}

/// Runs the command of the words over standard input and output, sockets of this machine and its clock.
fn main(rt: HostRuntime) -> ExitCode {
    run_program(&rt, &Deluge)
}
