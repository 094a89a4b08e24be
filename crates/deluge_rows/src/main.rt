//! `deluge_rows` plays files of rows through `run`, and reports the rows with another outcome, and how many rows there were. Then
//! it checks what rows do not show.
#![tactic(auto)]

mod files;

use crate::files::check_all;
use dg_base::{Clock, MemSink, Sink, Source, Status, StepClock};
use dg_link::{FailLink, Link};
use dg_nor::{Board, Nor};
use dg_rows::{Runner, play};
use dg_shell::Commands;
use std::alloc::Global;
use std::{env, fs};

/// The program.
#[derive(Clone, Copy)]
struct Deluge;

impl Runner for Deluge {
    fn run<S: Source, N: Nor>(
        &self,
        alloc: Global,
        words: &Vec<String>,
        input: &mut S,
        out: &mut MemSink,
        boards: &mut Vec<N>,
        link: &mut FailLink,
        clock: &mut StepClock,
    ) -> Status {
        dg_cli::run_for_program(alloc, words, input, out, boards, link, clock)
    }
}

impl Commands for Deluge {
    fn run<S: Source, K: Sink, L: Link, C: Clock>(
        &self,
        alloc: Global,
        words: &Vec<String>,
        input: &mut S,
        out: &mut K,
        boards: &mut Vec<Board>,
        link: &mut L,
        clock: &mut C,
    ) -> Status {
        dg_cli::run_for_program(alloc, words, input, out, boards, link, clock)
    }
}

fn main(rt: HostRuntime) -> anyhow::Result<()> {
    for name in env::args(&rt)?.skip(1) {
        let text = fs::read_to_string(&rt, name.as_str())?;
        let tally = play(rt.alloc(), &Deluge, text.as_str())?;
        rt.print(tally.told.as_str())?;
        println!(rt; "{name}: {} rows, {} wrong", tally.rows, tally.wrong)?;
    }
    let checks = check_all(&rt)?;
    println!(rt;
        "files: {} checks, {} wrong",
        checks.right.saturating_add(checks.wrong),
        checks.wrong
    )?;
    Ok(())
}
