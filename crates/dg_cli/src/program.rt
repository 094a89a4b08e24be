//! The top call as a program makes it.

use crate::command::run;
use dg_base::{Clock, Sink, Source, Status};
use dg_link::Link;
use dg_nor::Nor;
use std::alloc::Global;

/// [`run`], for a program. This function promises nothing, so that the proof of the program that calls it need not load what
/// `run` promises.
pub fn run_for_program<S: Source, K: Sink, N: Nor, L: Link, C: Clock>(
    alloc: Global,
    words: &Vec<String>,
    input: &mut S,
    out: &mut K,
    boards: &mut Vec<N>,
    link: &mut L,
    clock: &mut C,
) -> Status {
    run(alloc, words, input, out, boards, link, clock)
}
