//! Who runs a command.
use dg_base::{Clock, Sink, Source, Status};
use dg_link::Link;
use dg_nor::Board;
use std::alloc::Global;

/// Runs commands, as `run` of `dg_cli` does.
pub trait Commands {
    /// Does what the words ask for.
    fn run<S: Source, K: Sink, L: Link, C: Clock>(
        &self,
        alloc: Global,
        words: &Vec<String>,
        input: &mut S,
        out: &mut K,
        boards: &mut Vec<Board>,
        link: &mut L,
        clock: &mut C,
    ) -> Status;
}
