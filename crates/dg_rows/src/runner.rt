//! Who runs a command.

use dg_base::{MemSink, Source, Status, StepClock};
use dg_link::FailLink;
use dg_nor::Nor;
use std::alloc::Global;

/// Runs commands, as `run` of `dg_cli` does. Rows are played by it without knowing its contract: a crate that depends on it pays
/// for it in its proof.
pub trait Runner {
    /// Does what the words ask for.
    fn run<S: Source, N: Nor>(
        &self,
        alloc: Global,
        words: &Vec<String>,
        input: &mut S,
        out: &mut MemSink,
        boards: &mut Vec<N>,
        link: &mut FailLink,
        clock: &mut StepClock,
    ) -> Status;
}
