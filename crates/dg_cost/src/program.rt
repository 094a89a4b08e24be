//! The call of `deluge_cost`, as a program makes it.

use crate::call::{Form, cost};
use dg_base::{Sink, Source, Status};
use dg_meter::Metered;
use dg_nor::Nor;
use std::alloc::Global;

/// [`cost`], for a program. This function promises nothing, so that the proof of the program that calls it need not load what
/// `cost` promises.
pub fn cost_for_program<S: Source, K: Sink, N: Nor>(
    alloc: Global,
    asked: &Form,
    input: &mut S,
    out: &mut K,
    boards: &mut Vec<Metered<N>>,
) -> Status {
    cost(alloc, asked, input, out, boards)
}
