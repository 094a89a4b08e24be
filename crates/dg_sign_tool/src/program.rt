//! The call that receives a signed image, as a program makes it.

use crate::receive;
use dg_base::{Sink, Source, Status};
use dg_nor::Nor;
use dg_signed::{ImageName, SignedImage, Unsigned};
use std::alloc::Global;

/// [`receive`], for a program. This function promises nothing, so that the proof of the program that calls it need not load what
/// `receive` promises.
pub fn receive_for_program<S: Source, K: Sink, N: Nor>(
    alloc: Global,
    found: &Result<SignedImage, Unsigned>,
    name: &ImageName,
    input: &mut S,
    out: &mut K,
    boards: &mut Vec<N>,
) -> Status {
    receive(alloc, found, name, input, out, boards)
}
