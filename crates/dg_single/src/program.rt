//! The call of `deluge_node`, as a program makes it.

use crate::network::serve_mote_of_network;
use dg_base::{Clock, Sink, Source, Status};
use dg_link::Link;
use dg_nor::Nor;
use std::alloc::Global;

/// [`serve_mote_of_network`], for a program. This function promises nothing, so that the proof of the program that calls it need
/// not load what `serve_mote_of_network` promises.
pub fn serve_for_program<S: Source, K: Sink, N: Nor, L: Link, C: Clock, W: Clock>(
    alloc: Global,
    input: &mut S,
    mote: u8,
    board: &mut N,
    link: &mut L,
    clock: &mut C,
    watch: &mut W,
    seed: u32,
    turns: u64,
    out: &mut K,
) -> Status {
    serve_mote_of_network(
        alloc, input, mote, board, link, clock, watch, seed, turns, out,
    )
}
