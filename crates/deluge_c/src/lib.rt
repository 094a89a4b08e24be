//! What a firmware in C calls: numbers, bytes and structs go in and out, and nothing is kept between calls.
//!
//! Each call is total: an invalid argument gives an answer. A pointer is never null, also where its count is 0, and what is
//! written to is lent to the call alone. Nothing here allocates. `examples/c/deluge.h` is the header.
#![tactic(auto)]

mod answers;
mod checksums;
mod injections;
mod lines;
mod looks;
mod messages;
mod orders;
mod packets;
mod pages;
mod rooms;
mod seals;
mod starts;
mod takes;
mod timers;
