//! Replays a script over boards: `replay` reads it line by line, plays each line, and writes what it reports.
//!
//! Scripts are of 1 to 16 motes. Their chips are formatted, images are declared, injected, ordered and started, and time passes.
//! Frames are sent, heard and brought from outside, rounds and sweeps bring pages from mote to mote, and power is cut.
#![tactic(auto)]

mod call;
mod ends;
mod finish;
mod following;
mod halt;
mod items;
mod laws;
mod lines;
mod player;
mod rounds;
mod stop;
mod watching;

pub use call::replay;
pub use laws::{first_lines_are_read_the_same, replays_keep_the_rules, whole_lines_are_longest};
pub use watching::{Unwatched, Watcher};
