//! What every layer of the project builds on: the traits of inputs, outputs and clocks, numbers and
//! texts as bytes, the types of events, and the checksum of pages and frames.
#![tactic(auto)]

mod answers;
mod checksum;
mod checksum_tables;
mod clock;
mod events;
mod hexadecimal;
mod memory;
mod numbers;
mod outside;
mod sizes;
mod standard;
mod texts;

pub use answers::Status;
pub use checksum::{checksum_is_a_remainder, crc16, crc16_more};
pub use clock::{Clock, StepClock, a_step_clock_counts_on};
pub use events::{Cut, Event, FrameBytes, ImageVersion, LONGEST_FRAME, LONGEST_MASK, Pairs, Step};
pub use hexadecimal::{HexFault, hex_reads_back, parse_hex, push_hex};
pub use memory::{MemSink, MemSource};
pub use numbers::{parse_u32, push_u32, reads_what_is_printed};
pub use outside::{ReadFailed, Sink, Source, WriteFailed};
pub use sizes::{GREATEST_PORT, MOST_CONTENT, MOST_INPUT, MOST_MOTES, the_sizes_are_these};
pub use standard::{StdSink, StdSource};
pub use texts::{Bytes, is_name, next_line};
