//! Images whose pages are chained by digests: each page carries the digest of the next, and a root names the first.
#![tactic(auto)]

mod checking;
mod faults;
mod laws;
mod pages;
mod receiving;
mod sealing;
mod wrapping;

pub use checking::{ChainFault, check};
pub use laws::{a_root_names_its_pages, sizes_of_a_chain};
pub use receiving::receive_page;
pub use sealing::{ChainSealing, seal_chained};
pub use wrapping::{WrapFault, Wrapped, wrap};

/// The bytes of a payload in a page.
pub const PIECE_SIZE: usize = 1_072;

/// The bytes of a digest.
pub const DIGEST_SIZE: usize = 32;

/// The most bytes of a payload: those of 64 pages, minus the four of its length.
pub const MOST_PAYLOAD: usize = 68_604;
