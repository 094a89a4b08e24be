//! Reads and writes Intel HEX files, the file form of images (Intel, "Hexadecimal Object File Format
//! Specification", revision A).
#![tactic(auto)]

mod faults;
mod laws;
mod reader;
mod record;
mod stream;
mod window;
mod writer;

pub use faults::{HexCause, HexFileFault};
pub use laws::{
    a_refused_file_has_its_first_fault, a_written_file_is_read_again, an_image_holds_what_is_given,
    the_numbers_are_these,
};
pub use reader::MOST_TEXT;
pub use stream::{HexReader, read_ihex};
pub use window::LONGEST_IMAGE;
pub use writer::write_ihex;
