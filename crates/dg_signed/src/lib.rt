//! What is found of an image by the texts of a key and of a signature, and the words of the program that verifies signatures.
#![tactic(auto)]

mod apps;
mod command;
mod finding;
mod release;
mod sentences;
mod signed;
mod words;

pub use command::{Asked, Command, KeyFiles};
pub use finding::{Unsigned, signed_image};
pub use release::{ImageName, Release};
pub use signed::SignedImage;
pub use words::asked;
