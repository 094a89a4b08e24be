//! Signed images: the line that is signed, whether a signature is one of it under a key, and keys and signatures as files have
//! them.
#![tactic(auto)]

mod keys;
mod lines;
mod signatures;
mod verifying;

pub use keys::{KeyTextFault, read_key};
pub use lines::signed_line;
pub use signatures::{SignatureTextFault, read_signature};
pub use verifying::{VerifyFault, verify_image};
