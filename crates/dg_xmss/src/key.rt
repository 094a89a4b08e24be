//! Public keys (RFC 8391, 4.1.7).
ghost use Rattle.std.specs.Prelude.{◌≡◌};
ghost use Rattle.dg_xmss.specs.Answers.{ReadsKey};

use crate::{KEY_SIZE, NODE_SIZE};
use std::error::Error;
use std::fmt;

/// A public key of XMSS-SHA2_10_256.
#[derive(Clone, Copy, Debug, PartialEq, Eq)]
pub struct PublicKey {
    pub root: [u8; NODE_SIZE],
    pub seed: [u8; NODE_SIZE],
}

/// Why bytes are not a public key.
#[derive(Clone, Copy, Debug, PartialEq, Eq)]
pub enum KeyFault {
    /// They are not 68.
    Length { length: usize },
    /// The first four bytes name another parameter set.
    ParameterSet { number: u32 },
}

/// The number of XMSS-SHA2_10_256 (RFC 8391, 8).
const PARAMETER_SET: u32 = 1;

impl PublicKey {
    /// Reads a key from its 68 bytes.
    pub fn from_bytes(bytes: &[u8]) -> Result<PublicKey, KeyFault>
        ensures { ReadsKey bytes.now result }
    {
        if bytes.len() != KEY_SIZE {
            return Err(KeyFault::Length {
                length: bytes.len(),
            });
        }
        let number = u32::from_be_bytes([bytes[0], bytes[1], bytes[2], bytes[3]]);
        if number != PARAMETER_SET {
            return Err(KeyFault::ParameterSet { number });
        }
        let mut root = [0; NODE_SIZE];
        root.copy_from_slice(&bytes[4..36]);
        let mut seed = [0; NODE_SIZE];
        seed.copy_from_slice(&bytes[36..]);
        Ok(PublicKey { root, seed })
    }
}
