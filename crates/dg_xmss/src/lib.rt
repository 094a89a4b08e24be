//! Verification of XMSS signatures (RFC 8391) with the parameter set XMSS-SHA2_10_256, without memory of its own.
//!
//! `verify` does all of it. Its steps are public too (`steps`), each with the algorithm of the RFC that it implements.
#![tactic(auto)]

mod address;
mod chains;
mod hashing;
mod key;
mod leaf;
mod prf;
pub mod steps;
mod trees;
mod verifying;

pub use key::{KeyFault, PublicKey};
pub use verifying::{SignatureFault, verify};

/// The bytes of a node, of a key and of a mask.
pub const NODE_SIZE: usize = 32;

/// The bytes of a public key: the parameter set, the root and SEED (RFC 8391, 4.1.7).
pub const KEY_SIZE: usize = 68;

/// The bytes of a signature: its index, r, 67 values of chains and ten nodes of a path (RFC 8391, 4.1.8).
pub const SIGNATURE_SIZE: usize = 2_500;

/// The height of the tree, and so the nodes of a path.
pub const TREE_HEIGHT: usize = 10;

/// The last of the tree's 1,024 leaves.
pub const LAST_INDEX: u32 = 1_023;
