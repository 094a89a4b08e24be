//! What the public key of a leaf is made from.
use crate::NODE_SIZE;
use crate::prf::Prf;

/// A leaf of the tree, under a signature of a message.
#[derive(Drop)]
pub struct Leaf<'a> {
    pub prf: &'a Prf<'a>,
    pub index: u16,
    /// The digest of the message.
    pub digest: &'a [u8; NODE_SIZE],
    /// The sum of what its digits lack.
    pub checksum: u16,
    pub signature: &'a [u8],
}
