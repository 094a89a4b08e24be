//! Which signatures are those of a message (RFC 8391, 4.1.10).
ghost use Rattle.std.specs.Prelude.{◌≡◌, ◌↔◌, ◌≤◌, [], length, slice_index_or, IsOk};
ghost use Rattle.dg_xmss.specs.Signatures.{IsSignature, signature_size, last_index, index_of, signature_root};
ghost use Rattle.dg_xmss.specs.Answers.{Verifies};

use crate::chains::checksum;
use crate::hashing::message_digest;
use crate::key::PublicKey;
use crate::leaf::Leaf;
use crate::prf::Prf;
use crate::trees::{MOST_NODES, Nodes, climb, ltree};
use crate::{LAST_INDEX, NODE_SIZE, SIGNATURE_SIZE};

/// Why a signature is not one of a message under a key.
#[derive(Clone, Copy, Debug, PartialEq, Eq)]
pub enum SignatureFault {
    /// It does not have 2,500 bytes.
    Length { length: usize },
    /// It names a leaf that the tree does not have.
    Index { index: u32 },
    /// It leads to another root than that of the key.
    Root,
}

// The index of a signature.
fn index_of(signature: &[u8]) -> u32
    requires { length signature.now ≡ signature_size }
    ensures { result ≡ index_of signature.now }
{
    u32::from_be_bytes([signature[0], signature[1], signature[2], signature[3]])
}

// The root that a signature leads to: it is the first of these nodes.
fn signature_root(key: &PublicKey, message: &[u8], signature: &[u8], index: u16, nodes: &mut Nodes)
    requires size { length signature.now ≡ signature_size }
    requires index { index ≡ index_of signature.now }
    ensures { slice_index_or nodes.new 0 [] ≡ signature_root key.now message.now signature.now }
{
    let digest = message_digest(&signature[4..36], &key.root, index, message);
    let prf = Prf::new(&key.seed);
    let checksum = checksum(&digest);
    let leaf = Leaf {
        prf: &prf,
        index,
        digest: &digest,
        checksum,
        signature,
    };
    ltree(&leaf, nodes);
    climb(&prf, index, signature, nodes);
}

/// Whether a signature is one of a message under a key. It is read once, from its first byte to its last, in pieces of at most 32
/// bytes.
pub fn verify(key: &PublicKey, message: &[u8], signature: &[u8]) -> Result<(), SignatureFault>
    ensures accepted { IsOk result ↔ IsSignature key.now message.now signature.now }
    ensures told { Verifies key.now message.now signature.now result }
{
    if signature.len() != SIGNATURE_SIZE {
        return Err(SignatureFault::Length {
            length: signature.len(),
        });
    }
    let index = index_of(signature);
    if index > LAST_INDEX {
        return Err(SignatureFault::Index { index });
    }
    let mut nodes = [[0; NODE_SIZE]; MOST_NODES];
    signature_root(key, message, signature, index as u16, &mut nodes);
    if nodes[0] != key.root {
        return Err(SignatureFault::Root);
    }
    Ok(())
}
