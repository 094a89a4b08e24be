//! The functions F, H and H_msg over SHA-256 (RFC 8391, 5.1).
ghost use Rattle.std.specs.Prelude.{◌≡◌, ◌++◌};
ghost use Rattle.sha2.specs.Hashers.{Holds256};
ghost use Rattle.dg_xmss.specs.Functions.{to_byte, xor, f, h_msg, node_size};

use crate::NODE_SIZE;
use sha2::{Digest, Sha256};

/// A hasher that has taken the number of a function in: 0 is F, 1 is H, 2 is H_msg and 3 is PRF.
pub(crate) fn begun(function: u8) -> Sha256
    ensures { Holds256 result (to_byte function node_size) }
{
    let mut hasher = Sha256::new();
    hasher.update(number(function).as_slice());
    hasher
}

// A small number as 32 bytes.
fn number(value: u8) -> [u8; NODE_SIZE]
    ensures { result ≡ to_byte value node_size }
{
    [
        0, 0, 0, 0, 0, 0, 0, 0, 0, 0, 0, 0, 0, 0, 0, 0, 0, 0, 0, 0, 0, 0, 0, 0, 0, 0, 0, 0, 0, 0,
        0, value,
    ]
}

/// F of a key and a node.
pub(crate) fn f(key: &[u8; NODE_SIZE], node: &[u8; NODE_SIZE]) -> [u8; NODE_SIZE]
    ensures { result ≡ f key.now node.now }
{
    let mut hasher = begun(0);
    hasher.update(key.as_slice());
    hasher.update(node.as_slice());
    hasher.finalize()
}

/// H_msg of a message: its key is r, the root and the index.
pub(crate) fn message_digest(
    randomness: &[u8],
    root: &[u8; NODE_SIZE],
    index: u16,
    message: &[u8],
) -> [u8; NODE_SIZE]
    ensures { result ≡ h_msg (randomness.now ++ root.now ++ to_byte index node_size) message.now }
{
    let mut hasher = begun(2);
    hasher.update(randomness);
    hasher.update(root.as_slice());
    hasher.update(index_bytes(index).as_slice());
    hasher.update(message);
    hasher.finalize()
}

// An index as 32 bytes.
fn index_bytes(index: u16) -> [u8; NODE_SIZE]
    ensures { result ≡ to_byte index node_size }
{
    [
        0,
        0,
        0,
        0,
        0,
        0,
        0,
        0,
        0,
        0,
        0,
        0,
        0,
        0,
        0,
        0,
        0,
        0,
        0,
        0,
        0,
        0,
        0,
        0,
        0,
        0,
        0,
        0,
        0,
        0,
        (index / 256) as u8,
        (index % 256) as u8,
    ]
}

/// Lays a mask over a node: the mask is changed.
pub(crate) fn lay_over(mask: &mut [u8; NODE_SIZE], node: &[u8; NODE_SIZE])
    ensures { mask.new ≡ xor node.now mask.old }
{
    for i in 0..NODE_SIZE {
        mask[i] = node[i] ^ mask[i];
    }
}
