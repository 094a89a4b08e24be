//! Addresses, of which each call of PRF has its own (RFC 8391, 2.5).
ghost use Rattle.std.specs.Prelude.{◌≡◌, ◌/◌, ◌%◌};
ghost use Rattle.dg_xmss.specs.Addresses.{address, address_of};

use crate::NODE_SIZE;

/// The words of an address by its type, without keyAndMask. Layer and tree address are 0.
#[derive(Clone, Copy)]
pub enum Address {
    /// A step of a chain of a leaf.
    Ots { leaf: u16, chain: u8, hash: u8 },
    /// A node of the L-tree of a leaf.
    LTree { leaf: u16, height: u8, index: u8 },
    /// A node of the tree.
    HashTree { height: u8, index: u16 },
}

// Eight words of four bytes, of which the first three are 0.
fn words(kind: u8, first: u16, second: u16, third: u16, key_and_mask: u8) -> [u8; NODE_SIZE]
    ensures { result ≡ address kind first second third key_and_mask }
{
    [
        0,
        0,
        0,
        0,
        0,
        0,
        0,
        0,
        0,
        0,
        0,
        0,
        0,
        0,
        0,
        kind,
        0,
        0,
        high(first),
        low(first),
        0,
        0,
        high(second),
        low(second),
        0,
        0,
        high(third),
        low(third),
        0,
        0,
        0,
        key_and_mask,
    ]
}

// The upper byte of a word.
fn high(word: u16) -> u8
    ensures { result ≡ word / 256 }
{
    (word / 256) as u8
}

// The lower byte of a word.
fn low(word: u16) -> u8
    ensures { result ≡ word % 256 }
{
    (word % 256) as u8
}

impl Address {
    /// The 32 bytes, with this keyAndMask.
    pub fn bytes(self, key_and_mask: u8) -> [u8; NODE_SIZE]
        ensures { result ≡ address_of self key_and_mask }
    {
        match self {
            Address::Ots { leaf, chain, hash } => {
                words(0, leaf, u16::from(chain), u16::from(hash), key_and_mask)
            }
            Address::LTree {
                leaf,
                height,
                index,
            } => words(1, leaf, u16::from(height), u16::from(index), key_and_mask),
            Address::HashTree { height, index } => {
                words(2, 0, u16::from(height), index, key_and_mask)
            }
        }
    }
}
