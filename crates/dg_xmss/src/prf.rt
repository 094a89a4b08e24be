//! The function PRF under one SEED (RFC 8391, 5.1), and what is made by it.
ghost use Rattle.std.specs.Prelude.{◌≡◌};
ghost use Rattle.dg_xmss.specs.Functions.{prf};
ghost use Rattle.dg_xmss.specs.Wots.{chain_step};
ghost use Rattle.dg_xmss.specs.Trees.{rand_hash};
ghost use Rattle.dg_xmss.specs.Addresses.{address_of};
ghost use Rattle.dg_xmss.specs.Joining.{IsKeyed};

use crate::NODE_SIZE;
use crate::address::Address;
use crate::hashing::{begun, f, lay_over};
use sha2::{Digest, Sha256};

/// PRF under a SEED: the state after the first block, which is the same at each address.
#[derive(Drop)]
pub struct Prf<'a> {
    pub seed: &'a [u8; NODE_SIZE],
    begun: Sha256,
}

// The same hasher.
fn cloned(hasher: &Sha256) -> Sha256
    ensures { result ≡ hasher.now }
{
    hasher.clone().unwrap()
}

impl<'a> Prf<'a> {
    /// PRF under this SEED.
    pub fn new(seed: &'a [u8; NODE_SIZE]) -> Prf<'a>
        ensures keyed { IsKeyed result }
        ensures seed { result.seed.now ≡ seed.now }
    {
        let mut hasher = begun(3);
        hasher.update(seed.as_slice());
        Prf {
            seed,
            begun: hasher,
        }
    }

    /// PRF at an address with this keyAndMask.
    pub fn at(&self, address: Address, key_and_mask: u8) -> [u8; NODE_SIZE]
        requires { IsKeyed self.now }
        ensures { result ≡ prf self.now.seed.now (address_of address key_and_mask) }
    {
        let mut hasher = cloned(&self.begun);
        hasher.update(address.bytes(key_and_mask).as_slice());
        hasher.finalize()
    }

    /// One more step from a value of a chain (the body of RFC 8391's Algorithm 2).
    pub fn step(&self, leaf: u16, chain: u8, hash: u8, node: &[u8; NODE_SIZE]) -> [u8; NODE_SIZE]
        requires { IsKeyed self.now }
        ensures { result ≡ chain_step self.now.seed.now leaf chain hash node.now }
    {
        let address = Address::Ots { leaf, chain, hash };
        let key = self.at(address, 0);
        let mut mask = self.at(address, 1);
        lay_over(&mut mask, node);
        f(&key, &mask)
    }

    /// The node above two (RFC 8391, Algorithm 7).
    pub fn rand_hash(
        &self,
        address: Address,
        left: &[u8; NODE_SIZE],
        right: &[u8; NODE_SIZE],
    ) -> [u8; NODE_SIZE]
        requires { IsKeyed self.now }
        ensures { result ≡ rand_hash left.now right.now self.now.seed.now (address_of address) }
    {
        let key = self.at(address, 0);
        let mut hasher = begun(1);
        hasher.update(key.as_slice());
        let mut mask = self.at(address, 1);
        lay_over(&mut mask, left);
        hasher.update(mask.as_slice());
        mask = self.at(address, 2);
        lay_over(&mut mask, right);
        hasher.update(mask.as_slice());
        hasher.finalize()
    }
}
