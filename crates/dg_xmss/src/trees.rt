//! The L-tree, whose nodes are joined as they come, and the path to the root (RFC 8391, 4.1).
ghost use Rattle.std.specs.Prelude.{◌≡◌, [], ◌+◌, ◌-◌, ◌<◌, ◌≤◌, ◌/◌, length, take, slice_index_or, slice_set};
ghost use Rattle.dg_xmss.specs.Addresses.{ltree_address};
ghost use Rattle.dg_xmss.specs.Wots.{chains};
ghost use Rattle.dg_xmss.specs.Trees.{rand_hash, ltree, parent, path_root};
ghost use Rattle.dg_xmss.specs.Joining.{IsKeyed, IsLeaf, AreWaiting, waiting_nodes, leaf_key, nodes_of};
ghost use Rattle.dg_xmss.specs.Signatures.{path_node, path_of, signature_size, tree_height};

use crate::address::Address;
use crate::chains::chain_end;
use crate::leaf::Leaf;
use crate::prf::Prf;
use crate::{NODE_SIZE, TREE_HEIGHT};

/// The last chain of a leaf.
const LAST_CHAIN: u8 = 66;

/// The height of an L-tree.
const LTREE_HEIGHT: u8 = 7;

/// Where the path begins in a signature: after the values of the chains.
const PATH_AT: usize = 2_180;

/// The most nodes of an L-tree that wait, with the newest one.
pub const MOST_NODES: usize = 7;

/// The nodes of an L-tree that wait for the one beside them, and the newest one after them.
pub type Nodes = [[u8; NODE_SIZE]; MOST_NODES];

// The node above two that stand side by side is put in place of the left one.
fn unite(leaf: &Leaf, nodes: &mut Nodes, left: usize, height: u8, index: u8)
    requires keyed { IsKeyed leaf.now.prf.now }
    requires room { left + 1 < 7 }
    ensures { nodes.new ≡ slice_set nodes.old left
        (rand_hash (slice_index_or nodes.old left []) (slice_index_or nodes.old (left + 1) [])
        leaf.now.prf.now.seed.now (ltree_address leaf.now.index height index)) }
{
    let address = Address::LTree {
        leaf: leaf.index,
        height,
        index,
    };
    nodes[left] = leaf.prf.rand_hash(address, &nodes[left], &nodes[left + 1]);
}

// Joins the newest node, the one with this index at height 0, with those that waited for it. Answers how many wait then.
fn join(leaf: &Leaf, nodes: &mut Nodes, waiting: usize, index: u8) -> usize
    requires leaf { IsLeaf leaf.now }
    requires index { index < 67 }
    requires few { index < length (leaf_key leaf.now) }
    requires waits { AreWaiting (nodes_of leaf.now) 7 0 index nodes.old waiting }
    ensures waits { take result nodes.new ≡ waiting_nodes (nodes_of leaf.now) 7 0 (index + 1) }
    ensures room { result ≤ 7 }
{
    let mut size = waiting;
    let mut count = index;
    let mut height = 0;
    while count % 2 == 1 {
        count /= 2;
        size -= 1;
        unite(leaf, nodes, size, height, count);
        height += 1;
    }
    size + 1
}

// Joins the newest node, if one waits for it at this height. Answers how many wait then.
fn close_at(leaf: &Leaf, nodes: &mut Nodes, waiting: usize, height: u8, index: u8) -> usize
    requires leaf { IsLeaf leaf.now }
    requires height { height < 7 }
    requires last { length (nodes_of leaf.now height) ≡ index + 1 }
    requires waits { AreWaiting (nodes_of leaf.now) (7 - height) height index nodes.old waiting }
    ensures { AreWaiting (nodes_of leaf.now) (6 - height) (height + 1) (index / 2) nodes.new result }
{
    if index % 2 == 0 {
        return waiting;
    }
    unite(leaf, nodes, waiting - 1, height, index / 2);
    waiting - 1
}

// Joins the last node with all that wait: where no node waits at a height, it goes up unchanged.
fn close(leaf: &Leaf, nodes: &mut Nodes, waiting: usize)
    requires leaf { IsLeaf leaf.now }
    requires size { length (leaf_key leaf.now) ≡ chains }
    requires waits { AreWaiting (nodes_of leaf.now) 7 0 66 nodes.old waiting }
    ensures { slice_index_or nodes.new 0 [] ≡ ltree leaf.now.prf.now.seed.now leaf.now.index (leaf_key leaf.now) }
{
    let mut size = waiting;
    let mut index = LAST_CHAIN;
    for height in 0..LTREE_HEIGHT {
        size = close_at(leaf, nodes, size, height, index);
        index /= 2;
    }
}

/// The root of the L-tree of a leaf (RFC 8391, Algorithm 8): it is the first of these nodes.
pub fn ltree(leaf: &Leaf, nodes: &mut Nodes)
    requires { IsLeaf leaf.now }
    ensures { slice_index_or nodes.new 0 [] ≡ ltree leaf.now.prf.now.seed.now leaf.now.index (leaf_key leaf.now) }
{
    let mut waiting = 0;
    for i in 0..LAST_CHAIN {
        chain_end(leaf, i, &mut nodes[waiting]);
        waiting = join(leaf, nodes, waiting, i);
    }
    chain_end(leaf, LAST_CHAIN, &mut nodes[waiting]);
    close(leaf, nodes, waiting);
}

// Reads node k of the path in a signature.
fn path_node(signature: &[u8], k: usize, node: &mut [u8; NODE_SIZE])
    requires size { length signature.now ≡ signature_size }
    requires known { k < tree_height }
    ensures { node.new ≡ path_node signature.now k }
{
    let at = PATH_AT + NODE_SIZE * k;
    node.copy_from_slice(&signature[at..at + NODE_SIZE]);
}

// The node above one, with the one beside it.
fn parent(
    prf: &Prf,
    height: u8,
    index: u16,
    node: &[u8; NODE_SIZE],
    beside: &[u8; NODE_SIZE],
) -> [u8; NODE_SIZE]
    requires { IsKeyed prf.now }
    ensures { result ≡ parent prf.now.seed.now height index node.now beside.now }
{
    let address = Address::HashTree {
        height,
        index: index / 2,
    };
    if index % 2 == 0 {
        return prf.rand_hash(address, node, beside);
    }
    prf.rand_hash(address, beside, node)
}

/// Goes from the root of an L-tree, the first of these nodes, to the root of the tree, along the path in a signature (the loop
/// of RFC 8391's Algorithm 13).
pub fn climb(prf: &Prf, leaf: u16, signature: &[u8], nodes: &mut Nodes)
    requires keyed { IsKeyed prf.now }
    requires size { length signature.now ≡ signature_size }
    ensures { slice_index_or nodes.new 0 []
        ≡ path_root prf.now.seed.now 0 leaf (slice_index_or nodes.old 0 []) (path_of signature.now) }
{
    let mut index = leaf;
    for k in 0..TREE_HEIGHT {
        path_node(signature, k, &mut nodes[1]);
        nodes[0] = parent(prf, k as u8, index, &nodes[0], &nodes[1]);
        index /= 2;
    }
}
