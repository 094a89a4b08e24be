//! The bound of a script of nodes, and what it is. The function does nothing: its contract is the law.
ghost use Rattle.std.specs.Prelude.{◌≡◌};
ghost use Rattle.dg_drip_script.specs.Sizes.{most_nodes};

/// The most nodes of a script.
pub const MOST_NODES: u8 = 16;

/// A script has at most 16 nodes.
pub fn scripts_of_nodes_have_this_bound()
    ensures nodes { MOST_NODES ≡ most_nodes }
{}
