//! The steps of a verification: addresses and PRF, a chain, the L-tree over the ends of the chains, and the path to the root.
pub use crate::address::Address;
pub use crate::chains::walk;
pub use crate::leaf::Leaf;
pub use crate::prf::Prf;
pub use crate::trees::{MOST_NODES, Nodes, climb, ltree};
