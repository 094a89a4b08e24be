//! Tests of what no clause says of links, of signatures, and of what is told of a cause: a file for each. They are apart from
//! those of `dg_tests`, since a proof of all of them takes much memory.
#![tactic(auto)]

#[cfg(test)]
mod carrying;
#[cfg(test)]
mod causes;
#[cfg(test)]
mod keys;
#[cfg(test)]
mod links;
#[cfg(test)]
mod signatures;
#[cfg(test)]
mod signed;
#[cfg(test)]
mod sockets;
