//! Tests of what no clause says of the crates that stand below a network: a file for each. A crate with tests is proved twice, so
//! these are in a crate of their own.
#![tactic(auto)]

#[cfg(test)]
mod chip_files;
#[cfg(test)]
mod chips;
#[cfg(test)]
mod counts;
#[cfg(test)]
mod descriptors;
#[cfg(test)]
mod frames;
#[cfg(test)]
mod lines;
#[cfg(test)]
mod outside;
#[cfg(test)]
mod packets;
#[cfg(test)]
mod timers;
#[cfg(test)]
mod turns;
#[cfg(test)]
mod values;
