//! Bytes that rows share, each under a name.

use dg_base::parse_u32;
use std::alloc::{AllocError, Global};

/// Bytes under a name.
#[derive(Drop)]
pub(crate) struct Saved {
    pub(crate) name: String,
    pub(crate) bytes: Vec<u8>,
}

impl Saved {
    /// Nothing under this name.
    pub(crate) fn new(alloc: Global, name: &str) -> Result<Saved, AllocError> {
        Ok(Saved {
            name: String::from_str(alloc, name)?,
            bytes: Vec::new(alloc),
        })
    }
}

/// The bytes of a file.
fn bytes_of<'a>(saved: &'a [Saved], name: &str) -> Option<&'a [u8]> {
    for file in saved {
        if file.name.as_str() == name {
            return Some(file.bytes.as_slice());
        }
    }
    None
}

/// The bytes of a file, once or as often as is said.
pub(crate) fn copies_of(
    alloc: Global,
    saved: &[Saved],
    text: &str,
) -> Result<Option<Vec<u8>>, AllocError> {
    let (name, count) = text.split_once(' ').unwrap_or((text, "1"));
    let (Some(bytes), Some(count)) = (bytes_of(saved, name), parse_u32(count.as_bytes())) else {
        return Ok(None);
    };
    let mut copies = Vec::new(alloc);
    for _ in 0..count {
        copies.extend_from_slice(bytes)?;
    }
    Ok(Some(copies))
}
