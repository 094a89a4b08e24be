//! What is reported of an image whose pages are in program memory.

/// `pages` counts the descriptor too, `length` is the number of the image's bytes, and `crc` is their checksum.
#[derive(Clone, Copy, Debug, PartialEq, Eq)]
pub(crate) struct Loaded {
    pub(crate) pages: u8,
    pub(crate) length: u32,
    pub(crate) crc: u16,
}
