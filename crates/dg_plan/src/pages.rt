//! Pages by their names.

/// A page of a version of an image.
#[derive(Clone, Copy, Debug, PartialEq, Eq)]
pub struct PageName {
    pub image: u8,
    pub version: u32,
    pub page: u8,
}
