//! What is announced of an object before any of its pages.
ghost use Rattle.std.specs.Prelude.{◌≤◌};
ghost use Rattle.dg_object.specs.Sizes.{fewest_pages, most_pages};

/// An object in outline: `crc` is that of page 0, which keeps the CRCs of the other pages.
#[derive(Clone, Copy, Debug, PartialEq, Eq)]
pub struct Profile {
    pub image: u8,
    pub version: u32,
    pub pages: u8,
    pub crc: u16,
    ghost real_version: { 1 ≤ version },
    ghost some_pages: { fewest_pages ≤ pages },
    ghost few_pages: { pages ≤ most_pages },
}
