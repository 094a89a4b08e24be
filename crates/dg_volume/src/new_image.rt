//! An image that is to be kept.
ghost use Rattle.std.specs.Prelude.{◌≡◌, ◌<◌, length};
ghost use Rattle.dg_object.specs.Object.{IsRow, row_of, pages_for, page_of_row, profile};
ghost use Rattle.dg_object.specs.Records.{outline_of};

use crate::layout::PAGE_SIZE;
use dg_base::crc16;
use dg_object::{Profile, page_of, pages_of};

/// A version of an image, with its name and its bytes: an image from 0 to 6, a version from 1 on, a name of 1 to 16 bytes, and
/// 1 to 70,656 bytes.
#[derive(Drop)]
pub struct NewImage<'a> {
    pub image: u8,
    pub version: u32,
    pub name: &'a [u8],
    pub bytes: &'a [u8],
    ghost is_row: { IsRow (row_of image version name.now bytes.now) },
}

impl NewImage<'_> {
    /// How many pages it makes.
    pub fn pages(&self) -> u8
        ensures { result ≡ pages_for (length self.now.bytes.now) }
    {
        pages_of(self.bytes.len() as u32)
    }

    /// Writes page `p` of it into `into`.
    pub fn page(&self, p: u8, into: &mut [u8; PAGE_SIZE])
        requires { p < pages_for (length self.now.bytes.now) }
        ensures { into.new ≡ page_of_row (row_of self.now.image self.now.version self.now.name.now self.now.bytes.now) p }
    {
        page_of(self.bytes, self.image, self.version, self.name, p, into);
    }

    /// Its profile, which is announced before any page. `first` is its page 0.
    pub fn profile(&self, first: &[u8; PAGE_SIZE]) -> Profile
        requires { first.now ≡ page_of_row (row_of self.now.image self.now.version self.now.name.now self.now.bytes.now) 0 }
        ensures { outline_of result ≡ profile (row_of self.now.image self.now.version self.now.name.now self.now.bytes.now) }
    {
        Profile {
            image: self.image,
            version: self.version,
            pages: self.pages(),
            crc: crc16(first),
        }
    }
}
