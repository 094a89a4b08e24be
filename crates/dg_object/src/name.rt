//! Names of images.
ghost use Rattle.std.specs.Prelude.{◌≡◌, ◌≤◌, length};
ghost use Rattle.dg_object.specs.Sizes.{name_size};

use arrayvec::ArrayVec;
use std::marker::Model;
use std::mem::size_of;

/// The bytes that a descriptor gives a name.
pub const NAME_SIZE: usize = 16;

/// The bytes that a name takes, by its type: its array, and how many bytes of it are the name's.
pub const SIZE_OF_NAME: usize = size_of::<Name>();

/// The name of an image: at most 16 bytes, without the padding that a descriptor gives them.
#[derive(Debug, PartialEq, Eq, Drop)]
pub struct Name {
    bytes: ArrayVec<u8, NAME_SIZE>,
}

impl Model for Name {
    ghost use Rattle.std.specs.Prelude.{ℕ, List};

    ghost Value = { List ℕ };

    ghost view = { λ n. n.bytes.items };

    ghost inverse = { λ bytes. record { bytes = record { items = bytes } } };
}

impl Name {
    /// The name with these bytes.
    pub fn new(bytes: &[u8]) -> Self
        requires { length bytes.now ≤ name_size }
        ensures { result ≡ bytes.now }
    {
        let mut held = ArrayVec::new();
        let _ = held.try_extend_from_slice(bytes);
        Name { bytes: held }
    }

    /// The bytes of the name.
    pub fn as_slice(&self) -> &[u8]
        ensures value { result.now ≡ self.now }
        ensures fits { length result.now ≤ name_size }
    {
        self.bytes.as_slice()
    }
}
