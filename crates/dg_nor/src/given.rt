//! The bytes that a file was given. They exist only in proofs, and take no memory.
ghost use Rattle.std.specs.Prelude.{◌≡◌, ◌≤◌, ℕ, List, [], length};
ghost use Rattle.std.specs.Borrow.{ftrue};
ghost use Rattle.dg_words.specs.Cells.{overwritten};

use std::marker::Model;

/// The bytes that a file has, if it keeps what it was given.
#[derive(Drop)]
pub(crate) struct Given {
    pub ghost bytes: { List ℕ },
}

impl Model for Given {
    ghost also_owns = { λ _. ftrue };
}

/// Bytes at their place in a file.
#[derive(Clone, Copy, Drop)]
pub(crate) struct Piece<'a> {
    pub(crate) at: u32,
    pub(crate) bytes: &'a [u8],
}

impl Given {
    /// Nothing yet.
    pub(crate) fn nothing() -> Given
        ensures { result.bytes ≡ [] }
    {
        Given {}
    }

    /// These bytes, with a piece written over them at its place.
    pub(crate) fn with(&self, _piece: &Piece<'_>) -> Given
        requires { _piece.now.at ≤ length self.now.bytes }
        ensures { result.bytes ≡ overwritten self.now.bytes _piece.now.at _piece.now.bytes.now }
    {
        Given {}
    }
}
