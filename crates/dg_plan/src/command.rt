//! A command to a chip.

/// Erases a sector.
pub(crate) const ERASE: u32 = 1;

/// Programs bytes of the data.
pub(crate) const PROGRAM: u32 = 2;

/// Programs bytes of the chip.
pub(crate) const COPY: u32 = 3;

/// One thing to do to a chip. `kind` 1 sets the `count` bytes from `at` on to 0xFF, which are a sector; 2 programs `count` bytes
/// of the data, from `from` on, at `at`; 3 programs `count` bytes of the chip, from `from` on, at `at`.
#[repr(C)]
#[derive(Clone, Copy, Debug, PartialEq, Eq)]
pub struct Command {
    pub kind: u32,
    pub at: u32,
    pub from: u32,
    pub count: u32,
}
