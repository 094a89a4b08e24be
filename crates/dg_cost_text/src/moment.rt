//! Moments.

/// An event's number, and its moment in milliseconds.
#[derive(Clone, Copy)]
pub struct Moment {
    pub event: u64,
    pub ms: u64,
}

/// This many lines were reported of an event, at this moment.
#[derive(Clone, Copy)]
pub struct Stamp {
    pub at: Moment,
    pub lines: usize,
}

/// What holds from a moment on.
#[derive(Clone, Copy)]
pub enum What {
    /// A mote keeps a version of an image whole, for the `times`-th time.
    Whole { image: u8, version: u32, times: u32 },
    /// Every mote keeps exactly this version whole, for the first time.
    All { image: u8, version: u32 },
    /// Every mote keeps the newest version whole, up to the end.
    Newest { image: u8 },
}
