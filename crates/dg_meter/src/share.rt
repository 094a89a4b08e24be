//! How many of something there were, and their bytes.
ghost use Rattle.std.specs.Prelude.{◌≡◌, ◌^◌, ◌<◌};
ghost use Rattle.dg_meter.specs.Shares.{no_share, one_more, both, those_since};

/// How many of something there were, and their bytes. Both saturate at the greatest `u64`.
#[derive(Clone, Copy, Debug, PartialEq, Eq)]
pub struct Share {
    pub count: u64,
    pub bytes: u64,
}

impl Share {
    /// Nothing was counted.
    pub fn none() -> Share
        ensures { result ≡ no_share }
    {
        Share { count: 0, bytes: 0 }
    }

    /// One more, of this many bytes.
    pub fn and(self, bytes: usize) -> Share
        ensures is { result ≡ one_more self bytes }
        ensures fits { self.count < 2 ^ 64 }
    {
        Share {
            count: self.count.saturating_add(1),
            bytes: self.bytes.saturating_add(bytes as u64),
        }
    }

    /// Those of both.
    pub fn with(self, other: Share) -> Share
        ensures { result ≡ both self other }
    {
        Share {
            count: self.count.saturating_add(other.count),
            bytes: self.bytes.saturating_add(other.bytes),
        }
    }

    /// Those that were not there before.
    pub fn since(self, before: Share) -> Share
        ensures { result ≡ those_since before self }
    {
        Share {
            count: self.count.saturating_sub(before.count),
            bytes: self.bytes.saturating_sub(before.bytes),
        }
    }
}
