//! Lines and names, and bytes as one value.
ghost use Rattle.std.specs.Prelude.{◌≡◌, ◌≢◌, ℕ, ◌+◌, ◌<◌, ◌≤◌, List, ◌∷◌, length, drop, slice_range, slice_index, All};
ghost use Rattle.std.specs.List.{list_all};
ghost use Rattle.std.specs.Str.Lines.{lines, strip_carriage_return};
ghost use Rattle.dg_base.specs.Texts.{IsEnded, is_name_byte, spells_name};

use memchr::memchr;
use std::marker::Model;

/// Where the text of the line that begins at `from` ends, and where the next line begins.
///
/// A line ends at LF or at the end of `bytes`. One CR before the LF is not part of its text. The
/// two offsets differ exactly if an LF ended the line.
pub fn next_line(bytes: &[u8], from: usize) -> (usize, usize)
    requires { from ≤ length bytes.now }
    ensures start { from ≤ result.0 }
    ensures end { result.0 ≤ result.1 }
    ensures within { result.1 ≤ length bytes.now }
    ensures goes_on { from < length bytes.now → from < result.1 }

    // The text is the first line of what begins at `from`, and the others are those after it.
    ensures line { from < length bytes.now → lines (drop from bytes.now)
        ≡ slice_range bytes.now from result.0 ∷ lines (drop result.1 bytes.now) }
    ensures text { All (λ b. b ≢ 10) (slice_range bytes.now from result.0) }

    // How the line ended.
    ensures ended { result.0 < result.1 → IsEnded (slice_range bytes.now from result.0) (slice_range bytes.now from result.1) }
    ensures last { result.0 ≡ result.1 → result.1 ≡ length bytes.now }
{
    match memchr(b'\n', &bytes[from..]) {
        None => (bytes.len(), bytes.len()),
        Some(at) => (text_end(bytes, from, from + at), from + at + 1),
    }
}

// The end of a text from `from` to `to`, without one CR at its end.
fn text_end(bytes: &[u8], from: usize, to: usize) -> usize
    requires ordered { from ≤ to }
    requires within { to ≤ length bytes.now }
    ensures start { from ≤ result }
    ensures end { result ≤ to }
    ensures text { slice_range bytes.now from result ≡ strip_carriage_return (slice_range bytes.now from to) }
    ensures carriage_return { result < to → (result + 1 ≡ to) × (slice_index bytes.now result ≡ 13) }
{
    if from == to {
        return to;
    }
    if bytes[to - 1] == b'\r' { to - 1 } else { to }
}

/// Whether `bytes` are a name: 1 to 16 letters, digits, `_`, `-` and `.`.
pub fn is_name(bytes: &[u8]) -> bool
    ensures { result ≡ spells_name bytes.now }
{
    (1..=16).contains(&bytes.len()) && has_name_bytes(bytes)
}

fn has_name_bytes(bytes: &[u8]) -> bool
    ensures { result ≡ list_all is_name_byte bytes.now }
{
    bytes.iter().all(|byte| is_name_byte(*byte))
}

fn is_name_byte(byte: u8) -> bool
    ensures { result ≡ is_name_byte byte }
{
    byte.is_ascii_alphanumeric() || byte == b'_' || byte == b'-' || byte == b'.'
}

/// Bytes that contracts view as a list.
#[derive(Debug, Drop)]
pub struct Bytes {
    bytes: Vec<u8>,
}

impl Model for Bytes {
    ghost Value = { List ℕ };

    ghost view = { λ b. b.bytes.items };
}

impl Bytes {
    /// The bytes of a vector, which is kept unchanged.
    pub fn new(bytes: Vec<u8>) -> Bytes
        ensures { result ≡ bytes.items }
    {
        Bytes { bytes }
    }

    /// The bytes.
    pub fn as_slice(&self) -> &[u8]
        ensures { result.now ≡ self.now }
    {
        &self.bytes
    }

    /// The vector again.
    pub fn into_vec(self) -> Vec<u8>
        ensures { result.items ≡ self }
    {
        self.bytes
    }
}
