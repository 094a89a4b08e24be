//! The last line of a replay that did not end well.
ghost use Rattle.std.specs.Prelude.{◌≡◌, ◌++◌, ◌∷◌, [], true, IfSome};
ghost use Rattle.std.specs.Prelude.{nat_eq};
ghost use Rattle.std.specs.List.{list_all, starts_with};
ghost use Rattle.dg_story.specs.Reading.{is_plain, begins_as_last, is_last, IsEndLine};

use crate::lines::take_stamp;

// Whether a byte is a lower case letter, a digit or a space.
fn is_plain(byte: u8) -> bool
    ensures { result ≡ is_plain byte }
{
    matches!(byte, b' ' | b'0'..=b'9' | b'a'..=b'z')
}

// Whether words begin so.
fn begins(words: &[u8], first: &[u8]) -> bool
    ensures { result ≡ starts_with nat_eq words.now first.now }
{
    words.starts_with(first)
}

// Whether words begin as those of a last line.
fn begins_as_last(words: &[u8]) -> bool
    ensures { result ≡ begins_as_last words.now }
{
    if begins(words, b"line ") {
        return true;
    }
    if begins(words, b"noboard ") {
        return true;
    }
    if begins(words, b"notavolume") {
        return true;
    }
    if begins(words, b"noimage") {
        return true;
    }
    if begins(words, b"toolong") {
        return true;
    }
    begins(words, b"toomany")
}

// Whether all bytes are lower case letters, digits and spaces.
fn are_plain(words: &[u8]) -> bool
    ensures { result ≡ list_all is_plain words.now }
{
    words.iter().all(|byte| is_plain(*byte))
}

// Whether words are those of a last line.
fn is_last(words: &[u8]) -> bool
    ensures { result ≡ is_last words.now }
{
    if !begins_as_last(words) {
        return false;
    }
    are_plain(words)
}

// The words of a line without a stamp, where it is a last line.
fn plain_words(line: &[u8]) -> Option<&[u8]>
    ensures { IfSome result (λ words. (line.now ≡ words.now ++ 10 ∷ []) × (is_last words.now ≡ true)) }
{
    if line.is_empty() {
        return None;
    }
    let (words, last) = line.split_at(line.len() - 1);
    if last[0] != b'\n' || !is_last(words) {
        return None;
    }
    Some(words)
}

// The words of a line with a stamp, where it is a last line.
fn stamped_words(line: &[u8]) -> Option<&[u8]>
    ensures { IfSome result (λ words. IsEndLine true line.now words.now) }
{
    let (_, rest) = take_stamp(line)?;
    let words = plain_words(rest)?;
    Some(words)
}

/// The words of a line, where it is a last line.
pub fn last_words(timed: bool, line: &[u8]) -> Option<&[u8]>
    ensures { IfSome result (λ words. IsEndLine timed line.now words.now) }
{
    if timed {
        return stamped_words(line);
    }
    plain_words(line)
}
