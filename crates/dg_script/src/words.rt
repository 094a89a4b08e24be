//! The words of a line.
ghost use Rattle.std.specs.Prelude.{◌≡◌, ◌≢◌, ℕ, ◌<◌, ◌≤◌, ◌∷◌, [], length, drop, slice_index, IfNone, IfSome, option_map};
ghost use Rattle.dg_script.specs.Results.{each_as};
ghost use Rattle.dg_script.specs.Words.{words_of, halves_of, one_of, two_of, three_of, four_of, five_of, six_of};

use crate::fault::LineFault;
use memchr::memchr;

/// The most bytes of a short text: most lines are shorter.
const SHORT: usize = 64;

// How many spaces the text begins with.
#[tactic(auto, using(crate::proofs::WordLemmas::words_after_space))]
fn spaces(text: &[u8]) -> usize
    ensures bound { result ≤ length text.now }
    ensures words { words_of (drop result text.now) ≡ words_of text.now }
    ensures stops { result < length text.now → slice_index text.now result ≢ 32 }
{
    for (count, byte) in text.iter().enumerate() {
        if *byte != b' ' {
            return count;
        }
    }
    text.len()
}

// How many bytes come before the first that is `stop`. The bytes of a long text are searched many at a time.
fn length_before(text: &[u8], stop: u8) -> usize
    ensures bound { result ≤ length text.now }
    ensures word { (k : ℕ) → k < result → slice_index text.now k ≢ stop }
    ensures stops { result < length text.now → slice_index text.now result ≡ stop }
{
    if text.len() > SHORT {
        return far_before(text, stop);
    }
    for (count, byte) in text.iter().enumerate() {
        if *byte == stop {
            return count;
        }
    }
    text.len()
}

// The same, many bytes at a time.
#[inline(never)]
fn far_before(text: &[u8], stop: u8) -> usize
    ensures bound { result ≤ length text.now }
    ensures word { (k : ℕ) → k < result → slice_index text.now k ≢ stop }
    ensures stops { result < length text.now → slice_index text.now result ≡ stop }
{
    match memchr(stop, text) {
        Some(at) => at,
        None => text.len(),
    }
}

/// The bytes up to the first colon, and those after it. None if there is no colon.
pub fn halves(text: &[u8]) -> Option<(&[u8], &[u8])>
    ensures { option_map (λ h. (h.0.now, h.1.now)) result ≡ halves_of text.now }
{
    let length = length_before(text, b':');
    if length == text.len() {
        return None;
    }
    Some((&text[..length], &text[length + 1..]))
}

/// The first word of a text, and the text after it. None if there is no word.
#[tactic(auto, using(crate::proofs::WordLemmas::first_word))]
pub fn next_word(text: &[u8]) -> Option<(&[u8], &[u8])>
    ensures none { IfNone result (words_of text.now ≡ []) }
    ensures some { IfSome result (λ p. words_of text.now ≡ p.0.now ∷ words_of p.1.now) }
{
    let (_, text) = text.split_at(spaces(text));
    if text.is_empty() {
        return None;
    }
    Some(text.split_at(length_before(text, b' ')))
}

/// The only word of a text. Fewer words or more are a fault.
pub fn one_word(text: &[u8]) -> Result<&[u8], LineFault>
    ensures { each_as (λ a. a.now) result ≡ one_of (words_of text.now) }
{
    let Some((first, rest)) = next_word(text) else {
        return Err(LineFault::Few);
    };
    if next_word(rest).is_some() {
        return Err(LineFault::Many);
    }
    Ok(first)
}

/// The words of a text that has two. Fewer words or more are a fault.
pub fn two_words(text: &[u8]) -> Result<(&[u8], &[u8]), LineFault>
    ensures { each_as (λ t. (t.0.now, t.1.now)) result ≡ two_of (words_of text.now) }
{
    let Some((first, rest)) = next_word(text) else {
        return Err(LineFault::Few);
    };
    let second = one_word(rest)?;
    Ok((first, second))
}

/// The words of a text that has three. Fewer words or more are a fault.
pub fn three_words(text: &[u8]) -> Result<(&[u8], &[u8], &[u8]), LineFault>
    ensures { each_as (λ t. (t.0.now, t.1.now, t.2.now)) result ≡ three_of (words_of text.now) }
{
    let Some((first, rest)) = next_word(text) else {
        return Err(LineFault::Few);
    };
    let (second, third) = two_words(rest)?;
    Ok((first, second, third))
}

/// The words of a text that has four. Fewer words or more are a fault.
pub fn four_words(text: &[u8]) -> Result<(&[u8], &[u8], &[u8], &[u8]), LineFault>
    ensures { each_as (λ t. (t.0.now, t.1.now, t.2.now, t.3.now)) result ≡ four_of (words_of text.now) }
{
    let Some((first, rest)) = next_word(text) else {
        return Err(LineFault::Few);
    };
    let (second, third, fourth) = three_words(rest)?;
    Ok((first, second, third, fourth))
}

/// The words of a text that has five. Fewer words or more are a fault.
pub fn five_words(text: &[u8]) -> Result<(&[u8], &[u8], &[u8], &[u8], &[u8]), LineFault>
    ensures { each_as (λ t. (t.0.now, t.1.now, t.2.now, t.3.now, t.4.now)) result ≡ five_of (words_of text.now) }
{
    let Some((first, rest)) = next_word(text) else {
        return Err(LineFault::Few);
    };
    let (second, third, fourth, fifth) = four_words(rest)?;
    Ok((first, second, third, fourth, fifth))
}

/// The words of a text that has six. Fewer words or more are a fault.
pub fn six_words(text: &[u8]) -> Result<(&[u8], &[u8], &[u8], &[u8], &[u8], &[u8]), LineFault>
    ensures { each_as (λ t. (t.0.now, t.1.now, t.2.now, t.3.now, t.4.now, t.5.now)) result ≡ six_of (words_of text.now) }
{
    let Some((first, rest)) = next_word(text) else {
        return Err(LineFault::Few);
    };
    let (second, third, fourth, fifth, sixth) = five_words(rest)?;
    Ok((first, second, third, fourth, fifth, sixth))
}
