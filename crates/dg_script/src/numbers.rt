//! Numbers that are parsed in place, in one pass over the fields of a line. It gives up (None) at anything unusual, such as
//! two spaces or ten digits. Then the words of the line are read, which also gives the fault.
ghost use Rattle.std.specs.Prelude.{◌≡◌, ◌+◌, ◌<◌, ◌≤◌, ◌∷◌, [], Some, true, IfSome, length, map, take, slice_index};
ghost use Rattle.std.specs.Bool.{OnTrue};
ghost use Rattle.std.specs.Str.{all_ascii_digits};
ghost use Rattle.std.specs.Str.Parse.{digits_value};
ghost use Rattle.dg_base.specs.Numbers.{number_of};
ghost use Rattle.dg_script.specs.Words.{words_of};

/// The most digits after the first one of a number that is read without a check whether it is too large.
const MORE_DIGITS: usize = 8;

// The number that a first digit and those at the beginning of a text encode, and how many the latter are. The number is right
// if they are at most eight.
#[inline(always)]
fn more_digits(first: u32, text: &[u8]) -> (u32, usize)
    requires { first ≤ 9 }
    ensures within { result.1 ≤ length text.now }
    ensures digits { all_ascii_digits (take result.1 text.now) ≡ true }
    ensures value { result.1 ≤ 8 → result.0 ≡ digits_value 10 ((48 + first) ∷ take result.1 text.now) }
{
    let mut number: u32 = first;
    for (count, byte) in text.iter().enumerate() {
        let digit = u32::from(*byte).wrapping_sub(48);
        if digit > 9 {
            return (number, count);
        }
        number = number.wrapping_mul(10).wrapping_add(digit);
    }
    (number, text.len())
}

// Whether a text is empty or begins with a space.
#[inline(always)]
fn ends_a_word(text: &[u8]) -> bool
    ensures { OnTrue result (0 < length text.now → slice_index text.now 0 ≡ 32) }
{
    if text.is_empty() {
        return true;
    }
    text[0] == b' '
}

// The number after one space, and the text after it. A number of one digit, as most are, needs no loop.
#[inline(always)]
fn next_number(text: &[u8]) -> Option<(u32, &[u8])>
    ensures space { IfSome result (λ p. slice_index text.now 0 ≡ 32) }
    ensures number { IfSome result (λ p. map number_of (words_of text.now) ≡ Some p.0 ∷ map number_of (words_of p.1.now)) }
{
    if text.len() < 2 {
        return None;
    }
    if text[0] != b' ' {
        return None;
    }
    let first = u32::from(text[1]).wrapping_sub(48);
    if first > 9 {
        return None;
    }
    let (_, more) = text.split_at(2);
    if ends_a_word(more) {
        return Some((first, more));
    }
    if first == 0 {
        return None;
    }
    let (number, count) = more_digits(first, more);
    if count > MORE_DIGITS {
        return None;
    }
    let (_, rest) = more.split_at(count);
    if !ends_a_word(rest) {
        return None;
    }
    Some((number, rest))
}

/// The numbers of a text that has three, each after one space.
#[inline(always)]
pub fn three_numbers(text: &[u8]) -> Option<(u32, u32, u32)>
    ensures space { IfSome result (λ t. slice_index text.now 0 ≡ 32) }
    ensures numbers { IfSome result (λ t. map number_of (words_of text.now) ≡ Some t.0 ∷ Some t.1 ∷ Some t.2 ∷ []) }
{
    let (first, rest) = next_number(text)?;
    let (second, rest) = next_number(rest)?;
    let (third, rest) = next_number(rest)?;
    if !rest.is_empty() {
        return None;
    }
    Some((first, second, third))
}

/// The numbers of a text that has four, each after one space.
#[inline(always)]
pub fn four_numbers(text: &[u8]) -> Option<(u32, u32, u32, u32)>
    ensures space { IfSome result (λ t. slice_index text.now 0 ≡ 32) }
    ensures numbers { IfSome result (λ t. map number_of (words_of text.now) ≡ Some t.0 ∷ Some t.1 ∷ Some t.2 ∷ Some t.3 ∷ []) }
{
    let (first, rest) = next_number(text)?;
    let (second, third, fourth) = three_numbers(rest)?;
    Some((first, second, third, fourth))
}
