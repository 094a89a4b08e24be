//! The fields of a line, as numbers.
ghost use Rattle.std.specs.Prelude.{◌≡◌, ◌≤◌, ◌<◌, IfSome};
ghost use Rattle.dg_script.specs.Words.{words_of};
ghost use Rattle.dg_drip_script.specs.Fields.{field_below, from_one_to, one_number, two_numbers, three_numbers};
ghost use Rattle.dg_drip_script.specs.inner.Words.{numbers_of_words};
ghost use Rattle.dg_drip_script.specs.Fields.{four_numbers, five_numbers};

use dg_base::parse_u32;
use dg_script::next_word;

/// The number in a field, if it is one.
pub type Field = Option<u32>;

/// The only field of a text.
pub fn one_field(text: &[u8]) -> Option<Field>
    ensures { result ≡ one_number (numbers_of_words (words_of text.now)) }
{
    let (first, rest) = next_word(text)?;
    if next_word(rest).is_some() {
        return None;
    }
    Some(parse_u32(first))
}

/// The fields of a text that has two.
pub fn two_fields(text: &[u8]) -> Option<(Field, Field)>
    ensures { result ≡ two_numbers (numbers_of_words (words_of text.now)) }
{
    let (first, rest) = next_word(text)?;
    let second = one_field(rest)?;
    Some((parse_u32(first), second))
}

/// The fields of a text that has three.
pub fn three_fields(text: &[u8]) -> Option<(Field, Field, Field)>
    ensures { result ≡ three_numbers (numbers_of_words (words_of text.now)) }
{
    let (first, rest) = next_word(text)?;
    let (second, third) = two_fields(rest)?;
    Some((parse_u32(first), second, third))
}

/// The fields of a text that has four.
pub fn four_fields(text: &[u8]) -> Option<(Field, Field, Field, Field)>
    ensures { result ≡ four_numbers (numbers_of_words (words_of text.now)) }
{
    let (first, rest) = next_word(text)?;
    let (second, third, fourth) = three_fields(rest)?;
    Some((parse_u32(first), second, third, fourth))
}

/// The fields of a text that has five.
pub fn five_fields(text: &[u8]) -> Option<(Field, Field, Field, Field, Field)>
    ensures { result ≡ five_numbers (numbers_of_words (words_of text.now)) }
{
    let (first, rest) = next_word(text)?;
    let (second, third, fourth, fifth) = four_fields(rest)?;
    Some((parse_u32(first), second, third, fourth, fifth))
}

/// A number below a bound.
pub fn below(field: Field, bound: u8) -> Option<u8>
    ensures is { result ≡ field_below bound field }
    ensures bound { IfSome result (λ n. n < bound) }
{
    let number = field?;
    if number < u32::from(bound) {
        return Some(number as u8);
    }
    None
}

/// A number from 1 to a bound.
pub fn from_one_to(field: Field, most: u32) -> Option<u32>
    ensures is { result ≡ from_one_to most field }
    ensures bounds { IfSome result (λ n. (1 ≤ n) × (n ≤ most)) }
{
    let number = field?;
    if number >= 1 && number <= most {
        return Some(number);
    }
    None
}

/// A small number from 1 to a bound.
pub fn small_from_one_to(field: Field, most: u8) -> Option<u8>
    ensures is { result ≡ from_one_to most field }
    ensures bounds { IfSome result (λ n. (1 ≤ n) × (n ≤ most)) }
{
    let number = field?;
    if number >= 1 && number <= u32::from(most) {
        return Some(number as u8);
    }
    None
}
