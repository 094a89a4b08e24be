//! Public keys as files have them.
ghost use Rattle.std.specs.Prelude.{◌≡◌, ◌≤◌, Any, IfOk, false, length};
ghost use Rattle.dg_base.specs.Hexadecimal.{is_hex_digit};
ghost use Rattle.dg_sign.specs.KeyTexts.{IsFirstOther, ReadsDer, ReadsDigits, ReadsKeyBytes, ReadsKeyText, ReadsPem};
ghost use Rattle.dg_sign.specs.KeyTexts.{agreeing, agrees, key_digits, pem_characters, pem_size};

use crate::signatures::without_newline;
use base64::engine::general_purpose::STANDARD;
use base64::{DecodeAllocError, DecodeError};
use dg_base::{HexFault, parse_hex};
use dg_xmss::{KEY_SIZE, KeyFault, PublicKey};
use std::alloc::{AllocError, Global};

/// Why the bytes of a file are not a public key.
#[derive(Clone, Copy, Debug, PartialEq, Eq)]
pub enum KeyTextFault {
    Memory,
    /// They are 136 characters, of which the one at this place, from 0, is the first that is not a hex digit.
    Digit { at: usize },
    /// They are neither 68 bytes nor 136 characters. From this place on, from 0, they are not as `botan` writes a key in PEM.
    Pem { at: usize },
    /// They are the lines of a PEM, but what is between them is not base64. Its places count its 120 characters alone, from 0.
    Base64(DecodeError),
    /// They are PEM of bytes that are not a key of XMSS: this one, from 0, is the first that differs.
    Der { at: usize },
    /// The bytes of the key itself are not a key.
    Key(KeyFault),
}

impl From<AllocError> for KeyTextFault {
    ghost use Rattle.std.specs.Prelude.{◌≡◌};
    ghost use Rattle.dg_sign.specs.declared.keys.KeyTextFault.{KeyTextFault};

    ghost from_gives = { λ e f. f ≡ KeyTextFault.Memory };

    fn from(_: AllocError) -> KeyTextFault {
        KeyTextFault::Memory
    }
}

/// The hex digits of a key.
const KEY_DIGITS: usize = 136;

/// The bytes of the PEM of a key, without the LF at its end.
const PEM_SIZE: usize = 173;

/// Where the two lines of base64 begin in it, and the LF after each.
const FIRST_LINE: usize = 27;

const FIRST_END: usize = 91;

const SECOND_LINE: usize = 92;

const SECOND_END: usize = 148;

/// The byte of a pattern that stands for any.
const ANY: u8 = b'?';

/// The PEM of a key, with `?` for each character of base64.
const PEM: [u8; PEM_SIZE] = *b"-----BEGIN PUBLIC KEY-----\n\
????????????????????????????????????????????????????????????????\n\
????????????????????????????????????????????????????????\n\
-----END PUBLIC KEY-----";

/// The bytes of a SubjectPublicKeyInfo before a key.
const INFO_SIZE: usize = 20;

/// What stands there: the lengths of its parts, and the OBJECT IDENTIFIER 0.4.0.127.0.15.1.1.13.0.
const INFO: [u8; INFO_SIZE] = [
    0x30, 0x56, 0x30, 0x0b, 0x06, 0x09, 0x04, 0x00, 0x7f, 0x00, 0x0f, 0x01, 0x01, 0x0d, 0x00, 0x03,
    0x47, 0x00, 0x04, 0x44,
];

// Whether a byte of a pattern agrees with one of a text.
fn agrees(place: u8, byte: u8) -> bool
    ensures { result ≡ agrees place byte }
{
    place == ANY || place == byte
}

// How many bytes of a text agree with a pattern, from the first one on.
fn agreeing(pattern: &[u8], text: &[u8]) -> usize
    ensures count { result ≡ agreeing pattern.now text.now }
    ensures within { result ≤ length text.now }
{
    let most = pattern.len().min(text.len());
    for at in 0..most {
        if !agrees(pattern[at], text[at]) {
            return at;
        }
    }
    most
}

fn is_hex_digit(character: u8) -> bool
    ensures { result ≡ is_hex_digit character }
{
    character.is_ascii_hexdigit()
}

// The first character that is not a hex digit.
fn first_other(text: &[u8]) -> usize
    requires { Any (λ c. is_hex_digit c ≡ false) text.now }
    ensures { IsFirstOther text.now result }
{
    for at in 0..text.len() {
        if !is_hex_digit(text[at]) {
            return at;
        }
    }
    text.len()
}

// The key of 68 bytes.
fn key_of(bytes: &[u8]) -> Result<PublicKey, KeyTextFault>
    ensures { ReadsKeyBytes bytes.now result }
{
    match PublicKey::from_bytes(bytes) {
        Ok(key) => Ok(key),
        Err(fault) => Err(KeyTextFault::Key(fault)),
    }
}

// The key of 136 characters.
fn read_digits(alloc: Global, digits: &[u8]) -> Result<PublicKey, KeyTextFault>
    requires { length digits.now ≡ key_digits }
    ensures { ReadsDigits digits.now result }
{
    match parse_hex(alloc, digits) {
        Ok(bytes) => key_of(&bytes),
        Err(HexFault::Memory) => Err(KeyTextFault::Memory),
        Err(HexFault::Odd | HexFault::Digit) => Err(KeyTextFault::Digit {
            at: first_other(digits),
        }),
    }
}

// The characters of base64 in a PEM.
fn characters(alloc: Global, line: &[u8]) -> Result<Vec<u8>, AllocError>
    requires { length line.now ≡ pem_size }
    ensures { IfOk result (λ v. v.items ≡ pem_characters line.now) }
{
    let mut characters = Vec::new(alloc);
    characters.extend_from_slice(&line[FIRST_LINE..FIRST_END])?;
    characters.extend_from_slice(&line[SECOND_LINE..SECOND_END])?;
    Ok(characters)
}

// The key of the DER of a PEM.
fn read_der(der: &[u8]) -> Result<PublicKey, KeyTextFault>
    ensures { ReadsDer der.now result }
{
    let at = agreeing(INFO.as_slice(), der);
    if at != INFO_SIZE {
        return Err(KeyTextFault::Der { at });
    }
    key_of(&der[INFO_SIZE..])
}

// The key of a PEM, without the LF at its end.
fn read_pem(alloc: Global, line: &[u8]) -> Result<PublicKey, KeyTextFault>
    ensures { ReadsPem line.now result }
{
    let at = agreeing(PEM.as_slice(), line);
    if at != PEM_SIZE || line.len() != PEM_SIZE {
        return Err(KeyTextFault::Pem { at });
    }
    let characters = characters(alloc, line)?;
    match STANDARD.decode(alloc, &characters) {
        Ok(der) => read_der(&der),
        Err(DecodeAllocError::DecodeError(cause)) => Err(KeyTextFault::Base64(cause)),
        Err(DecodeAllocError::OutOfMemory) => Err(KeyTextFault::Memory),
    }
}

/// Reads a public key as a file has it: its 68 bytes (RFC 8391, 4.1.7), their 136 hex digits of either case, or the PEM that
/// `botan pkcs8 --pub-out` writes of them. The last two forms may end with LF. Every other text has its first cause and place.
pub fn read_key(alloc: Global, text: &[u8]) -> Result<PublicKey, KeyTextFault>
    ensures { ReadsKeyText text.now result }
{
    if text.len() == KEY_SIZE {
        return key_of(text);
    }
    let line = without_newline(text);
    if line.len() == KEY_DIGITS {
        return read_digits(alloc, line);
    }
    read_pem(alloc, line)
}
