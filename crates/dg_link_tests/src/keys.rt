//! A public key as `botan` wrote it, and texts that differ from it.
use base64::DecodeError;
use dg_sign::{KeyTextFault, read_key};
use dg_xmss::{KeyFault, PublicKey};
use std::alloc::{AllocError, Global};
use std::test::Fail;

/// What `botan pkcs8 --pub-out` wrote.
const PEM: &[u8] = b"-----BEGIN PUBLIC KEY-----\n\
MFYwCwYJBAB/AA8BAQ0AA0cABEQAAAABVgxDVgnkd2GW9eWwNtxdi/e43/AzgerT\n\
fhTKmZ7U2jPxSTclppHPp/04xBycNv9uG4iv0ZXt4kOghDxEzZH7IA==\n\
-----END PUBLIC KEY-----\n";

/// The bytes of that key, as hex digits.
const DIGITS: &[u8] = b"00000001560c435609e4776196f5e5b036dc5d8bf7b8dff03381ead37e14ca999ed4da33\
f1493725a691cfa7fd38c41c9c36ff6e1b88afd195ede243a0843c44cd91fb20\n";

/// Bytes of the PEM of which one is changed, and what is found then.
const CHANGED: [(usize, u8, KeyTextFault); 14] = [
    (0, b' ', KeyTextFault::Pem { at: 0 }),
    (11, b'p', KeyTextFault::Pem { at: 11 }),
    (26, b'\r', KeyTextFault::Pem { at: 26 }),
    (91, b'\r', KeyTextFault::Pem { at: 91 }),
    (148, b' ', KeyTextFault::Pem { at: 148 }),
    (172, b'.', KeyTextFault::Pem { at: 172 }),
    (173, b'\r', KeyTextFault::Pem { at: 173 }),
    (
        27,
        b'*',
        KeyTextFault::Base64(DecodeError::InvalidByte(0, b'*')),
    ),
    (
        92,
        b'\n',
        KeyTextFault::Base64(DecodeError::InvalidByte(64, b'\n')),
    ),
    (
        145,
        b'B',
        KeyTextFault::Base64(DecodeError::InvalidLastSymbol {
            offset: 117,
            symbol: b'B',
            symbol_value: 1,
        }),
    ),
    (27, b'N', KeyTextFault::Der { at: 0 }),
    (51, b'A', KeyTextFault::Der { at: 18 }),
    (
        58,
        b'C',
        KeyTextFault::Key(KeyFault::ParameterSet { number: 2 }),
    ),
    (
        146,
        b'A',
        KeyTextFault::Key(KeyFault::Length { length: 69 }),
    ),
];

fn read(alloc: Global, text: &[u8]) -> Result<PublicKey, KeyTextFault> {
    read_key(alloc, text)
}

/// The bytes of a key, with the parameter set of this number.
fn bytes_of(alloc: Global, key: &PublicKey, set: u8) -> Result<Vec<u8>, AllocError> {
    let mut bytes = Vec::new(alloc);
    bytes.extend_from_slice(&[0, 0, 0, set])?;
    bytes.extend_from_slice(key.root.as_slice())?;
    bytes.extend_from_slice(key.seed.as_slice())?;
    Ok(bytes)
}

#[test]
fn a_key_has_three_forms(rt: HostRuntime) -> Result<(), Fail> {
    let alloc = rt.alloc();
    let key = read(alloc, PEM).ok().ok_or("the key")?;
    assert_eq!(rt; key.root[..4], [0x56, 0x0c, 0x43, 0x56][..]);
    let raw = bytes_of(alloc, &key, 1)?;
    assert_eq!(rt; read(alloc, &raw), Ok(key));
    for text in [&PEM[..173], &DIGITS[..], &DIGITS[..136]] {
        assert_eq!(rt; read(alloc, text), Ok(key));
    }
    let other = bytes_of(alloc, &key, 2)?;
    let fault = KeyFault::ParameterSet { number: 2 };
    assert_eq!(rt; read(alloc, &other), Err(KeyTextFault::Key(fault)));
    Ok(())
}

/// A text in which one byte is changed.
fn changed(alloc: Global, text: &[u8], at: usize, byte: u8) -> Result<Vec<u8>, AllocError> {
    let mut changed = Vec::from_slice(alloc, text)?;
    if let Some(place) = changed.get_mut(at) {
        *place = byte;
    }
    Ok(changed)
}

#[test]
fn what_differs_is_no_key(rt: HostRuntime) -> Result<(), Fail> {
    let alloc = rt.alloc();
    for (at, byte, fault) in CHANGED {
        let text = changed(alloc, PEM, at, byte)?;
        assert_eq!(rt; read(alloc, &text), Err(fault), "{at}");
    }
    let text = changed(alloc, &DIGITS[..136], 77, b'g')?;
    assert_eq!(rt; read(alloc, &text), Err(KeyTextFault::Digit { at: 77 }));
    Ok(())
}

#[test]
fn what_is_shorter_or_longer_is_no_key(rt: HostRuntime) -> Result<(), Fail> {
    let alloc = rt.alloc();
    let mut longer = Vec::from_slice(alloc, DIGITS)?;
    longer.push(b'\n')?;
    for (text, at) in [
        (b"".as_slice(), 0),
        (&PEM[..50], 50),
        (&PEM[1..], 4),
        (&DIGITS[1..], 0),
        (longer.as_slice(), 0),
    ] {
        assert_eq!(rt; read(alloc, text), Err(KeyTextFault::Pem { at }));
    }
    Ok(())
}
