//! Why an image is not found to be signed, as a sentence about the file that is at fault.
use crate::finding::Unsigned;
use dg_sign::{KeyTextFault, SignatureTextFault};
use dg_xmss::{KeyFault, LAST_INDEX, SIGNATURE_SIZE, SignatureFault};
use std::fmt;

/// Places are counted from 0.
impl fmt::Display for Unsigned {
    fn fmt<W: fmt::Write>(&self, f: &mut fmt::Formatter<W>) -> fmt::Result {
        match *self {
            Unsigned::Memory => f.write_str("out of memory"),
            Unsigned::Key(fault) => tell_key(fault, f),
            Unsigned::Text(fault) => tell_text(fault, f),
            Unsigned::Signature(fault) => tell_signature(fault, f),
        }
    }
}

fn tell_key<W: fmt::Write>(fault: KeyTextFault, f: &mut fmt::Formatter<W>) -> fmt::Result {
    match fault {
        KeyTextFault::Memory => f.write_str("out of memory"),
        KeyTextFault::Digit { at } => {
            write!(
                f,
                "no key: of its 136 characters, that at {at} is no hex digit"
            )
        }
        KeyTextFault::Pem { at } => write!(
            f,
            "no key: it is neither 68 bytes nor 136 hex digits, and at byte {at} it is not the PEM of a key"
        ),
        KeyTextFault::Base64(cause) => {
            write!(
                f,
                "no key: the 120 characters of its PEM are no base64: {cause}"
            )
        }
        KeyTextFault::Der { at } => write!(
            f,
            "no key of XMSS-SHA2_10_256: the DER of its PEM differs at byte {at}"
        ),
        KeyTextFault::Key(KeyFault::Length { length }) => {
            write!(
                f,
                "no key of XMSS-SHA2_10_256: it has {length} bytes, and not 68"
            )
        }
        KeyTextFault::Key(KeyFault::ParameterSet { number }) => write!(
            f,
            "no key of XMSS-SHA2_10_256: its parameter set has the number {number}, and not 1"
        ),
    }
}

fn tell_text<W: fmt::Write>(fault: SignatureTextFault, f: &mut fmt::Formatter<W>) -> fmt::Result {
    match fault {
        SignatureTextFault::Memory => f.write_str("out of memory"),
        SignatureTextFault::Base64(cause) => write!(
            f,
            "no signature: it is neither {SIGNATURE_SIZE} bytes nor one line of base64: {cause}"
        ),
        SignatureTextFault::Length { length } => write!(
            f,
            "no signature: it is the base64 of {length} bytes, and not of {SIGNATURE_SIZE}"
        ),
    }
}

fn tell_signature<W: fmt::Write>(fault: SignatureFault, f: &mut fmt::Formatter<W>) -> fmt::Result {
    match fault {
        SignatureFault::Length { length } => write!(
            f,
            "no signature: it has {length} bytes, and not {SIGNATURE_SIZE}"
        ),
        SignatureFault::Index { index } => write!(
            f,
            "no signature: it names leaf {index}, and the last one is {LAST_INDEX}"
        ),
        SignatureFault::Root => {
            f.write_str("no signature of this image, version and root under the key")
        }
    }
}
