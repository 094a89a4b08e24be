//! Signatures as files have them.
ghost use Rattle.std.specs.Prelude.{◌≡◌, ◌≢◌, length};
ghost use Rattle.dg_xmss.specs.Signatures.{signature_size};
ghost use Rattle.dg_sign.specs.SignatureTexts.{ReadsSignatureText, without_newline};

use base64::engine::general_purpose::STANDARD;
use base64::{DecodeAllocError, DecodeError};
use dg_base::Bytes;
use dg_xmss::SIGNATURE_SIZE;
use std::alloc::{AllocError, Global};

/// Why the bytes of a file are not a signature.
#[derive(Clone, Copy, Debug, PartialEq, Eq)]
pub enum SignatureTextFault {
    Memory,
    /// They are not 2,500, and not base64: its places count from the first of them, from 0.
    Base64(DecodeError),
    /// They are the base64 of this many bytes, and not of 2,500.
    Length { length: usize },
}

impl From<AllocError> for SignatureTextFault {
    ghost use Rattle.std.specs.Prelude.{◌≡◌};
    ghost use Rattle.dg_sign.specs.declared.signatures.SignatureTextFault.{SignatureTextFault};

    ghost from_gives = { λ e f. f ≡ SignatureTextFault.Memory };

    fn from(_: AllocError) -> SignatureTextFault {
        SignatureTextFault::Memory
    }
}

// A text without the LF at its end.
pub(crate) fn without_newline(text: &[u8]) -> &[u8]
    ensures { result.now ≡ without_newline text.now }
{
    let size = text.len();
    if size == 0 {
        return text;
    }
    if text[size - 1] == b'\n' {
        return &text[..size - 1];
    }
    text
}

// The signature of a base64 text.
fn read_base64(alloc: Global, text: &[u8]) -> Result<Bytes, SignatureTextFault>
    requires { length text.now ≢ signature_size }
    ensures { ReadsSignatureText text.now result }
{
    match STANDARD.decode(alloc, without_newline(text)) {
        Ok(bytes) if bytes.len() == SIGNATURE_SIZE => Ok(Bytes::new(bytes)),
        Ok(bytes) => Err(SignatureTextFault::Length {
            length: bytes.len(),
        }),
        Err(DecodeAllocError::DecodeError(cause)) => Err(SignatureTextFault::Base64(cause)),
        Err(DecodeAllocError::OutOfMemory) => Err(SignatureTextFault::Memory),
    }
}

/// Reads a signature as a file has it: its 2,500 bytes, or the one line of base64 that `botan sign` writes of them, with its LF
/// or without. Every other text has its first cause and place.
pub fn read_signature(alloc: Global, text: &[u8]) -> Result<Bytes, SignatureTextFault>
    ensures { ReadsSignatureText text.now result }
{
    if text.len() != SIGNATURE_SIZE {
        return read_base64(alloc, text);
    }
    let mut bytes = Vec::new(alloc);
    bytes.extend_from_slice(text)?;
    Ok(Bytes::new(bytes))
}
