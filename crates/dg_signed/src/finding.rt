//! Whether an image is signed, by the bytes of a key and of a signature as files have them.
ghost use Rattle.dg_signed.specs.Finding.{FindsSigned};

use crate::release::Release;
use crate::signed::SignedImage;
use dg_sign::{
    KeyTextFault, SignatureTextFault, VerifyFault, read_key, read_signature, verify_image,
};
use dg_xmss::SignatureFault;
use std::alloc::Global;

/// Why an image is not found to be signed. Each cause is that of the first of three steps: the key is read, the signature is
/// read, and the signature is verified.
#[derive(Clone, Copy, Debug, PartialEq, Eq)]
pub enum Unsigned {
    Memory,
    /// The text of the key is not a key.
    Key(KeyTextFault),
    /// The text of the signature is not a signature.
    Text(SignatureTextFault),
    /// The signature is not one of the image's line under the key.
    Signature(SignatureFault),
}

impl From<KeyTextFault> for Unsigned {
    ghost use Rattle.std.specs.Prelude.{◌≡◌};
    ghost use Rattle.dg_signed.specs.Causes.{unsigned_by_key};

    ghost from_gives = { λ fault u. u ≡ unsigned_by_key fault };

    fn from(fault: KeyTextFault) -> Unsigned {
        match fault {
            KeyTextFault::Memory => Unsigned::Memory,
            _ => Unsigned::Key(fault),
        }
    }
}

impl From<SignatureTextFault> for Unsigned {
    ghost use Rattle.std.specs.Prelude.{◌≡◌};
    ghost use Rattle.dg_signed.specs.Causes.{unsigned_by_text};

    ghost from_gives = { λ fault u. u ≡ unsigned_by_text fault };

    fn from(fault: SignatureTextFault) -> Unsigned {
        match fault {
            SignatureTextFault::Memory => Unsigned::Memory,
            _ => Unsigned::Text(fault),
        }
    }
}

impl From<VerifyFault> for Unsigned {
    ghost use Rattle.std.specs.Prelude.{◌≡◌};
    ghost use Rattle.dg_signed.specs.Causes.{unsigned_by_signature};

    ghost from_gives = { λ fault u. u ≡ unsigned_by_signature fault };

    fn from(fault: VerifyFault) -> Unsigned {
        match fault {
            VerifyFault::Memory => Unsigned::Memory,
            VerifyFault::Signature(cause) => Unsigned::Signature(cause),
        }
    }
}

/// Reads a key and a signature as files have them, and verifies that the signature is one of the line of an image, a version
/// and a root under the key.
pub fn signed_image(
    alloc: Global,
    key_text: &[u8],
    signature_text: &[u8],
    release: Release,
) -> Result<SignedImage, Unsigned>
    ensures { FindsSigned key_text.now signature_text.now release result }
{
    let key = read_key(alloc, key_text)?;
    let signature = read_signature(alloc, signature_text)?;
    verify_image(
        alloc,
        &key,
        release.image,
        release.version,
        &release.root,
        signature.as_slice(),
    )?;
    Ok(SignedImage {
        release,
        key,
        signature,
    })
}
