//! Whether an image is signed.
ghost use Rattle.std.specs.Prelude.{OnOk};
ghost use Rattle.dg_xmss.specs.Signatures.{IsSignature};
ghost use Rattle.dg_sign.specs.Lines.{signed_line};
ghost use Rattle.dg_sign.specs.Found.{Finds};

use crate::lines::signed_line;
use dg_xmss::{NODE_SIZE, PublicKey, SignatureFault, verify};
use std::alloc::{AllocError, Global};

/// Why an image is not found to be signed.
#[derive(Clone, Copy, Debug, PartialEq, Eq)]
pub enum VerifyFault {
    Memory,
    /// The signature is not one of the image's line under the key.
    Signature(SignatureFault),
}

impl From<AllocError> for VerifyFault {
    ghost use Rattle.std.specs.Prelude.{◌≡◌};
    ghost use Rattle.dg_sign.specs.declared.verifying.VerifyFault.{VerifyFault};

    ghost from_gives = { λ e f. f ≡ VerifyFault.Memory };

    fn from(_: AllocError) -> VerifyFault {
        VerifyFault::Memory
    }
}

/// Whether a signature is one of the line of an image, a version and a root under a key. A signature of another image, of another
/// version or of another root is not one.
pub fn verify_image(
    alloc: Global,
    key: &PublicKey,
    image: u8,
    version: u32,
    root: &[u8; NODE_SIZE],
    signature: &[u8],
) -> Result<(), VerifyFault>
    ensures signed { OnOk result (IsSignature key.now (signed_line image version root.now) signature.now) }
    ensures found { Finds key.now (signed_line image version root.now) signature.now result }
{
    let line = signed_line(alloc, image, version, root)?;
    match verify(key, line.as_slice(), signature) {
        Ok(()) => Ok(()),
        Err(fault) => Err(VerifyFault::Signature(fault)),
    }
}
