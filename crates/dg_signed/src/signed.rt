//! Images that are signed.
ghost use Rattle.dg_xmss.specs.Signatures.{IsSignature};
ghost use Rattle.dg_sign.specs.Lines.{signed_line};

use crate::release::Release;
use dg_base::Bytes;
use dg_xmss::PublicKey;

/// An image that is signed: the signature is one of its line under the key.
#[derive(Debug, Drop)]
pub struct SignedImage {
    pub release: Release,
    pub key: PublicKey,
    pub signature: Bytes,
    ghost signed: { IsSignature key (signed_line release.image release.version release.root) signature },
}
