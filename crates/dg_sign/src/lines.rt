//! The line that is signed.
ghost use Rattle.std.specs.Prelude.{◌≡◌, IfOk};
ghost use Rattle.dg_sign.specs.Lines.{signed_line};

use dg_base::{Bytes, push_hex, push_u32};
use dg_xmss::NODE_SIZE;
use std::alloc::{AllocError, Global};

/// The line that binds an image and a version to the root of its pages: `deluge image I version V root HEX` and LF, with the
/// 64 digits of the root in lower case.
pub fn signed_line(
    alloc: Global,
    image: u8,
    version: u32,
    root: &[u8; NODE_SIZE],
) -> Result<Bytes, AllocError>
    ensures { IfOk result (λ line. line ≡ signed_line image version root.now) }
{
    let mut line = Vec::new(alloc);
    line.extend_from_slice(b"deluge image ")?;
    push_u32(&mut line, u32::from(image))?;
    line.extend_from_slice(b" version ")?;
    push_u32(&mut line, version)?;
    line.extend_from_slice(b" root ")?;
    push_hex(&mut line, root.as_slice())?;
    line.push(b'\n')?;
    Ok(Bytes::new(line))
}
