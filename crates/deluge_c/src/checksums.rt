//! The CRC of frames and pages.
ghost use Rattle.std.specs.Prelude.{◌≡◌};
ghost use Rattle.dg_base.specs.Crc.{crc_more};

use dg_base::crc16_more;

/// The CRC of bytes whose CRC is `before`, and of these after them. The CRC of no bytes is 0.
#[unsafe(no_mangle)]
pub extern "C" fn deluge_crc16(before: u16, bytes: &[u8]) -> u16
    ensures { result ≡ crc_more before bytes.now }
{
    crc16_more(before, bytes)
}
