//! The packets of an image, in place of a radio.
ghost use Rattle.std.specs.Prelude.{◌≡◌, ◌<◌};
ghost use Rattle.dg_slot.specs.Layout.{packets};
ghost use Rattle.dg_volume.specs.Sizes.{images};

use dg_object::{PACKET_SIZE, PAGE_SIZE, PacketBytes, Profile, page_of, pages_of, profile_of};

const BYTES: &[u8] = b"123456789";

const NAME: &[u8] = b"blink";

const IMAGE: u8 = 1;

const VERSION: u32 = 1;

/// What is known of the image before any page.
pub fn announced() -> Profile
    ensures { result.image ≡ 1 }
{
    profile_of(BYTES, IMAGE, VERSION, NAME)
}

/// A packet of a page, where the image has that page.
pub fn next_packet(page: u8, packet: u8) -> Option<PacketBytes>
    requires { packet < packets }
{
    if page >= pages_of(BYTES.len() as u32) {
        return None;
    }
    let mut whole = [0; PAGE_SIZE];
    page_of(BYTES, IMAGE, VERSION, NAME, page, &mut whole);
    let from = PACKET_SIZE * usize::from(packet);
    let mut bytes = [0; PACKET_SIZE];
    bytes.copy_from_slice(&whole[from..from + PACKET_SIZE]);
    Some(bytes)
}
