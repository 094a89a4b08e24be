//! Page 0 of a slot, compared with that of an image.
ghost use Rattle.std.specs.Prelude.{◌≡◌, ◌<◌, false, OnOk, IfOk};
ghost use Rattle.dg_nor.specs.Device.{Took};
ghost use Rattle.dg_nor.specs.Reads.{ReadEnds};
ghost use Rattle.dg_slot.specs.Layout.{page_size, packets, packet_size, page_sector};
ghost use Rattle.dg_slot.specs.Pages.{page_in, packet_in};
ghost use Rattle.dg_volume.specs.Sizes.{images};
ghost use Rattle.dg_volume.specs.Changes.{same_bytes};
ghost use Rattle.dg_volume.specs.Filling.{packet_of};

use crate::layout::{PACKET_SIZE, PACKETS, PAGE_SIZE};
use dg_nor::{Nor, Stopped};
use dg_slot::read_packet;

/// Whether page 0 in the slot of an image is this page. The slot is read packet by packet.
pub(crate) fn is_first_page<N: Nor>(
    nor: &mut N,
    image: u8,
    page: &[u8; PAGE_SIZE],
) -> Result<bool, Stopped>
    requires { image < images }
    ensures same { IfOk result (λ same. same ≡ same_bytes (page_in (N.device nor.old).image (page_sector image 0)) page.now) }
    ensures awake { OnOk result ((N.device nor.old).stopped ≡ false) }
    ensures ends { ReadEnds result (N.device nor.old) (N.device nor.new) }
    ensures took { Took page_size (N.device nor.old) (N.device nor.new) }
{
    for packet in 0..PACKETS {
        if !is_packet(nor, image, packet, page)? {
            return Ok(false);
        }
    }
    Ok(true)
}

/// Whether a packet of page 0 in the slot of an image is that of this page.
fn is_packet<N: Nor>(
    nor: &mut N,
    image: u8,
    packet: u8,
    page: &[u8; PAGE_SIZE],
) -> Result<bool, Stopped>
    requires known_image { image < images }
    requires known_packet { packet < packets }
    ensures same { IfOk result (λ same. same ≡ same_bytes (packet_in (N.device nor.old).image (page_sector image 0) packet)
        (packet_of page.now packet)) }
    ensures awake { OnOk result ((N.device nor.old).stopped ≡ false) }
    ensures ends { ReadEnds result (N.device nor.old) (N.device nor.new) }
    ensures took { Took packet_size (N.device nor.old) (N.device nor.new) }
{
    let mut bytes = [0; PACKET_SIZE];
    read_packet(nor, image, 0, packet, &mut bytes)?;
    let from = PACKET_SIZE * usize::from(packet);
    Ok(bytes[..] == page[from..from + PACKET_SIZE])
}
