//! Images as pages: an object is a descriptor and the image's bytes, in pages of 1,104 bytes.
//!
//! Page 0 is the descriptor. It names the image and keeps a CRC of each data page. Pages 1 and up are the
//! image's bytes in their order, the last of them filled up with 0xFF. Nothing here allocates.
#![tactic(auto)]

mod descriptor;
mod laws;
mod name;
mod object;
mod profile;
mod size;

pub use descriptor::{Descriptor, DescriptorFault};
pub use laws::{
    a_descriptor_is_read_in_pieces, a_descriptor_is_tested, a_head_is_read_in_one_way,
    a_row_has_a_descriptor, a_row_is_its_pages, an_object_has_these_sizes,
};
pub use name::{NAME_SIZE, Name, SIZE_OF_NAME};
pub use object::{page_of, profile_of};
pub use profile::Profile;
pub use size::{
    DESCRIPTOR_PIECE, DescriptorPiece, FEWEST_PAGES, HEAD_SIZE, Head, MOST_BYTES, MOST_PAGES,
    PACKET_SIZE, PACKETS, PAGE_SIZE, PacketBytes, SIZE_OF_DESCRIPTOR_PIECE, SIZE_OF_HEAD,
    SIZE_OF_PACKET, SLOTS, SizeFault, check_size, pages_of,
};
