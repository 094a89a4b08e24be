//! Pages of an image as they come: the descriptor, the CRC of a data page, and the digest by which the page before names it.
ghost use Rattle.std.specs.Prelude.{◌≡◌, ◌≢◌, ◌⊎◌, ◌↔◌, ◌<◌, ◌≤◌, length};
ghost use Rattle.sha2.specs.Sha256.{sha256};
ghost use Rattle.dg_words.specs.Lists.{padded};
ghost use Rattle.dg_base.specs.Crc.{crc_of};
ghost use Rattle.dg_object.specs.Sizes.{page_size, name_size, most_pages};
ghost use Rattle.dg_object.specs.Descriptor.{Details, IsDescriptor, crc_in};
ghost use Rattle.dg_object.specs.Records.{details_of};
ghost use Rattle.dg_chain.specs.Chain.{digest_size};
ghost use Rattle.deluge_c.specs.Answers.{done};
ghost use Rattle.deluge_c.specs.Pages.{FieldsTell};

use crate::answers::{CHECK, DONE, LENGTH, RANGE, TAG};
use dg_base::crc16;
use dg_object::{Descriptor, DescriptorFault, HEAD_SIZE, MOST_PAGES, NAME_SIZE, PAGE_SIZE};
use sha2::{Digest, Sha256};

/// The bytes of a digest.
const DIGEST_SIZE: usize = 32;

/// What a descriptor says of its image.
#[repr(C)]
#[derive(Clone, Copy)]
pub struct DescriptorFields {
    pub version: u32,
    /// The bytes of the image.
    pub length: u32,
    pub image: u8,
    /// Its pages, the descriptor among them.
    pub pages: u8,
    /// The name, filled up with 0.
    pub name: [u8; NAME_SIZE],
}

/// Reads page 0, of 1,104 bytes, as a descriptor.
#[unsafe(no_mangle)]
pub extern "C" fn deluge_descriptor_read(page: &[u8], into: &mut DescriptorFields) -> u32
    ensures length { (result ≡ LENGTH) ↔ (length page.now ≢ page_size) }
    ensures read { (d : Details) → length page.now ≡ page_size → IsDescriptor page.now d
        → (result ≡ done) × FieldsTell into.new d }
    ensures found { result ≡ done → (d : Details) × IsDescriptor page.now d × FieldsTell into.new d }
    ensures refused { result ≢ done → into.new ≡ into.old }
{
    if page.len() != PAGE_SIZE {
        return LENGTH;
    }
    let mut whole = [0; PAGE_SIZE];
    whole.copy_from_slice(page);
    match Descriptor::read(&whole) {
        Ok(descriptor) => {
            *into = descriptor_fields(&descriptor);
            DONE
        }
        Err(DescriptorFault::Tag) => TAG,
        Err(DescriptorFault::Range) => RANGE,
    }
}

/// The fields of a descriptor.
fn descriptor_fields(descriptor: &Descriptor) -> DescriptorFields
    ensures { FieldsTell result (details_of descriptor.now) }
{
    let name = name_field(descriptor.name.as_slice());
    DescriptorFields {
        version: descriptor.version,
        length: descriptor.length,
        image: descriptor.image,
        pages: descriptor.pages,
        name,
    }
}

/// A name, filled up with 0.
fn name_field(name: &[u8]) -> [u8; NAME_SIZE]
    requires { length name.now ≤ name_size }
    ensures { result ≡ padded name_size 0 name.now }
{
    let mut field = [0; NAME_SIZE];
    field[..name.len()].copy_from_slice(name);
    field
}

/// Whether a data page, 1 to 64, has the CRC that page 0 keeps of it. Both have 1,104 bytes.
#[unsafe(no_mangle)]
pub extern "C" fn deluge_page_check(first: &[u8], page: &[u8], number: u8) -> u32
    ensures length { (result ≡ LENGTH) ↔ ((length first.now ≢ page_size) ⊎ (length page.now ≢ page_size)) }
    ensures fits { result ≡ done → crc_of page.now ≡ crc_in first.now number }
    ensures check { result ≡ CHECK → crc_of page.now ≢ crc_in first.now number }
    ensures range { result ≡ RANGE → (number ≡ 0) ⊎ (most_pages ≤ number) }
{
    if first.len() != PAGE_SIZE || page.len() != PAGE_SIZE {
        return LENGTH;
    }
    if number == 0 || number >= MOST_PAGES {
        return RANGE;
    }
    if crc16(page) == crc_kept(first, number) {
        DONE
    } else {
        CHECK
    }
}

/// The CRC that page 0 keeps of a data page.
fn crc_kept(first: &[u8], number: u8) -> u16
    requires length { length first.now ≡ page_size }
    requires data_page { 1 ≤ number }
    requires known_page { number < most_pages }
    ensures { result ≡ crc_in first.now number }
{
    let at = HEAD_SIZE - 2 + 2 * usize::from(number);
    u16::from_be_bytes([first[at], first[at + 1]])
}

/// Writes the SHA-256 digest of a page, of 1,104 bytes, by which the page before it names it. A digest has 32 bytes.
#[unsafe(no_mangle)]
pub extern "C" fn deluge_page_digest(page: &[u8], digest: &mut [u8]) -> u32
    ensures answer { (result ≡ done) ↔ ((length page.now ≡ page_size) × (length digest.old ≡ digest_size)) }
    ensures digest { result ≡ done → digest.new ≡ sha256 page.now }
    ensures refused { result ≢ done → digest.new ≡ digest.old }
{
    if page.len() != PAGE_SIZE || digest.len() != DIGEST_SIZE {
        return LENGTH;
    }
    digest.copy_from_slice(&Sha256::digest(page));
    DONE
}
