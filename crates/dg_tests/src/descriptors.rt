//! Tests of `dg_object`.

use dg_object::{
    DESCRIPTOR_PIECE, Descriptor, DescriptorFault, HEAD_SIZE, MOST_BYTES, PAGE_SIZE, SizeFault,
    check_size, page_of, pages_of, profile_of,
};
use std::test::Fail;

const DIGITS: &[u8; 9] = b"123456789";

/// The first 30 bytes of the descriptor of `DIGITS` as version 1 of image 1, `blink`; its CRC of page 1, as that of page 0
/// below, was computed by Python's `binascii.crc_hqx`.
const DESCRIPTOR: [u8; 30] = [
    0x44, 0x47, 0x01, 0x02, 0, 0, 0, 1, 0, 0, 0, 9, 0x62, 0x6c, 0x69, 0x6e, 0x6b, 0, 0, 0, 0, 0, 0,
    0, 0, 0, 0, 0, 0x32, 0xa5,
];

fn descriptor_page() -> [u8; PAGE_SIZE] {
    let mut page = [0; PAGE_SIZE];
    page_of(DIGITS, 1, 1, b"blink", 0, &mut page);
    page
}

/// Whether the page is these bytes, filled up with 0xFF.
fn is_filled_up(page: &[u8; PAGE_SIZE], front: &[u8]) -> bool {
    page.starts_with(front) && page.iter().skip(front.len()).all(|byte| *byte == 0xFF)
}

fn head_bytes(page: &[u8; PAGE_SIZE]) -> [u8; HEAD_SIZE] {
    let mut head = [0; HEAD_SIZE];
    head.copy_from_slice(&page[..HEAD_SIZE]);
    head
}

#[test]
fn sizes(rt: HostRuntime) {
    let rows = [
        (0, Err(SizeFault::Empty)),
        (1, Ok(())),
        (MOST_BYTES, Ok(())),
        (70_657, Err(SizeFault::TooLarge)),
    ];
    for (length, want) in rows {
        assert_eq!(rt; check_size(length), want, "at {length}");
    }
    for (length, want) in [(1, 2), (1104, 2), (1105, 3), (70_656, 65)] {
        assert_eq!(rt; pages_of(length), want, "at {length}");
    }
}

#[test]
fn pages(rt: HostRuntime) {
    let page = descriptor_page();
    assert!(rt; is_filled_up(&page, &DESCRIPTOR), "{page:?}");

    let mut page = [0; PAGE_SIZE];
    page_of(DIGITS, 1, 1, b"blink", 1, &mut page);
    assert!(rt; is_filled_up(&page, DIGITS), "{page:?}");

    let profile = profile_of(DIGITS, 1, 1, b"blink");
    assert_eq!(rt;
        (profile.image, profile.version, profile.pages, profile.crc),
        (1, 1, 2, 0xecca)
    );
}

#[test]
fn descriptors(rt: HostRuntime) -> Result<(), Fail> {
    let read = Descriptor::read(&descriptor_page())?;
    assert_eq!(rt;
        (read.image, read.version, read.pages, read.length),
        (1, 1, 2, 9)
    );
    assert_eq!(rt; read.name.as_slice(), b"blink".as_slice());

    // the place of a byte, what it is changed to, and the fault of the page then
    let rows = [
        (0, b'd', DescriptorFault::Tag),
        (1, 0, DescriptorFault::Tag),
        (2, 7, DescriptorFault::Range),
        (3, 3, DescriptorFault::Range),
        (7, 0, DescriptorFault::Range),
        (11, 0, DescriptorFault::Range),
        (9, 2, DescriptorFault::Range),
        (13, 0, DescriptorFault::Range),
        (16, b' ', DescriptorFault::Range),
        (27, 1, DescriptorFault::Range),
        (30, 0, DescriptorFault::Range),
        (1103, 0, DescriptorFault::Range),
    ];
    for (at, byte, fault) in rows {
        let mut page = descriptor_page();
        let at: usize = at;
        if at < PAGE_SIZE {
            page[at] = byte;
        }
        assert_eq!(rt; Descriptor::read(&page), Err(fault), "byte {at}");
    }

    // the last image
    let mut page = descriptor_page();
    page[2] = 6;
    assert_eq!(rt; Descriptor::read(&page)?.image, 6);
    Ok(())
}

#[test]
fn pieces(rt: HostRuntime) -> Result<(), Fail> {
    let page = descriptor_page();
    let read = Descriptor::head(&head_bytes(&page))?;
    let filling = [0xFF; DESCRIPTOR_PIECE];
    let mut spoilt = filling;
    spoilt[0] = 0;
    for (at, piece, want) in [
        (28, &filling, true),
        (28, &spoilt, true),
        (29, &spoilt, true),
        (30, &spoilt, false),
        (140, &filling, true),
        (140, &spoilt, false),
    ] {
        assert_eq!(rt; read.rest_fits(at, piece), want, "at {at}");
    }
    Ok(())
}
