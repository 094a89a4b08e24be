//! Frames byte for byte, and each refusal.
ghost use Rattle.std.specs.Prelude.{◌≡◌};

use dg_base::crc16;
use dg_bits::PageBits;
use dg_control::Order;
use dg_frame::{Entry, Frame, FrameFault, Message, read, write};
use std::test::Fail;

/// The request from 1 to 0 for packets 0 and 47 of page 0 of image 1, version 1. The CRC is that of Python's
/// `binascii.crc_hqx`.
const REQUEST: [u8; 19] = [
    2, 0, 1, 0, 0, 1, 0, 0, 0, 1, 0, 0x80, 0, 0, 0, 0, 0x01, 0x0F, 0x9F,
];

/// Packet 47 of page 64 of image 3, version 1, from 1.
const PACKET: [u8; 35] = [
    3, 0, 1, 3, 0, 0, 0, 1, 64, 47, b'a', b'b', b'c', b'd', b'e', b'f', b'g', b'h', b'i', b'j',
    b'k', b'l', b'm', b'n', b'o', b'p', b'q', b'r', b's', b't', b'u', b'v', b'w', 0x3E, 0x34,
];

/// An advert of 2, which has 1 of 3 pages of image 2, version 7, and knows an order of it.
const ADVERT: [u8; 38] = [
    1, 0, 2, 0, 0, 0, 0, 0, 0, 0, 0, 0, 0, 0, 7, 3, 1, 0x12, 0x34, 0, 0, 0, 0, 0, 0, 0, 0, 0, 0, 0,
    5, 2, 0, 0, 0, 7, 0x57, 0x2B,
];

/// A wide advert of 2, which has 1 of 3 pages of image 2, version 7, and the 65 pages of image 6 in the largest
/// possible version, and knows an order of image 6.
const WIDE: [u8; 62] = [
    4, 0, 2, 0, 0, 0, 0, 0, 0, 0, 0, 0, 0, 0, 7, 3, 1, 0x12, 0x34, 0, 0, 0, 0, 0, 0, 0, 0, 0, 0, 0,
    0, 0, 0, 0, 0, 0, 0, 0, 0, 0, 0, 0, 0, 0xFF, 0xFF, 0xFF, 0xFF, 65, 65, 0xBE, 0xEF, 0, 0, 0, 5,
    6, 0, 0, 0, 7, 0x0B, 0xA0,
];

/// A frame, an offset in it, a byte that is put there, and whether the reader is wide: each is read.
const FITTING: [(&[u8], usize, u8, bool); 8] = [
    (&REQUEST, 16, 0, false),
    (&REQUEST, 5, 6, true),
    (&PACKET, 9, 0, false),
    (&PACKET, 3, 6, true),
    (&ADVERT, 16, 3, true),
    (&ADVERT, 32, 7, false),
    (&WIDE, 16, 3, true),
    (&WIDE, 55, 0, true),
];

/// The same, but each of these bytes is out of its range.
const UNFIT: [(&[u8], usize, u8, bool); 28] = [
    (&REQUEST, 5, 0, true),
    (&REQUEST, 5, 4, false),
    (&REQUEST, 5, 7, true),
    (&REQUEST, 9, 0, true),
    (&REQUEST, 10, 65, false),
    (&PACKET, 3, 0, true),
    (&PACKET, 3, 4, false),
    (&PACKET, 3, 7, true),
    (&PACKET, 7, 0, false),
    (&PACKET, 8, 65, true),
    (&PACKET, 9, 48, false),
    (&ADVERT, 3, 1, true),
    (&ADVERT, 8, 1, false),
    (&ADVERT, 9, 1, true),
    (&ADVERT, 10, 1, false),
    (&ADVERT, 15, 1, true),
    (&ADVERT, 15, 66, false),
    (&ADVERT, 16, 4, true),
    (&ADVERT, 30, 0, false),
    (&ADVERT, 31, 4, true),
    (&ADVERT, 31, 4, false),
    (&ADVERT, 35, 0, true),
    (&WIDE, 3, 1, true),
    (&WIDE, 47, 66, true),
    (&WIDE, 48, 66, true),
    (&WIDE, 54, 0, true),
    (&WIDE, 55, 7, true),
    (&WIDE, 59, 0, true),
];

/// A frame with one byte changed and the CRC computed again: whether a wide or narrow reader reads it.
fn with_change(frame: &[u8], at: usize, byte: u8, wide: bool) -> Result<(), FrameFault> {
    let mut changed = Frame::new();
    for (offset, old) in frame.iter().enumerate() {
        if offset + 2 < frame.len() {
            let _ = changed.try_push(if offset == at { byte } else { *old });
        }
    }
    let crc = crc16(changed.as_slice());
    let _ = changed.try_extend_from_slice(&crc.to_be_bytes());
    read(changed.as_slice(), wide)?;
    Ok(())
}

#[test]
fn a_request_is_spelled(rt: HostRuntime) {
    let mut want = PageBits::none();
    want.set(0);
    want.set(47);
    let request = Message::Request {
        source: 1,
        to: 0,
        image: 1,
        version: 1,
        page: 0,
        want,
    };
    assert!(rt; write(&request).as_slice() == REQUEST.as_slice());
    assert!(rt; read(&REQUEST, true) == Ok(request));
    assert!(rt; read(&REQUEST, false) == read(&REQUEST, true));
}

#[test]
fn an_advert_is_read(rt: HostRuntime) {
    let unused = Entry {
        version: 0,
        pages: 0,
        have: 0,
        crc: 0,
    };
    let advert = Message::Advert {
        source: 2,
        entries: [
            unused,
            Entry {
                version: 7,
                pages: 3,
                have: 1,
                crc: 0x1234,
            },
            unused,
        ],
        order: Order {
            number: 5,
            image: 2,
            version: 7,
        },
    };
    assert!(rt; read(&ADVERT, true) == Ok(advert));
    assert!(rt; read(&ADVERT, false) == read(&ADVERT, true));
}

/// What `WIDE` spells.
fn wide_advert() -> Message {
    let unused = Entry {
        version: 0,
        pages: 0,
        have: 0,
        crc: 0,
    };
    Message::Wide {
        source: 2,
        entries: [
            unused,
            Entry {
                version: 7,
                pages: 3,
                have: 1,
                crc: 0x1234,
            },
            unused,
            unused,
            unused,
            Entry {
                version: 0xFFFF_FFFF,
                pages: 65,
                have: 65,
                crc: 0xBEEF,
            },
        ],
        order: Order {
            number: 5,
            image: 6,
            version: 7,
        },
    }
}

/// Why a frame is refused, or None if it is read.
fn fault(frame: &[u8], wide: bool) -> Option<FrameFault> {
    read(frame, wide).err()
}

/// The same, with one byte changed.
fn fault_with(frame: &[u8], at: usize, byte: u8) -> Option<FrameFault> {
    let mut changed = Frame::new();
    let _ = changed.try_extend_from_slice(frame);
    if let Some(place) = changed.get_mut(at) {
        *place = byte;
    }
    fault(changed.as_slice(), true)
}

#[test]
fn a_wide_advert_is_read_by_wide_readers(rt: HostRuntime) {
    assert!(rt; read(&WIDE, true) == Ok(wide_advert()));
    for (frame, wide, wanted) in [
        (&WIDE[..], false, FrameFault::Kind),
        (&WIDE[..61], true, FrameFault::Length),
        (&WIDE[..5], true, FrameFault::Length),
        (&WIDE[..5], false, FrameFault::Kind),
        (&WIDE[..4], false, FrameFault::Short),
    ] {
        assert_eq!(rt; fault(frame, wide), Some(wanted), "{frame:?}");
    }
    assert_eq!(rt; fault_with(&WIDE, 0, 5), Some(FrameFault::Kind));
    assert_eq!(rt; fault_with(&WIDE, 43, 0), Some(FrameFault::Check));
}

#[test]
fn lengths_are_looked_at(rt: HostRuntime) -> Result<(), Fail> {
    let mut longer = Frame::new();
    longer.try_extend_from_slice(&PACKET)?;
    longer.try_push(0)?;
    assert_eq!(rt; longer.len(), 36);
    for (frame, wide, wanted) in [
        (&PACKET[..], false, None),
        (&PACKET[..4], true, Some(FrameFault::Short)),
        (&PACKET[..5], true, Some(FrameFault::Length)),
        (&PACKET[..34], true, Some(FrameFault::Length)),
        (&PACKET[1..6], true, Some(FrameFault::Kind)),
        (longer.as_slice(), false, Some(FrameFault::Length)),
    ] {
        assert_eq!(rt; fault(frame, wide), wanted, "{frame:?}");
    }
    assert_eq!(rt;
        fault_with(&PACKET, 12, PACKET[12] ^ 1),
        Some(FrameFault::Check)
    );
    Ok(())
}

#[test]
fn bytes_within_their_ranges_are_read(rt: HostRuntime) {
    for (frame, at, byte, wide) in FITTING {
        assert_eq!(rt; with_change(frame, at, byte, wide), Ok(()), "{at} {byte}");
    }
}

#[test]
fn bytes_out_of_their_ranges_are_refused(rt: HostRuntime) {
    for (frame, at, byte, wide) in UNFIT {
        assert_eq!(rt;
            with_change(frame, at, byte, wide),
            Err(FrameFault::Range),
            "{at} {byte}"
        );
    }
}

#[test]
fn an_empty_packet_set_is_refused(rt: HostRuntime) {
    let mut last = REQUEST;
    last[11] = 0;
    assert_eq!(rt; with_change(&last, 16, 1, true), Ok(()));
    assert_eq!(rt; with_change(&last, 16, 0, true), Err(FrameFault::Range));
}
