//! Tests of `dg_base`.

use dg_base::{
    Bytes, Clock, Cut, Event, FrameBytes, HexFault, ImageVersion, MemSink, MemSource, Pairs,
    ReadFailed, Sink, Source, Status, StdSink, StdSource, Step, StepClock, WriteFailed, crc16,
    crc16_more, is_name, next_line, parse_hex, parse_u32, push_hex, push_u32,
};
use std::io;
use std::io::{Read, Write};
use std::test::Fail;

#[test]
fn checksums(rt: HostRuntime) {
    assert_eq!(rt; crc16(b"123456789"), 0x31c3);
    assert_eq!(rt; crc16(b"A"), 0x58e5);
    assert_eq!(rt; crc16(b"\xff"), 0x1ef0);
    assert_eq!(rt; crc16(b""), 0);
    assert_eq!(rt; crc16(&[0; 1104]), 0);
    assert_eq!(rt; crc16_more(crc16(b"1234"), b"56789"), 0x31c3);
}

#[test]
fn reads_numbers(rt: HostRuntime) {
    for (text, number) in [
        ("0", Some(0)),
        ("7", Some(7)),
        ("4294967295", Some(4_294_967_295)),
        ("4294967296", None),
        ("99999999999", None),
        ("", None),
        ("00", None),
        ("01", None),
        ("+1", None),
        ("1x", None),
    ] {
        assert_eq!(rt; parse_u32(text.as_bytes()), number, "{text}");
    }
}

#[test]
fn tells_names(rt: HostRuntime) {
    for (text, name) in [
        ("base", true),
        ("a-Z_0.9", true),
        ("0123456789abcdef", true),
        ("0123456789abcdefg", false),
        ("", false),
        ("a b", false),
        ("a/b", false),
    ] {
        assert_eq!(rt; is_name(text.as_bytes()), name, "{text}");
    }
}

#[test]
fn reads_hex_digits(rt: HostRuntime) -> Result<(), Fail> {
    let alloc = rt.alloc();
    let read = parse_hex(alloc, b"004aF9")?;
    assert_eq!(rt; read.as_slice(), [0x00, 0x4a, 0xf9].as_slice());
    assert_eq!(rt; parse_hex(alloc, b"")?.len(), 0);
    for (text, fault) in [
        ("4", HexFault::Odd),
        ("4g5", HexFault::Odd),
        ("4g", HexFault::Digit),
    ] {
        assert_eq!(rt;
            parse_hex(alloc, text.as_bytes()).err(),
            Some(fault),
            "{text}"
        );
    }
    Ok(())
}

#[test]
fn reads_lines(rt: HostRuntime) {
    let bytes = b"ab\r\n\nc\r\r\nd\r";
    for (from, line) in [
        (0, (2, 4)),
        (4, (4, 5)),
        (5, (7, 9)),
        (9, (11, 11)),
        (11, (11, 11)),
    ] {
        assert_eq!(rt; next_line(bytes, from), line, "from {from}");
    }
}

#[test]
fn appends(rt: HostRuntime) -> Result<(), Fail> {
    let mut out = Vec::new(rt.alloc());
    push_u32(&mut out, 0)?;
    push_u32(&mut out, 4_294_967_295)?;
    push_hex(&mut out, &[0x00, 0x4a, 0xf9])?;
    assert_eq!(rt; out.as_slice(), b"04294967295004af9".as_slice());
    assert_eq!(rt; Bytes::new(out).into_vec().len(), 17);
    assert_eq!(rt; Status::Done.code(), 0);
    assert_eq!(rt; Status::NoImage.code(), 13);
    Ok(())
}

#[test]
fn source_in_memory(rt: HostRuntime) -> Result<(), Fail> {
    let bytes = b"abcde".to_vec(rt.alloc())?;
    let failing = vec![in rt.alloc(); 2, 5]?;
    let mut source = MemSource::new(bytes, failing);
    let mut into = [0; 3];
    // what each read returns, and what the array begins with then
    let rows: [(Result<usize, ReadFailed>, &[u8]); 6] = [
        (Ok(3), b"abc"),
        (Err(ReadFailed), b""),
        (Ok(2), b"dec"),
        (Ok(0), b""),
        (Err(ReadFailed), b""),
        (Ok(0), b""),
    ];
    for (answer, front) in rows {
        assert_eq!(rt; source.read(&mut into), answer);
        assert!(rt; into.starts_with(front));
    }
    Ok(())
}

#[test]
fn sink_in_memory(rt: HostRuntime) -> Result<(), Fail> {
    let failing = vec![in rt.alloc(); 2]?;
    let mut sink = MemSink::new(rt.alloc(), 4, failing)?;
    let rows: [(&[u8], Result<(), WriteFailed>); 5] = [
        (b"ab", Ok(())),
        (b"c", Err(WriteFailed)),
        (b"cde", Err(WriteFailed)),
        (b"cd", Ok(())),
        (b"", Ok(())),
    ];
    for (bytes, answer) in rows {
        assert_eq!(rt; sink.write(bytes), answer);
    }
    assert_eq!(rt; sink.bytes(), b"abcd".as_slice());
    Ok(())
}

// A reader whose second call fails, and a writer that takes two bytes in a call, and none from its
// third call on.
#[derive(Drop)]
struct Fake {
    calls: u8,
}

impl Read for Fake {
    fn read(&mut self, buf: &mut [u8]) -> io::Result<usize> {
        self.calls = self.calls.saturating_add(1);
        if self.calls == 2 {
            return Err(io::Error::from(io::ErrorKind::Other));
        }
        Ok(buf.len().min(1))
    }
}

impl Write for Fake {
    fn write(&mut self, buf: &[u8]) -> io::Result<usize> {
        self.calls = self.calls.saturating_add(1);
        Ok(if self.calls < 3 { buf.len().min(2) } else { 0 })
    }

    fn flush(&mut self) -> io::Result<()> {
        Ok(())
    }
}

#[test]
fn over_fakes(rt: HostRuntime) {
    let mut source = StdSource::new(Fake { calls: 0 });
    let mut into = [0; 3];
    assert_eq!(rt; source.read(&mut into), Ok(1));
    assert_eq!(rt; source.read(&mut into), Err(ReadFailed));
    assert_eq!(rt; source.read(&mut into), Ok(1));
    let mut sink = StdSink::new(Fake { calls: 0 });
    assert_eq!(rt; sink.write(b"abc"), Ok(()));
    assert_eq!(rt; sink.write(b"d"), Err(WriteFailed));
    assert_eq!(rt; sink.write(b""), Ok(()));
}

#[test]
fn clock_in_memory(rt: HostRuntime) {
    let mut clock = StepClock::new(250);
    for answer in [0, 250, 500] {
        assert_eq!(rt; clock.read(), answer);
    }
    let mut far = StepClock::new(18_446_744_073_709_551_610);
    for answer in [
        0,
        18_446_744_073_709_551_610,
        18_446_744_073_709_551_615,
        18_446_744_073_709_551_615,
    ] {
        assert_eq!(rt; far.read(), answer);
    }
}

#[test]
fn events(rt: HostRuntime) -> Result<(), Fail> {
    let frame = FrameBytes::new(b"\x01\x02");
    assert_eq!(rt; frame.as_slice(), b"\x01\x02".as_slice());
    let step = Step {
        event: Event::Frame {
            mote: 0,
            dt: 16,
            word: 7,
            bytes: Bytes::new(vec![in rt.alloc(); 0x01]?),
        },
        cut: Some(Cut {
            after: 1,
            mask: Bytes::new(vec![in rt.alloc(); 0x55]?),
        }),
    };
    let mask = step.cut.as_ref().map(|cut| cut.mask.as_slice());
    assert_eq!(rt; mask, Some(b"\x55".as_slice()));
    let mut pairs = Pairs::new(Vec::new(rt.alloc()));
    pairs.push((0, 1))?;
    pairs.push((3, 2))?;
    assert_eq!(rt; pairs.as_slice(), [(0, 1), (3, 2)].as_slice());
    let image_version = ImageVersion {
        image: 1,
        version: 2,
    };
    assert!(rt;
        image_version
            < ImageVersion {
                image: 2,
                version: 1
            }
    );
    Ok(())
}
