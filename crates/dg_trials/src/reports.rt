//! Lines that say what a line of a report says, and that no replay writes.

use dg_lines::{ReportFault, read_report};

/// Lines that are nearly `end 1`, with its LF.
const NEARLY: [&[u8]; 6] = [
    b"end  1\n",
    b" end 1\n",
    b"end 1 \n",
    b"end 01\n",
    b"end 1\r\n",
    b"end 1",
];

#[test]
fn what_is_not_written_is_not_read(rt: HostRuntime) {
    let mut scratch = Vec::new(rt.alloc());
    assert!(rt; read_report(b"end 1\n", &mut scratch).is_ok());
    for line in NEARLY {
        let fault = read_report(line, &mut scratch).err();
        assert!(rt; fault == Some(ReportFault::NoReport));
    }
}
