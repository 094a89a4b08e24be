//! Words that are not an option, and a report of as many lines as are used.

use crate::{answer, asked_by, exit_code};
use dg_base::{MemSink, MemSource};
use dg_picture::picture;
use std::process::ExitCode;
use std::test::Fail;

#[test]
fn a_word_that_is_no_option_ends_in_2(rt: HostRuntime) -> Result<(), Fail> {
    let word = String::from_str(rt.alloc(), "--picture")?;
    let code = exit_code(answer(&rt, asked_by(Some(word), None)));
    assert_eq!(rt; code, ExitCode::from(2));
    Ok(())
}

/// As many lines as a report has at most.
const MOST_LINES: u32 = 1_000_000;

/// More bytes than a picture has.
const AMPLE: usize = 10_000_000;

#[test]
fn the_longest_report_has_a_picture(rt: HostRuntime) -> Result<(), Fail> {
    let alloc = rt.alloc();
    let mut report = Vec::new(alloc);
    for _ in 0..MOST_LINES {
        report.extend_from_slice(b"off 0\n")?;
    }
    let mut source = MemSource::new(report, Vec::new(alloc));
    let mut sink = MemSink::new(alloc, AMPLE, Vec::new(alloc))?;
    assert!(rt; picture(alloc, &mut source, &mut sink).is_ok());
    Ok(())
}
