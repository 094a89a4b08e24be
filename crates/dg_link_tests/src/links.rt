//! A link in memory by hand.
ghost use Rattle.std.specs.Prelude.{◌≡◌};

use crate::carrying::{comes, is_quiet, open, send};
use dg_base::LONGEST_FRAME;
use dg_link::{Link, LinkFailed, MemLink};
use std::test::Fail;

/// Three frames to a mote with room for two: whether the next receives find nothing at the other mote, and the last two frames
/// and nothing else at this one.
fn overflows<L: Link>(link: &mut L) -> Result<[bool; 4], LinkFailed>
    requires { L.mote_count link.old ≡ 2 }
{
    send(link, 0, 1, b"first")?;
    send(link, 0, 1, b"second")?;
    send(link, 1, 1, b"")?;
    Ok([
        is_quiet(link, 0)?,
        comes(link, 1, b"second")?,
        comes(link, 1, b"")?,
        is_quiet(link, 1)?,
    ])
}

/// Whether the longest frame comes whole.
fn carries_longest<L: Link>(link: &mut L) -> Result<bool, LinkFailed>
    requires { L.mote_count link.old ≡ 2 }
{
    send(link, 1, 0, &[7; LONGEST_FRAME])?;
    comes(link, 0, &[7; LONGEST_FRAME])
}

#[test]
fn a_full_inbox_loses_the_oldest_frame(rt: HostRuntime) -> Result<(), Fail> {
    let alloc = rt.alloc();
    let mut link = MemLink::new(alloc, 2);
    open(&mut link, alloc, 17_000, 2)?;
    assert_eq!(rt; overflows(&mut link)?, [true; 4]);
    open(&mut link, alloc, 17_000, 2)?;
    assert!(rt; carries_longest(&mut link)?);
    Ok(())
}

#[test]
fn a_link_that_is_opened_again_is_empty(rt: HostRuntime) -> Result<(), Fail> {
    let alloc = rt.alloc();
    let mut link = MemLink::new(alloc, 2);
    open(&mut link, alloc, 17_000, 2)?;
    send(&mut link, 1, 0, b"left")?;
    open(&mut link, alloc, 17_000, 16)?;
    assert!(rt; is_quiet(&mut link, 0)?);
    assert!(rt; is_quiet(&mut link, 15)?);
    Ok(())
}
