//! Sets of packets, and the asking for them and serving of them by hand.
use dg_bits::PageBits;
use dg_recv::{Accept, Ask, Asking};
use dg_send::{Serve, Serving};
use std::test::Fail;

#[test]
fn sets_have_one_byte_form(rt: HostRuntime) -> Result<(), Fail> {
    let mut ends = PageBits::<48>::none();
    ends.set(0);
    ends.set(47);
    let mut bytes = [0xff; 6];
    ends.to_bytes(&mut bytes);
    assert_eq!(rt; bytes, [0x80, 0, 0, 0, 0, 0x01]);
    assert!(rt; PageBits::from_bytes(&bytes).ok_or("a set")? == ends);

    let mut pages = [0; 9];
    pages[8] = 0x40;
    assert!(rt; PageBits::<65>::from_bytes(&pages).is_none());
    pages[8] = 0x80;
    let last = PageBits::<65>::from_bytes(&pages).ok_or("a set")?;
    assert_eq!(rt; last.first(), Some(64));
    Ok(())
}

#[test]
fn sets_change_by_one_number(rt: HostRuntime) {
    let mut evens = PageBits::<6>::all();
    evens.clear(1);
    evens.clear(3);
    evens.clear(5);
    assert_eq!(rt; evens.count(), 3);
    assert_eq!(rt; evens.first(), Some(0));
    assert!(rt; evens.has(4) && !evens.has(5));

    let mut both = PageBits::none();
    assert_eq!(rt; both.first(), None);
    assert!(rt; both.is_empty() && !evens.is_empty());
    both.set(5);
    both.union(&evens);
    assert_eq!(rt; both.count(), 4);
    assert!(rt; both != evens);
}

#[test]
fn eight_requests_are_made(rt: HostRuntime) {
    let all = Ask::Request(PageBits::all());
    let mut asking = Asking::new(0, 513);
    assert_eq!(rt; asking.next(1), Ask::Wait);
    assert_eq!(rt; asking.next(2), all);
    assert_eq!(rt; asking.next(1025), Ask::Wait);
    assert_eq!(rt; asking.next(1026), all);
    for now in [2050, 3074, 4098, 5122, 6146, 7170] {
        assert_eq!(rt; asking.next(now), all);
    }
    assert_eq!(rt; asking.next(8194), Ask::GiveUp);
}

#[test]
fn a_packet_is_new_once(rt: HostRuntime) {
    let mut asking = Asking::new(0, 0);
    assert_eq!(rt; asking.accept(10, 3), Accept::New);
    assert_eq!(rt; asking.accept(11, 3), Accept::Known);
    assert!(rt; asking.got().has(3));
    assert_eq!(rt; asking.got().count(), 1);
    assert_eq!(rt; asking.next(1033), Ask::Wait);
}

#[test]
fn requests_are_merged(rt: HostRuntime) {
    let mut want = PageBits::none();
    want.set(0);
    want.set(1);
    want.set(5);
    let mut serving = Serving::new(0, want);
    let mut more = PageBits::none();
    more.set(1);
    more.set(7);
    serving.merge(&more);
    assert_eq!(rt; serving.left(), 4);
    for (now, serve) in [
        (0, Serve::Send(0)),
        (15, Serve::Wait),
        (16, Serve::Send(1)),
        (32, Serve::Send(5)),
        (48, Serve::Send(7)),
        (64, Serve::Done),
    ] {
        assert_eq!(rt; serving.next(now), serve, "at {now}");
    }
}
