//! A Trickle timer and the windows of suppression by hand.
use dg_quiet::Windows;
use dg_trickle::{Act, Trickle};

#[test]
fn an_equal_transmission_suppresses_one_interval(rt: HostRuntime) {
    let mut timer = Trickle::new(0, 0);
    timer.heard_same();
    assert_eq!(rt; timer.tick(250, 0), Act::Quiet);
    assert_eq!(rt; timer.tick(500, 7), Act::Expired);
    // 500 ms, half of the interval of 1,000 ms, and the draw
    assert_eq!(rt; timer.due(), 1_007);

    timer.heard_other(600, 3);
    assert_eq!(rt; timer.due(), 853);
    assert_eq!(rt; timer.tick(852, 0), Act::Nothing);
    assert_eq!(rt; timer.tick(853, 0), Act::Send);
    assert_eq!(rt; timer.due(), 1_100);
}

#[test]
fn a_request_keeps_quiet_about_its_image(rt: HostRuntime) {
    let mut windows = Windows::new();
    windows.note_request(0, 1);
    assert!(rt; !windows.may_ask(127_999, 1));
    assert!(rt; windows.may_ask(128_000, 1));
    assert!(rt; windows.may_ask(0, 6));

    windows.note_packet(128_000, 1);
    assert!(rt; !windows.may_ask(191_999, 1));
    assert!(rt; windows.may_ask(192_000, 1));
}
