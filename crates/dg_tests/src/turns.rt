//! Rounds and levels by hand.
ghost use Rattle.std.specs.Prelude.{◌≡◌};

use dg_base::Event;
use dg_rounds::{enough, levels, round, sweep};
use std::test::Fail;

#[test]
fn a_line_of_motes_has_levels(rt: HostRuntime) -> Result<(), Fail> {
    let line = levels(rt.alloc(), 3, &[(1, 2), (0, 1)], 0)?;
    assert!(rt; line.as_slice() == [Some(0), Some(1), Some(2)].as_slice());
    let apart = levels(rt.alloc(), 4, &[(3, 2), (1, 0)], 1)?;
    assert!(rt; apart.as_slice() == [Some(1), Some(0), None, None].as_slice());
    assert_eq!(rt; enough(31, 9), 39);
    Ok(())
}

#[test]
fn a_sweep_goes_both_ways(rt: HostRuntime) {
    let mut ticks: u32 = 0;
    let mut to_second: u32 = 0;
    let mut to_first: u32 = 0;
    for event in sweep(&[(4, 7)]) {
        match event {
            Event::Tick { .. } => ticks = ticks.saturating_add(1),
            Event::Last { to: 7, .. } => to_second = to_second.saturating_add(1),
            _ => to_first = to_first.saturating_add(1),
        }
    }
    assert_eq!(rt; (ticks, to_second, to_first), (304, 50, 50));
    let mut events: u32 = 0;
    for _event in round(0, 1) {
        events = events.saturating_add(1);
    }
    assert_eq!(rt; events, 202);
}
