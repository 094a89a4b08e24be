//! A Trickle timer that is looked at each millisecond. Every random word is 0, so each interval fires at its middle.
#![tactic(auto)]

use anyhow::Result;
use dg_trickle::{Act, Trickle};

/// For how long the timer runs, in milliseconds.
const END: u64 = 10_000;

fn main(rt: HostRuntime) -> Result<()> {
    let mut timer = Trickle::new(0, 0);
    for now in 0..END {
        match now {
            1_600 => timer.heard_same(),
            6_000 => timer.heard_other(now, 0),
            _ => {}
        }
        match timer.tick(now, 0) {
            Act::Send => println!(rt; "{now} send")?,
            Act::Quiet => println!(rt; "{now} suppressed")?,
            Act::Expired => println!(rt; "{now} expired")?,
            Act::Nothing => {}
        }
    }
    Ok(())
}
