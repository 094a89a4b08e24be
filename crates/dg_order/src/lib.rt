//! Reboot orders: which is better, and when one is to be started.
#![tactic(auto)]

ghost use Rattle.std.specs.Prelude.{◌≡◌, ◌<◌, ◌↔◌, ℕ, Option, true, IsTrue};
ghost use Rattle.dg_control.specs.declared.snapshot.Snapshot.{Snapshot};
ghost use Rattle.dg_order.specs.Pending.{pending, is_some_version, is_set, start_commits, Waits};

use dg_control::{Order, Program, Snapshot};

/// The most commits that the start of an order makes: program memory becomes blank, and is then set to the image.
pub const START_COMMITS: u32 = 2;

/// Whether a heard order is better than the kept one: its number is larger.
pub fn better(mine: &Order, heard: &Order) -> bool
    ensures { IsTrue result ↔ (mine.now.number < heard.now.number) }
{
    heard.number > mine.number
}

/// Whether an order is to be started. `whole` is the version that is kept whole of its image, if any, and `room` the
/// number of commits that are left.
pub fn pending(snapshot: &Snapshot, whole: Option<u32>, room: u32) -> bool
    ensures { result ≡ pending snapshot.now whole room }
{
    let order = snapshot.order;
    order.number != 0
        && !snapshot.waived
        && is_version(whole, order.version)
        && !is_set(snapshot.program, order.image, order.version)
        && room >= START_COMMITS
}

/// The constant equals the number in its definition: the start of an order makes two commits at most.
pub fn the_commits_are_these()
    ensures { START_COMMITS ≡ start_commits }
{}

/// An order waits to be started exactly if there is one, it is not waived, its image is kept whole in its version, program
/// memory is not set to it, and two commits are left.
pub fn an_order_waits()
    ensures { (p : Snapshot) (whole : Option ℕ) (room : ℕ) → (pending p whole room ≡ true) ↔ Waits p whole room }
{}

fn is_version(whole: Option<u32>, version: u32) -> bool
    ensures { result ≡ is_some_version whole version }
{
    match whole {
        None => false,
        Some(kept) => kept == version,
    }
}

fn is_set(program: Program, image: u8, version: u32) -> bool
    ensures { result ≡ is_set program image version }
{
    match program {
        Program::Blank => false,
        Program::Set {
            image: set,
            version: set_version,
        } => set == image && set_version == version,
    }
}
