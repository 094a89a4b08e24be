//! What the next start runs, and why.
ghost use Rattle.std.specs.Prelude.{◌≡◌, ℕ, ◌<◌, ◌==◌, ◌&&◌, ◌||◌, nat_lt, not, is_some, List, Bool, Option, None, Some};
ghost use Rattle.std.specs.Prelude.{IfSome, length, slice_index_or};
ghost use Rattle.dg_slot.specs.Kept.{Held, KeepsImage};
ghost use Rattle.dg_volume.specs.Sizes.{images, golden_version, short_starts};
ghost use Rattle.dg_volume.specs.Store.{App, Store, held};
ghost use Rattle.dg_volume.specs.Told.{program_told};
ghost use Rattle.dg_volume.specs.Stands.{Mounted};
ghost use Rattle.dg_volume.specs.Start.{held_sound, golden_boot, kept_boot};
ghost use Rattle.dg_inspect.specs.Pages.{ShowsKept};
ghost use Rattle.dg_inspect.specs.Starts.{once_counted, version_of, reason_by, ShowsNext};
ghost use Rattle.dg_inspect.specs.Facts.{TellsFacts, Chooses, golden_if};
ghost use Rattle.dg_inspect.specs.Facts.{counted_gesture, counted_room, orders_start, blank_or_golden};

use crate::orders::{is_set_to, is_whole};
use crate::seen::{ImageSeen, ImageVersion, NextStart, StartReason};
use dg_control::{GOLDEN, GOLDEN_VERSION, Order, Program, SHORT_STARTS, Snapshot};
use dg_order::START_COMMITS;
use dg_volume::Volume;

/// What a start chooses by, once it is counted.
#[derive(Drop)]
pub(crate) struct StartFacts {
    /// Short starts choose golden.
    pub(crate) short_starts: bool,
    /// An order waits.
    pub(crate) waits: bool,
    /// The ordered image is sound.
    pub(crate) order_sound: bool,
    pub(crate) golden_sound: bool,
    pub(crate) program: Program,
    pub(crate) order: Order,
}

/// Golden, where it is sound or program memory is set to it.
fn golden_if(sound: bool, set: bool) -> Option<ImageVersion>
    ensures { result ≡ golden_if (sound || set) }
{
    if sound || set {
        Some(ImageVersion {
            image: GOLDEN,
            version: GOLDEN_VERSION,
        })
    } else {
        None
    }
}

/// What the start of golden runs.
fn golden_start(facts: &StartFacts) -> Option<ImageVersion>
    ensures { (t : Store) (three : Bool) → TellsFacts t facts.now → result ≡ version_of (golden_boot t three).runs }
{
    let set = is_set_to(facts.program, GOLDEN, GOLDEN_VERSION);
    golden_if(facts.golden_sound, set)
}

/// What a start runs if neither an order nor short starts choose it.
fn run_on(facts: &StartFacts) -> NextStart
    ensures runs { (t : Store) (three : Bool) → TellsFacts t facts.now → result.runs ≡ version_of (kept_boot t three).runs }
    ensures reason { (t : Store) → TellsFacts t facts.now → result.reason ≡ reason_by t.app }
    ensures waives { result.waives ≡ facts.now.waits }
{
    match facts.program {
        Program::Blank => NextStart {
            runs: golden_start(facts),
            reason: StartReason::Blank,
            waives: facts.waits,
        },
        Program::Set { image, version } => NextStart {
            runs: Some(ImageVersion { image, version }),
            reason: StartReason::Program,
            waives: facts.waits,
        },
    }
}

/// Whether the order is started.
fn starts_order(facts: &StartFacts) -> bool
    ensures { result ≡ (facts.now.waits && facts.now.order_sound) }
{
    facts.waits && facts.order_sound
}

/// What a start runs, once it is counted.
fn choose(facts: &StartFacts) -> NextStart
    ensures { (t : Store) → TellsFacts t facts.now → Chooses t result }
{
    if facts.short_starts {
        return NextStart {
            runs: golden_start(facts),
            reason: StartReason::ShortStarts,
            waives: false,
        };
    }
    if starts_order(facts) {
        return NextStart {
            runs: Some(ImageVersion {
                image: facts.order.image,
                version: facts.order.version,
            }),
            reason: StartReason::Order,
            waives: false,
        };
    }
    run_on(facts)
}

/// Whether an image is kept, and its complete pages are sound.
fn is_sound(seen: &Option<ImageSeen>) -> bool
    ensures { (c : List ℕ) (i : ℕ) (h : Option Held) → IfSome h (KeepsImage c i) → ShowsKept h seen.now
        → result ≡ held_sound h }
{
    let Some(seen) = seen else {
        return false;
    };
    match &seen.complete {
        None => false,
        Some(complete) => complete.unsound.is_empty(),
    }
}

/// Whether an image is kept, and its complete pages are sound.
fn is_image_sound(seen: &[Option<ImageSeen>], image: u8) -> bool
    requires count { length seen.now ≡ images }
    requires known_image { image < images }
    ensures sound { (c : List ℕ) (h : Option Held) → IfSome h (KeepsImage c image)
        → ShowsKept h (slice_index_or seen.now image None) → result ≡ held_sound h }
    ensures known { image < images }
{
    is_sound(&seen[usize::from(image)])
}

/// Whether a start by power counts as a short one.
fn counts(gesture: u8, room: u32) -> bool
    ensures { result ≡ (nat_lt gesture short_starts && nat_lt 0 room) }
{
    gesture < SHORT_STARTS && room > 0
}

/// Short starts in a row, once a start by power is counted.
fn counted_gesture(gesture: u8, room: u32) -> u8
    ensures { result ≡ counted_gesture gesture room }
{
    if counts(gesture, room) {
        gesture + 1
    } else {
        gesture
    }
}

/// The commits that are left, once a start by power is counted.
fn counted_room(gesture: u8, room: u32) -> u32
    ensures { result ≡ counted_room gesture room }
{
    if counts(gesture, room) {
        room - 1
    } else {
        room
    }
}

/// Whether program memory is blank, or set to golden.
fn is_blank_or_golden(program: Program) -> bool
    ensures { (app : Option App) → program ≡ program_told app → result ≡ blank_or_golden app }
{
    match program {
        Program::Blank => true,
        Program::Set { image, version } => image == GOLDEN && version == GOLDEN_VERSION,
    }
}

/// Whether this many short starts choose golden, where this many commits are left.
fn starts_golden(gesture: u8, room: u32, program: Program) -> bool
    ensures { (app : Option App) → program ≡ program_told app
        → result ≡ ((gesture == short_starts) && (nat_lt 0 room || blank_or_golden app)) }
{
    gesture == SHORT_STARTS && (room > 0 || is_blank_or_golden(program))
}

/// Whether an order is started, where its image is kept whole or not, and this many commits are left.
fn orders_start(now: &Snapshot, whole: bool, room: u32) -> bool
    ensures { (s : Store) → now.now.program ≡ program_told s.app → now.now.order ≡ s.order → now.now.waived ≡ s.waived
        → result ≡ orders_start s whole room }
{
    let order = now.order;
    order.number != 0
        && !now.waived
        && whole
        && !is_set_to(now.program, order.image, order.version)
        && room >= START_COMMITS
}

/// What the next start chooses by.
fn start_facts(volume: &Volume, seen: &[Option<ImageSeen>]) -> StartFacts
    requires { length seen.now ≡ images }
    ensures { (c : List ℕ) (s : Store) → Mounted c volume.now s
        → ((i : ℕ) → i < images → ShowsKept (held s i) (slice_index_or seen.now i None))
        → TellsFacts (once_counted s) result }
{
    let now = volume.snapshot();
    let gesture = counted_gesture(now.gesture, volume.room());
    let room = counted_room(now.gesture, volume.room());
    let whole = is_whole(&volume.kept(now.order.image), now.order.version);
    StartFacts {
        short_starts: starts_golden(gesture, room, now.program),
        waits: orders_start(&now, whole, room),
        order_sound: is_image_sound(seen, now.order.image),
        golden_sound: is_image_sound(seen, GOLDEN),
        program: now.program,
        order: now.order,
    }
}

/// What the next start by power runs.
pub(crate) fn next_start(volume: &Volume, seen: &[Option<ImageSeen>]) -> NextStart
    requires { length seen.now ≡ images }
    ensures { (c : List ℕ) (s : Store) → Mounted c volume.now s
        → ((i : ℕ) → i < images → ShowsKept (held s i) (slice_index_or seen.now i None))
        → ShowsNext s result }
{
    let facts = start_facts(volume, seen);
    choose(&facts)
}
