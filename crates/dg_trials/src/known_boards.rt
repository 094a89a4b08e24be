//! Which boards a world knows, asked before its first step and after each, and how much is read of a known board as it is
//! ordered. After a step a board is known where it is orderly, and either was known before or its mote is reset by the step.
//! The tables were worked out from this rule and the layout of a chip by hand.
ghost use Rattle.std.specs.Prelude.{◌≤◌, map, length, IfOk, OnOk};
ghost use Rattle.dg_script.specs.Ranges.{StepInRange, EventInRange};
ghost use Rattle.dg_trials.specs.OneMote.{IsOneVolume, IsOneMote};

use dg_base::{Bytes, Cut, Event, Step};
use dg_nor::{Board, Counted, Nor, program_in};
use dg_world::{World, format_boards, mount_boards};
use std::alloc::Global;
use std::test::Fail;

/// The control sector of a chip that was formatted with fewer than 32 commits counted as spent.
const CONTROL: u32 = 1;

/// The places of a control sector, and the bytes of each.
const PLACES: u8 = 32;

const PLACE_SIZE: u32 = 64;

/// What an order may read of a known board on which one slot is Live and no place is torn: twice the 484 bytes of a mount by
/// binary search, and a place.
const ORDER_READS: u64 = 1_032;

/// What happens to the mote.
#[derive(Clone, Copy, Debug)]
enum Turn {
    /// Time passes.
    Tick,
    /// It is reset.
    Reset,
    /// It is reset, and its power is cut in the operation after this many.
    CutReset { done: u16 },
    /// It gets order 1, of version 1 of image 1.
    Order,
}

/// Chips: the commits that are counted as spent, and the place whose last byte is cleared once the chip is formatted. Then
/// three steps, and what `known` answers before the first of them and after each.
///
/// - Places 1 to 31 of the first chip are blank, and what the cut leaves is in place 1. So the reset makes it known, though
///   it is cut, and the tick of a mote that is off does not.
/// - On the second chip the blank places 1 to 4 come before place 5, which is torn, and commits go from place 6 on.
/// - On the third chip the blank place 29 comes before place 30. The first reset commits to place 31, and is cut as it copies
///   golden. The second finds no free place: it commits to the other sector, which has no torn place.
const CHIPS: [(u8, Option<u8>, [Turn; 3], [bool; 4]); 3] = [
    (
        0,
        None,
        [Turn::Tick, Turn::CutReset { done: 0 }, Turn::Reset],
        [false, false, true, true],
    ),
    (
        0,
        Some(5),
        [Turn::Reset, Turn::CutReset { done: 0 }, Turn::Reset],
        [false, false, false, false],
    ),
    (
        28,
        Some(30),
        [Turn::Tick, Turn::CutReset { done: 2 }, Turn::Reset],
        [false, false, false, true],
    ),
];

/// A chip that is formatted with golden, and then has the last byte of a place cleared.
fn chip(alloc: Global, used: u8, torn: Option<u8>) -> Result<Board, Fail> {
    let mut boards = [Board::memory(alloc)?];
    if format_boards(&mut boards, 1, b"base", b"A", u32::from(used)).is_err() {
        return Err("the chip is not formatted".into());
    }
    let [mut board] = boards;
    if let Some(place) = torn {
        clear_last_byte(&mut board, place)?;
    }
    Ok(board)
}

/// Clears the last byte of a place of the control sector.
fn clear_last_byte(board: &mut Board, place: u8) -> Result<(), Fail> {
    if place >= PLACES {
        return Err("there is no such place".into());
    }
    let offset = PLACE_SIZE * u32::from(place) + PLACE_SIZE - 1;
    match program_in(board, CONTROL, offset, &[0x00]) {
        Ok(()) => Ok(()),
        Err(_) => Err("the chip is stopped".into()),
    }
}

/// Mounts the first of these boards.
fn mount_first<N: Nor>(boards: &mut [N]) -> Result<(), Fail>
    requires { 1 ≤ length boards.old }
    ensures { OnOk result (IsOneVolume (map N.device boards.new)) }
{
    match mount_boards(boards, 1) {
        Ok(()) => Ok(()),
        Err(_) => Err("the board is not a volume".into()),
    }
}

/// The same of a vector of boards.
fn mount<N: Nor>(boards: &mut Vec<N>) -> Result<(), Fail>
    ensures { OnOk result (IsOneVolume (map N.device boards.new.items)) }
{
    if boards.is_empty() {
        return Err("there is no board".into());
    }
    mount_first(boards.as_mut_slice())
}

/// A world of one mote, which is off, over its board.
fn world_over<N: Nor>(alloc: Global, boards: &mut Vec<N>) -> Result<World, Fail>
    ensures { IfOk result (λ v. IsOneMote v (map N.device boards.new.items)) }
{
    mount(boards)?;
    Ok(World::new(alloc, 1)?)
}

/// The step of a turn.
fn step_of(alloc: Global, turn: Turn) -> Result<Step, Fail>
    ensures { IfOk result (λ x. StepInRange 1 x) }
{
    let cut = match turn {
        Turn::CutReset { done } => Some(cut_after(alloc, done)?),
        _ => None,
    };
    Ok(Step {
        event: event_of(turn),
        cut,
    })
}

/// The event of a turn.
fn event_of(turn: Turn) -> Event
    ensures { EventInRange 1 result }
{
    match turn {
        Turn::Tick => Event::Tick {
            mote: 0,
            dt: 0,
            word: 0,
        },
        Turn::Reset | Turn::CutReset { .. } => Event::Reset {
            mote: 0,
            dt: 0,
            word: 0,
        },
        Turn::Order => Event::Order {
            mote: 0,
            number: 1,
            image: 1,
            version: 1,
            dt: 0,
            word: 0,
        },
    }
}

/// A cut in the operation after this many, which leaves some bits as they were and some finished.
fn cut_after(alloc: Global, done: u16) -> Result<Cut, Fail> {
    Ok(Cut {
        after: u32::from(done) + 1,
        mask: Bytes::new(Vec::from_slice(alloc, &[0xA5])?),
    })
}

/// Whether the board of the mote is known after a turn.
fn known_after<N: Nor>(
    alloc: Global,
    world: &mut World,
    boards: &mut Vec<N>,
    turn: Turn,
) -> Result<bool, Fail>
    requires { IsOneMote world.old (map N.device boards.old.items) }
    ensures { OnOk result (IsOneMote world.new (map N.device boards.new.items)) }
{
    let step = step_of(alloc, turn)?;
    match world.apply(boards, &step, false, &mut Vec::new(alloc)) {
        Ok(()) => Ok(world.known(0)),
        Err(_) => Err("the step is not played".into()),
    }
}

/// Whether the board of the mote is known before three turns, and after each.
fn known_along(alloc: Global, board: Board, turns: [Turn; 3]) -> Result<[bool; 4], Fail> {
    let mut boards = Vec::from_array(alloc, [board])?;
    let mut world = world_over(alloc, &mut boards)?;
    let before = world.known(0);
    let first = known_after(alloc, &mut world, &mut boards, turns[0])?;
    let second = known_after(alloc, &mut world, &mut boards, turns[1])?;
    let third = known_after(alloc, &mut world, &mut boards, turns[2])?;
    Ok([before, first, second, third])
}

/// How many bytes were read of the first board.
fn taken_of(boards: &[Counted<Board>]) -> Result<u64, Fail> {
    if boards.is_empty() {
        return Err("there is no board".into());
    }
    Ok(boards[0].taken())
}

/// How many bytes an order reads of a fresh board, whose mote was reset before or not.
fn order_reads(alloc: Global, is_reset: bool) -> Result<u64, Fail> {
    let mut board = chip(alloc, 0, None)?;
    let mut boards = Vec::new(alloc);
    boards.push(Counted::new(&mut board))?;
    let mut world = world_over(alloc, &mut boards)?;
    let before = if is_reset { Turn::Reset } else { Turn::Tick };
    known_after(alloc, &mut world, &mut boards, before)?;
    let from = taken_of(&boards)?;
    known_after(alloc, &mut world, &mut boards, Turn::Order)?;
    Ok(taken_of(&boards)?.saturating_sub(from))
}

#[test]
fn a_world_knows_orderly_boards_from_a_reset_on(rt: HostRuntime) -> Result<(), Fail> {
    for (used, torn, turns, wanted) in CHIPS {
        let board = chip(rt.alloc(), used, torn)?;
        let known = known_along(rt.alloc(), board, turns)?;
        assert!(rt; known == wanted, "{used} {torn:?}");
    }
    Ok(())
}

#[test]
fn an_order_reads_little_of_a_known_board(rt: HostRuntime) -> Result<(), Fail> {
    assert!(rt; order_reads(rt.alloc(), true)? <= ORDER_READS);
    // the ledger alone, which is read whole where the board is not known, has 2,048 bytes
    assert!(rt; order_reads(rt.alloc(), false)? > ORDER_READS);
    Ok(())
}
