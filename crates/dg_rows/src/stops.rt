//! A run over a chip that stops at each operation of the run in turn. What is written by then, and what stands on the chip, was
//! worked out by hand, from the operations of each event and from what an interrupted operation leaves.
ghost use Rattle.std.specs.Prelude.{◌<◌};
ghost use Rattle.dg_nor.specs.Sizes.{sectors};

use crate::chips::Chip;
use crate::outside::{CALM, MASK_SIZE, Outside};
use crate::row::{Came, Row};
use crate::runner::Runner;
use dg_base::Status;
use dg_nor::{Board, Stopped, read_in};
use std::alloc::{AllocError, Global};

/// A committed place by which program memory is Set to version 9 of image 3: slot 0 is Live with version 1, the others
/// are Dirty, and there is no order. Left in a sector by an erase that is interrupted, it stands there 32 times.
const FORGED: [u8; MASK_SIZE] = [
    0x7F, 0x02, 0x01, 0x00, 0x00, 0x00, 0x01, 0x00, 0x00, 0x00, 0x00, 0x00, 0x00, 0x00, 0x00, 0x00,
    0x00, 0x00, 0x00, 0x00, 0x00, 0x00, 0x00, 0x00, 0x00, 0x00, 0x00, 0x00, 0x00, 0x00, 0x00, 0x00,
    0x00, 0x00, 0x00, 0x00, 0x00, 0x01, 0x03, 0x00, 0x00, 0x00, 0x09, 0x00, 0x00, 0x00, 0x00, 0x00,
    0x00, 0x00, 0x00, 0x00, 0x00, 0x00, 0xFF, 0xFF, 0xFF, 0xFF, 0xFF, 0xFF, 0xFF, 0xFF, 0xFF, 0xFF,
];

/// What interrupted operations leave: the finished bytes, the old ones, some bits of each, and a place that was never
/// written.
pub(crate) const MASKS: [[u8; MASK_SIZE]; 4] = [
    [0x00; MASK_SIZE],
    [0xFF; MASK_SIZE],
    [0xA5; MASK_SIZE],
    FORGED,
];

/// An image is injected into a chip with golden alone, is ordered and started.
const SCRIPT: &[u8] =
    b"motes 1\nboards\nimage 1 1 blink hex:313233343536373839\nreset 0 0 0\ninject 0 1 1 0 0\ntick 0 5000 0\n\
      order 0 1 1 1 0 0\nreset 0 0 0\n";

/// The words of the injection of that image, and its input.
const INJECT: &str = "inject --image 1 --ver 1 --name blink f";

const BLINK: &[u8] = b":090000003132333435363738391A\n:00000001FF\n";

/// What each of its events reports, and then its end.
const REPORTS: [&str; 6] = [
    "start 0 0 1 1 58e5\n",
    "have 0 1 1 2\n",
    "",
    "order 0 1 1 1\n",
    "start 0 1 1 9 31c3\n",
    "end 5\nmote 0 on 1 1\nkept 0 1 1 2\n",
];

/// The descriptors: image, pages, version, length, name, and the CRC of the page of content, which was computed by Python's
/// `binascii.crc_hqx`. The rest of each page is FF.
const GOLDEN_DESCRIPTOR: &[u8] =
    b"DG\x00\x02\x00\x00\x00\x01\x00\x00\x00\x01base\x00\x00\x00\x00\x00\x00\x00\x00\x00\x00\x00\x00\xF0\x93";

const IMAGE_DESCRIPTOR: &[u8] =
    b"DG\x01\x02\x00\x00\x00\x01\x00\x00\x00\x09blink\x00\x00\x00\x00\x00\x00\x00\x00\x00\x00\x00\x32\xA5";

/// The content of golden, and that of the image.
const GOLDEN_CONTENT: &[u8] = b"A";

const IMAGE_CONTENT: &[u8] = b"123456789";

/// The bytes of a page.
const PAGE_SIZE: usize = 1104;

/// The commits of a new chip. With 31 of them spent no place is free, so that the next one hands over to the other sector.
const MOST_ROOM: u32 = 520_223;

const SPENT: u32 = 31;

/// The first sector of program memory, and that of the pages of the image's slot.
const PROGRAM_MEMORY: u32 = 3;

const SLOT: u32 = 135;

/// What stands on the chip beside golden.
#[derive(Clone, Copy)]
struct Stand {
    /// The complete pages of the image, where its slot is taken.
    done: Option<u8>,
    /// The image to which program memory is set.
    program: Option<u8>,
    ordered: bool,
    /// The short starts.
    gesture: u8,
    /// The commits that were spent since the chip was formatted.
    spent: u32,
}

const FORMATTED: Stand = Stand {
    done: None,
    program: None,
    ordered: false,
    gesture: 0,
    spent: 0,
};

/// How a step of the run ends.
#[derive(Clone, Copy)]
enum End {
    /// By the two operations of a commit: all bytes of a place but the first, and then the first.
    Commit,
    /// By an operation that clears this bit of a byte: the gate of a page, or the last one of a hand-over.
    Bit(u8),
}

/// A step from one store to the next: its event, its operations, how it ends, and what stands then.
type Step = (usize, u32, End, Option<u8>, Option<u8>, bool, u8, u32);

/// The 154 operations of the run.
const STEPS: [Step; 10] = [
    // The start is counted. Two pages are copied by an erase and 8 programs each, and program memory is set to golden.
    (0, 2, End::Commit, None, None, false, 1, 1),
    (0, 20, End::Commit, None, Some(0), false, 1, 2),
    // The slot is taken by an erase, a header and a commit. A page is an erase, 48 packets and a gate.
    (1, 4, End::Commit, Some(0), Some(0), false, 1, 3),
    (1, 50, End::Bit(0x80), Some(1), Some(0), false, 1, 3),
    (1, 50, End::Bit(0x40), Some(2), Some(0), false, 1, 3),
    // The short starts are cleared, and the order is kept.
    (2, 2, End::Commit, Some(2), Some(0), false, 0, 4),
    (3, 2, End::Commit, Some(2), Some(0), true, 0, 5),
    // The start is counted. Program memory is committed as blank, and the image is copied before it is set to it.
    (4, 2, End::Commit, Some(2), Some(0), true, 1, 6),
    (4, 2, End::Commit, Some(2), None, true, 1, 7),
    (4, 20, End::Commit, Some(2), Some(1), true, 1, 8),
];

/// The first step where no place is free: an erase, a place by two programs, and a bit of the ledger.
const HANDED_OVER: Step = (0, 4, End::Bit(0x80), None, None, false, 1, 1);

/// What a run leaves: whether it was stopped, how many of the reports are written, and what stands on the chip.
#[derive(Clone, Copy)]
struct Left {
    stopped: bool,
    reports: usize,
    stand: Stand,
}

/// What stands after an operation that is interrupted, with this many after it in its step. A program of one bit is done
/// where the mask has it cleared. A commit that is interrupted takes its place, unless the mask leaves that blank.
fn left_in(before: Stand, next: Stand, end: End, behind: u32, mask: &[u8; MASK_SIZE]) -> Stand {
    let mut torn = before;
    torn.spent = before.spent.saturating_add(1);
    match (end, behind) {
        (End::Bit(bit), 0) => { if mask[0] & bit == 0 { next } else { before } }
        (End::Commit, 0) => { if mask[0] & 0x80 == 0 { next } else { torn } }
        (End::Commit, 1) => { if mask[0] == 0xFF { before } else { torn } }
        _ => before,
    }
}

/// The operations of the run.
fn operations(used: u32) -> u32 {
    if used == SPENT { 156 } else { 154 }
}

/// What a run that is stopped at operation `after` leaves, on a chip with this many commits spent.
fn left_at(used: u32, after: u32, mask: &[u8; MASK_SIZE]) -> Left {
    let mut steps = STEPS;
    if used == SPENT {
        steps[0] = HANDED_OVER;
    }
    let mut stand = FORMATTED;
    let mut rest = after;
    for (event, operations, end, done, program, ordered, gesture, spent) in steps {
        let next = Stand {
            done,
            program,
            ordered,
            gesture,
            spent,
        };
        if rest <= operations {
            return Left {
                stopped: true,
                reports: event,
                stand: left_in(stand, next, end, operations - rest, mask),
            };
        }
        rest -= operations;
        stand = next;
    }
    Left {
        stopped: false,
        reports: REPORTS.len(),
        stand,
    }
}

/// The first of the reports.
fn reported(alloc: Global, count: usize) -> Result<Vec<u8>, AllocError> {
    let mut text = Vec::new(alloc);
    for report in REPORTS.iter().take(count) {
        text.extend_from_slice(report.as_bytes())?;
    }
    Ok(text)
}

/// What `ping` reports of a chip.
fn told(alloc: Global, stand: Stand, used: u32) -> Result<String, AllocError> {
    let program = match stand.program {
        None => "blank",
        Some(0) => "0 1",
        Some(_) => "1 1",
    };
    let order = if stand.ordered { "1 1 1" } else { "none" };
    let kept = match stand.done {
        None => "",
        Some(0) => "kept 1 1 0 2 -\n",
        Some(1) => "kept 1 1 1 2 blink\n",
        Some(_) => "kept 1 1 2 2 blink\n",
    };
    let gesture = stand.gesture;
    let room = MOST_ROOM.saturating_sub(used).saturating_sub(stand.spent);
    format!(in alloc;
        "golden base 1\nprogram {program}\norder {order}\ngesture {gesture}\nroom {room}\n{kept}"
    )
}

/// Whether a page stands in a sector: these bytes, and then FF.
fn holds(board: &mut Board, sector: u32, front: &[u8]) -> Result<bool, Stopped>
    requires { sector < sectors }
{
    let mut page = [0; PAGE_SIZE];
    read_in(board, sector, 0, &mut page)?;
    for (k, byte) in page.iter().enumerate() {
        if *byte != *front.get(k).unwrap_or(&0xFF) {
            return Ok(false);
        }
    }
    Ok(true)
}

/// Whether the slot and program memory hold the pages that they should.
fn pages_stand(board: &mut Board, stand: Stand) -> Result<bool, Stopped> {
    let done = stand.done.unwrap_or(0);
    let first = done < 1 || holds(board, SLOT, IMAGE_DESCRIPTOR)?;
    let second = done < 2 || holds(board, SLOT + 1, IMAGE_CONTENT)?;
    let (descriptor, content) = match stand.program {
        None => return Ok(first && second),
        Some(0) => (GOLDEN_DESCRIPTOR, GOLDEN_CONTENT),
        Some(_) => (IMAGE_DESCRIPTOR, IMAGE_CONTENT),
    };
    let program = holds(board, PROGRAM_MEMORY, descriptor)?
        && holds(board, PROGRAM_MEMORY + 1, content)?;
    Ok(first && second && program)
}

/// Plays a command without a fault over chips.
fn play<R: Runner>(
    alloc: Global,
    runner: &R,
    words: &str,
    input: &[u8],
    outside: &Outside,
    chips: &mut [Chip],
) -> Result<Came, AllocError> {
    let mut row = Row::new(alloc, 0, words)?;
    row.take("<", input)?;
    row.play(alloc, runner, outside, chips)
}

/// The operations that an injection needs where this many pages are complete, or where its slot was not taken.
fn rest(done: Option<u8>) -> u32 {
    match done {
        None => 104,
        Some(0) => 100,
        Some(1) => 50,
        Some(_) => 0,
    }
}

/// Whether the chip continues as it must: the injection is made again, without writing what was complete, and then a start runs
/// the image where that is ordered, and golden else.
fn goes_on<R: Runner>(
    alloc: Global,
    runner: &R,
    chips: &mut [Chip],
    used: u32,
    stand: Stand,
) -> Result<bool, AllocError> {
    let mut outside = CALM;
    if used == 0 {
        outside.stop = rest(stand.done).saturating_add(1);
    }
    let injected = play(alloc, runner, INJECT, BLINK, &outside, chips)?;
    let started = play(alloc, runner, "boot f", b"", &CALM, chips)?;
    let [golden, _, _, _, image, _] = REPORTS;
    let runs = if stand.ordered { image } else { golden };
    Ok(
        injected.written.as_slice() == b"have 0 1 1 2\n".as_slice()
            && started.written.as_slice() == runs.as_bytes(),
    )
}

/// Runs over a copy of a chip, which stops at an operation. It answers whether that leaves what it must.
fn stops_well<R: Runner>(
    alloc: Global,
    runner: &R,
    board: &Board,
    used: u32,
    after: u32,
    mask: &[u8; MASK_SIZE],
) -> Result<bool, AllocError> {
    let mut chips = Vec::new(alloc);
    chips.push(Chip {
        name: String::from_str(alloc, "f")?,
        board: board.copy(alloc)?,
    })?;
    let mut outside = CALM;
    outside.stop = after;
    outside.mask = *mask;
    let came = play(alloc, runner, "replay f", SCRIPT, &outside, &mut chips)?;
    let left = left_at(used, after, mask);
    let status = if left.stopped {
        Status::FlashFault
    } else {
        Status::Done
    };
    let pinged = play(alloc, runner, "ping f", b"", &CALM, &mut chips)?;
    let mut stand = false;
    for chip in chips.iter_mut() {
        stand = pages_stand(&mut chip.board, left.stand).unwrap_or(false);
    }
    Ok(
        stand
            && came.status == status.code()
            && came.written == reported(alloc, left.reports)?
            && pinged.written.as_slice() == told(alloc, left.stand, used)?.as_bytes(),
    )
}

/// Stops the run at each of its operations and after the last. It answers, for each, whether that leaves what it must.
pub(crate) fn stop_at_each<R: Runner>(
    alloc: Global,
    runner: &R,
    board: &Board,
    used: u32,
    mask: &[u8; MASK_SIZE],
) -> Result<Vec<bool>, AllocError> {
    let mut right = Vec::new(alloc);
    for after in 1..=operations(used).saturating_add(1) {
        right.push(stops_well(alloc, runner, board, used, after, mask)?)?;
    }
    Ok(right)
}
