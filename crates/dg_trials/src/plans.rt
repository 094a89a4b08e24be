//! Acts that are planned over a chip in memory. Carried out on it, the commands leave what the acts themselves leave on a
//! board. A shorter list is a prefix of the whole one.
ghost use Rattle.std.specs.Prelude.{◌≡◌, IfOk, length, vec_len};
ghost use Rattle.dg_nor.specs.Sizes.{chip_size};

use dg_bits::PageBits;
use dg_nor::{Board, CHIP_SIZE, Counted, Nor};
use dg_object::{PACKET_SIZE, PACKETS, PAGE_SIZE, PacketBytes, Profile, page_of, profile_of};
use dg_plan::{Command, PageName, Plan, inject, order, packet, put_packet, seal, start, take};
use dg_volume::{FORM, Order, StartCause, Volume};
use std::alloc::Global;
use std::test::Fail;

pub(crate) const MOST_COMMANDS: usize = 160;

pub(crate) const MOST_BYTES: usize = 4_096;

pub(crate) const NONE: Command = Command {
    kind: 0,
    at: 0,
    from: 0,
    count: 0,
};

pub(crate) const NAME: &[u8] = b"blink";

pub(crate) const BYTES: &[u8] = b"123456789";

pub(crate) const OTHER: &[u8] = b"an image of another number";

/// What is planned.
#[derive(Clone, Copy, Debug, PartialEq, Eq)]
pub(crate) enum Act {
    Take,
    Packet { page: u8, packet: u8 },
    Seal { page: u8 },
    Order,
    Start,
    Inject,
}

pub(crate) fn announced() -> Profile
    ensures { result.image ≡ 1 }
{
    profile_of(BYTES, 1, 1, NAME)
}

fn packet_of(page: u8, packet: u8) -> PacketBytes {
    let mut bytes = [0; PACKET_SIZE];
    let mut whole = [0; PAGE_SIZE];
    if page < 2 && packet < PACKETS as u8 {
        page_of(BYTES, 1, 1, NAME, page, &mut whole);
        let from = PACKET_SIZE * usize::from(packet);
        bytes.copy_from_slice(&whole[from..from + PACKET_SIZE]);
    }
    bytes
}

/// The packets of a page before one.
pub(crate) fn before(packet: u8) -> PageBits<PACKETS> {
    let mut got = PageBits::none();
    for q in 0..packet.min(PACKETS as u8) {
        got.set(q);
    }
    got
}

pub(crate) fn named(page: u8) -> PageName
    ensures image { result.image ≡ 1 }
    ensures version { result.version ≡ 1 }
{
    PageName {
        image: 1,
        version: 1,
        page,
    }
}

/// Plans an act, and returns whether it was planned.
fn plan_act(plan: &mut Plan<'_>, act: Act) -> bool {
    match act {
        Act::Take => take(plan, &announced()).is_ok(),
        Act::Packet { page, packet: q } => {
            packet(plan, named(page), before(q), q, &packet_of(page, q)).is_ok()
        }
        Act::Seal { page } => seal(plan, named(page)).is_ok(),
        Act::Order => order(plan, ordered(1)).is_ok(),
        Act::Start => start(plan, StartCause::Order).is_ok(),
        Act::Inject => inject(plan, 2, 1, NAME, OTHER).is_ok(),
    }
}

pub(crate) fn ordered(number: u32) -> Order {
    Order {
        number,
        image: 1,
        version: 1,
    }
}

/// Plans an act over a chip with these lists. Returns whether it was planned, how many commands there are, and how many bytes.
fn planned_in<'a>(
    chip: &'a [u8],
    commands: &'a mut [Command],
    bytes: &'a mut [u8],
    act: Act,
) -> (bool, usize, usize) {
    if chip.len() != CHIP_SIZE as usize {
        return (false, 0, 0);
    }
    let mut plan = Plan::new(chip, commands, bytes);
    let done = plan_act(&mut plan, act);
    let count = plan.count();
    (done, count, bytes_used(commands, count))
}

/// How many bytes these commands program: each has its own, after those of the one before.
fn bytes_used(commands: &[Command], count: usize) -> usize {
    let mut used = 0;
    for k in 0..count.min(commands.len()) {
        let command = commands[k];
        if command.kind == 2 {
            used = command.from as usize + command.count as usize;
        }
    }
    used
}

fn byte_at(bytes: &[u8], at: usize) -> u8 {
    match bytes.get(at) {
        Some(byte) => *byte,
        None => 0,
    }
}

/// Carries a command out.
fn carry_out(chip: &mut [u8], command: &Command, bytes: &[u8]) {
    for k in 0..command.count as usize {
        let from = command.from as usize + k;
        let mask = match command.kind {
            2 => byte_at(bytes, from),
            _ => byte_at(chip, from),
        };
        if let Some(cell) = chip.get_mut(command.at as usize + k) {
            *cell = if command.kind == 1 {
                0xFF
            } else {
                *cell & mask
            };
        }
    }
}

pub(crate) fn chip_of(alloc: Global, board: &mut Board) -> Result<Vec<u8>, Fail>
    ensures { IfOk result (λ v. vec_len v ≡ chip_size) }
{
    let mut chip = Vec::with_capacity(alloc, CHIP_SIZE as usize)?;
    chip.resize(CHIP_SIZE as usize, 0)?;
    board.read(0, chip.as_mut_slice())?;
    Ok(chip)
}

pub(crate) fn formatted(alloc: Global) -> Result<Board, Fail> {
    let mut board = Board::memory(alloc)?;
    Volume::format(&mut board, b"A", b"base", 0, FORM)?;
    Ok(board)
}

/// Plans an act in full, then with each shorter list, and carries it out. Returns whether each shorter list is a prefix of the
/// whole one.
pub(crate) fn made(chip: &mut [u8], act: Act) -> bool {
    let mut commands = [NONE; MOST_COMMANDS];
    let mut bytes = [0; MOST_BYTES];
    let (done, count, used) = planned_in(chip, &mut commands, &mut bytes, act);
    let mut alike = done;
    for few in 0..count.min(MOST_COMMANDS) {
        alike = begins(chip, &commands, &bytes, few, MOST_BYTES, act) && alike;
    }
    if used > 0 {
        alike = begins(chip, &commands, &bytes, MOST_COMMANDS, used - 1, act) && alike;
    }
    for k in 0..count.min(MOST_COMMANDS) {
        let command = commands[k];
        carry_out(chip, &command, &bytes);
    }
    alike
}

/// Whether lists of this room stop an act, and are a prefix of these.
fn begins(
    chip: &[u8],
    whole: &[Command],
    whole_bytes: &[u8],
    most: usize,
    most_bytes: usize,
    act: Act,
) -> bool {
    let mut commands = [NONE; MOST_COMMANDS];
    let mut bytes = [0; MOST_BYTES];
    let (done, count, used) = planned_in(
        chip,
        &mut commands[..most.min(MOST_COMMANDS)],
        &mut bytes[..most_bytes.min(MOST_BYTES)],
        act,
    );
    if done || (count != most && most_bytes == MOST_BYTES) {
        return false;
    }
    whole.starts_with(&commands[..count.min(MOST_COMMANDS)])
        && whole_bytes.starts_with(&bytes[..used.min(MOST_BYTES)])
}

#[test]
fn planned_acts_make_what_acts_make(rt: HostRuntime) -> Result<(), Fail> {
    let mut board = formatted(rt.alloc())?;
    let mut chip = chip_of(rt.alloc(), &mut board)?;
    assert!(rt; made(chip.as_mut_slice(), Act::Take));
    for page in 0..2 {
        for packet in 0..PACKETS as u8 {
            assert!(rt; made(chip.as_mut_slice(), Act::Packet { page, packet }));
        }
        assert!(rt; made(chip.as_mut_slice(), Act::Seal { page }));
    }
    let mut volume = Volume::mount(&mut board)?;
    volume.inject(&mut board, 1, 1, NAME, BYTES)?;
    assert!(rt; chip == chip_of(rt.alloc(), &mut board)?, "filled");

    assert!(rt; made(chip.as_mut_slice(), Act::Order));
    let mut volume = Volume::mount(&mut board)?;
    volume.order(&mut board, 1, 1, 1)?;
    assert!(rt; chip == chip_of(rt.alloc(), &mut board)?, "ordered");

    assert!(rt; made(chip.as_mut_slice(), Act::Start));
    assert!(rt; dg_boot::start(&mut board, StartCause::Order).is_ok());
    assert!(rt; chip == chip_of(rt.alloc(), &mut board)?, "started");

    assert!(rt; made(chip.as_mut_slice(), Act::Inject));
    let mut volume = Volume::mount(&mut board)?;
    volume.inject(&mut board, 2, 1, NAME, OTHER)?;
    assert!(rt; chip == chip_of(rt.alloc(), &mut board)?, "injected");
    Ok(())
}

/// A packet reads the header of its slot, and nothing else.
#[test]
fn a_packet_reads_19_bytes(rt: HostRuntime) -> Result<(), Fail> {
    let mut board = formatted(rt.alloc())?;
    let mut volume = Volume::mount(&mut board)?;
    let slot = volume.take(&mut board, 1, &announced())?;
    volume.put_back(slot);
    for q in 0..2 {
        let got = before(q);
        assert!(rt; !got.has(q));
        let mut counted = Counted::new(&mut board);
        let put = put_packet(&mut counted, named(0), got, q, &packet_of(0, q));
        assert_eq!(rt; put, Ok(()));
        assert_eq!(rt; counted.taken(), 19);
    }
    Ok(())
}
