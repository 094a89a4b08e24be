//! Each fault of each act that is planned, and what it leaves.
ghost use Rattle.std.specs.Prelude.{◌≡◌, IfOk, length, vec_len};
ghost use Rattle.dg_nor.specs.Sizes.{chip_size};

use crate::plans::{
    Act, BYTES, MOST_BYTES, MOST_COMMANDS, NAME, NONE, OTHER, announced, before, chip_of,
    formatted, made, named, ordered,
};
use dg_base::crc16;
use dg_bits::PageBits;
use dg_nor::Board;
use dg_object::{PACKET_SIZE, PACKETS, PAGE_SIZE};
use dg_plan::{
    ActFault, PacketFault, PageName, Plan, SealFault, inject, order, packet, seal, take,
};
use dg_volume::{InjectFault, Order, OrderFault};
use std::alloc::Global;
use std::test::Fail;

const LONG: [u8; 70_657] = [0; 70_657];

/// A chip with golden, on which the slot of image 1 was taken.
fn taken(alloc: Global) -> Result<Vec<u8>, Fail>
    ensures { IfOk result (λ v. vec_len v ≡ chip_size) }
{
    let mut board = formatted(alloc)?;
    let mut chip = chip_of(alloc, &mut board)?;
    made(chip.as_mut_slice(), Act::Take);
    Ok(chip)
}

const PACKET_FAULTS: [(u8, u32, u8, u8, usize, PacketFault); 9] = [
    (7, 1, 0, 0, 2, PacketFault::OutOfRange),
    (1, 0, 0, 0, 2, PacketFault::OutOfRange),
    (1, 1, 0, 48, 2, PacketFault::OutOfRange),
    (1, 2, 0, 0, 2, PacketFault::NotKept),
    (2, 1, 0, 0, 2, PacketFault::NotKept),
    (1, 1, 1, 0, 2, PacketFault::NotNext { next: 0 }),
    (0, 1, 0, 0, 2, PacketFault::NotNext { next: 2 }),
    (0, 1, 2, 0, 2, PacketFault::NotNext { next: 2 }),
    (1, 1, 0, 0, 1, PacketFault::Stopped),
];

#[test]
fn each_fault_of_a_packet(rt: HostRuntime) -> Result<(), Fail> {
    let chip = taken(rt.alloc())?;
    for (image, version, page, q, room, fault) in PACKET_FAULTS {
        let mut commands = [NONE; MOST_COMMANDS];
        let mut data = [0; MOST_BYTES];
        let name = PageName {
            image,
            version,
            page,
        };
        let mut plan = Plan::new(
            chip.as_slice(),
            &mut commands[..room.min(MOST_COMMANDS)],
            &mut data,
        );
        let none = PageBits::none();
        assert_eq!(rt;
            packet(&mut plan, name, none, q, &[0; PACKET_SIZE]),
            Err(fault),
            "{name:?}"
        );
    }
    let mut commands = [NONE; MOST_COMMANDS];
    let mut data = [0; MOST_BYTES];
    let mut plan = Plan::new(chip.as_slice(), &mut commands, &mut data);
    let got = packet(&mut plan, named(0), before(1), 0, &[0; PACKET_SIZE]);
    assert_eq!(rt; got, Err(PacketFault::Put));
    assert_eq!(rt; plan.count(), 0);
    Ok(())
}

const SEAL_FAULTS: [(u8, u32, u8, SealFault); 5] = [
    (1, 2, 0, SealFault::NotKept),
    (2, 1, 0, SealFault::NotKept),
    (1, 1, 1, SealFault::NotNext { next: 0 }),
    (0, 1, 0, SealFault::NotNext { next: 2 }),
    (0, 1, 2, SealFault::NotNext { next: 2 }),
];

fn sealed(chip: &[u8], name: PageName, room: usize) -> Result<(), ActFault<SealFault>>
    requires { length chip.now ≡ chip_size }
{
    let mut commands = [NONE; MOST_COMMANDS];
    let mut data = [0; MOST_BYTES];
    let mut plan = Plan::new(chip, &mut commands[..room.min(MOST_COMMANDS)], &mut data);
    seal(&mut plan, name)
}

#[test]
fn each_fault_of_a_seal(rt: HostRuntime) -> Result<(), Fail> {
    let mut chip = taken(rt.alloc())?;
    for (image, version, page, fault) in SEAL_FAULTS {
        let name = PageName {
            image,
            version,
            page,
        };
        assert_eq!(rt;
            sealed(chip.as_slice(), name, 1),
            Err(ActFault::Act(fault)),
            "{name:?}"
        );
    }
    let outside = PageName {
        image: 7,
        version: 1,
        page: 0,
    };
    assert_eq!(rt;
        sealed(chip.as_slice(), outside, 1),
        Err(ActFault::OutOfRange)
    );

    // no packet is there
    let blank = crc16(&[0xFF; PAGE_SIZE]);
    let kept = announced().crc;
    assert_eq!(rt;
        sealed(chip.as_slice(), named(0), 1),
        Err(ActFault::Act(SealFault::Bad { kept, found: blank }))
    );

    for packet in 0..PACKETS as u8 {
        assert!(rt; made(chip.as_mut_slice(), Act::Packet { page: 0, packet }));
    }
    assert_eq!(rt;
        sealed(chip.as_slice(), named(0), 0),
        Err(ActFault::Act(SealFault::Stopped))
    );
    assert_eq!(rt; sealed(chip.as_slice(), named(0), 1), Ok(()));
    Ok(())
}

#[test]
fn each_fault_of_an_order(rt: HostRuntime) -> Result<(), Fail> {
    let chip = taken(rt.alloc())?;
    for (number, image, version) in [(0, 1, 1), (1, 7, 1), (1, 1, 0)] {
        let mut commands = [NONE; MOST_COMMANDS];
        let mut data = [0; MOST_BYTES];
        let mut plan = Plan::new(chip.as_slice(), &mut commands, &mut data);
        let wanted = Order {
            number,
            image,
            version,
        };
        assert_eq!(rt;
            order(&mut plan, wanted),
            Err(ActFault::OutOfRange),
            "{wanted:?}"
        );
        assert_eq!(rt; order(&mut plan, ordered(5)), Ok(()));
        assert_eq!(rt;
            order(&mut plan, ordered(5)),
            Err(ActFault::Act(OrderFault::OldOrder { kept: 5 }))
        );
    }
    let mut commands = [NONE; MOST_COMMANDS];
    let mut data = [0; MOST_BYTES];
    let mut plan = Plan::new(chip.as_slice(), &mut commands[..1], &mut data);
    assert_eq!(rt;
        order(&mut plan, ordered(1)),
        Err(ActFault::Act(OrderFault::Stopped))
    );
    assert_eq!(rt; order(&mut plan, ordered(1)), Err(ActFault::Unread));
    Ok(())
}

#[test]
fn each_fault_of_an_injection(rt: HostRuntime) -> Result<(), Fail> {
    let chip = taken(rt.alloc())?;
    let faults: [(u8, u32, &[u8], &[u8], ActFault<InjectFault>); 7] = [
        (7, 1, NAME, BYTES, ActFault::OutOfRange),
        (1, 0, NAME, BYTES, ActFault::OutOfRange),
        (1, 1, b"two words", BYTES, ActFault::OutOfRange),
        (1, 1, NAME, b"", ActFault::Act(InjectFault::Empty)),
        (0, 1, NAME, BYTES, ActFault::Act(InjectFault::Reserved)),
        (1, 1, NAME, OTHER, ActFault::Act(InjectFault::Taken)),
        (2, 1, NAME, &LONG, ActFault::Act(InjectFault::TooLarge)),
    ];
    for (image, version, name, bytes, fault) in faults {
        let mut commands = [NONE; MOST_COMMANDS];
        let mut data = [0; MOST_BYTES];
        let mut plan = Plan::new(chip.as_slice(), &mut commands, &mut data);
        assert_eq!(rt;
            inject(&mut plan, image, version, name, bytes),
            Err(fault),
            "{fault:?}"
        );
        assert_eq!(rt; plan.count(), 0, "{fault:?}");
    }
    Ok(())
}

#[test]
fn a_chip_that_is_no_volume(rt: HostRuntime) -> Result<(), Fail> {
    let mut board = Board::memory(rt.alloc())?;
    let chip = chip_of(rt.alloc(), &mut board)?;
    let mut commands = [NONE; MOST_COMMANDS];
    let mut data = [0; MOST_BYTES];
    let mut plan = Plan::new(chip.as_slice(), &mut commands, &mut data);
    assert_eq!(rt; seal(&mut plan, named(0)), Err(ActFault::NotAVolume));
    assert_eq!(rt; order(&mut plan, ordered(1)), Err(ActFault::NotAVolume));
    assert!(rt; inject(&mut plan, 1, 1, NAME, BYTES) == Err(ActFault::NotAVolume));
    assert_eq!(rt; take(&mut plan, &announced()), Err(ActFault::NotAVolume));
    let got = packet(&mut plan, named(0), before(0), 0, &[0; PACKET_SIZE]);
    assert_eq!(rt; got, Err(PacketFault::NotKept));
    Ok(())
}
