//! A page that comes packet by packet, planned over a chip that C reads in place.
ghost use Rattle.std.specs.Prelude.{◌≡◌, ◌≢◌, ◌↔◌, ◌⊎◌, ◌≤◌, ℕ, true, Some, Err, OnOk, length};
ghost use Rattle.std.specs.FinSet as set;
ghost use Rattle.dg_bits.specs.Sets.{Numbers};
ghost use Rattle.dg_bits.specs.ByteForm.{numbers_of};
ghost use Rattle.dg_nor.specs.Sizes.{chip_size};
ghost use Rattle.dg_slot.specs.Layout.{packets};
ghost use Rattle.dg_slot.specs.Kept.{Held};
ghost use Rattle.dg_slot.specs.Jobs.{Packets, ArePut, put_packet};
ghost use Rattle.dg_volume.specs.Sizes.{images};
ghost use Rattle.dg_volume.specs.Store.{Store, held};
ghost use Rattle.dg_volume.specs.Stands.{Stands};
ghost use Rattle.dg_plan.specs.Packets.{sector_named, IsElsewhere, HadPut, packet_trail};
ghost use Rattle.deluge_c.specs.Answers.{done};
ghost use Rattle.deluge_c.specs.Plans.{AreActOf, BeginActOf, made, page_of_packet};

use crate::answers::{DONE, LENGTH, NOT_KEPT, NOT_NEXT, PUT, RANGE, ROOM};
use crate::messages::set_in;
use dg_frame::SET_BYTES;
use dg_nor::CHIP_SIZE;
use dg_object::PACKET_SIZE;
use dg_plan::{Command, PacketFault, PageName, Plan, packet};

/// A packet of the next page of an image, and the packets of the page that were put before: packet n by bit 7 - n % 8 of byte
/// n / 8.
#[repr(C)]
#[derive(Clone, Copy)]
pub struct PacketFields {
    pub version: u32,
    pub image: u8,
    pub page: u8,
    pub packet: u8,
    pub got: [u8; SET_BYTES],
    pub bytes: [u8; PACKET_SIZE],
}

/// Plans that a packet is put into the next page of an image: 1 command, which programs 23 bytes, and before it an erase where no
/// packet was put before. 19 bytes of the chip are read, and never more than 25.
#[unsafe(no_mangle)]
pub extern "C" fn deluge_plan_packet(
    chip: &[u8],
    fields: &PacketFields,
    commands: &mut [Command],
    bytes: &mut [u8],
    count: &mut usize,
) -> u32
    ensures planned { result ≡ done → (s : Store) → Stands chip.now s
        → AreActOf (packet_trail s (numbers_of fields.now.got)) chip.now commands.new bytes.new count.new }
    ensures put { result ≡ done → (s : Store) (h : Held) (ps : Packets) → Stands chip.now s → held s fields.now.image ≡ Some h
        → HadPut chip.now (sector_named (page_of_packet fields.now)) (numbers_of fields.now.got) ps
        → ArePut (made chip.now commands.new bytes.new count.new) (sector_named (page_of_packet fields.now))
        (set.insert (numbers_of fields.now.got) fields.now.packet) (put_packet ps fields.now.packet fields.now.bytes) }
    ensures length { (result ≡ LENGTH) ↔ (length chip.now ≢ chip_size) }
    ensures range { result ≡ RANGE → (images ≤ fields.now.image) ⊎ (fields.now.version ≡ 0) ⊎ (packets ≤ fields.now.packet) }
    ensures put_before { result ≡ PUT → set.contains (numbers_of fields.now.got) fields.now.packet ≡ true }
    ensures not_kept { result ≡ NOT_KEPT → (s : Store) (h : Held) → Stands chip.now s → held s fields.now.image ≡ Some h
        → h.version ≢ fields.now.version }
    ensures not_next { result ≡ NOT_NEXT → (s : Store) (h : Held) → Stands chip.now s → held s fields.now.image ≡ Some h
        → (next : ℕ) × IsElsewhere (page_of_packet fields.now) next h }
    ensures room { result ≡ ROOM → (s : Store) → Stands chip.now s
        → BeginActOf (packet_trail s (numbers_of fields.now.got)) chip.now commands.new bytes.new count.new }
    ensures nothing { result ≢ done → result ≢ ROOM → count.new ≡ 0 }
{
    *count = 0;
    if chip.len() != CHIP_SIZE as usize {
        return LENGTH;
    }
    let mut planned = 0;
    match plan_packet(chip, fields, commands, bytes, &mut planned) {
        Ok(()) => {
            *count = planned;
            DONE
        }
        Err(PacketFault::Stopped) => {
            *count = planned;
            ROOM
        }
        Err(PacketFault::OutOfRange) => RANGE,
        Err(PacketFault::Put) => PUT,
        Err(PacketFault::NotKept) => NOT_KEPT,
        Err(PacketFault::NotNext { .. }) => NOT_NEXT,
    }
}

/// Plans a packet over a chip of the whole size.
fn plan_packet(
    chip: &[u8],
    fields: &PacketFields,
    commands: &mut [Command],
    bytes: &mut [u8],
    count: &mut usize,
) -> Result<(), PacketFault>
    requires { length chip.now ≡ chip_size }
    ensures planned { OnOk result ((s : Store) → Stands chip.now s
        → AreActOf (packet_trail s (numbers_of fields.now.got)) chip.now commands.new bytes.new count.new) }
    ensures put { OnOk result ((s : Store) (h : Held) (ps : Packets) → Stands chip.now s → held s fields.now.image ≡ Some h
        → HadPut chip.now (sector_named (page_of_packet fields.now)) (numbers_of fields.now.got) ps
        → ArePut (made chip.now commands.new bytes.new count.new) (sector_named (page_of_packet fields.now))
        (set.insert (numbers_of fields.now.got) fields.now.packet) (put_packet ps fields.now.packet fields.now.bytes)) }
    ensures range { result ≡ Err PacketFault.OutOfRange
        → (images ≤ fields.now.image) ⊎ (fields.now.version ≡ 0) ⊎ (packets ≤ fields.now.packet) }
    ensures put_before { result ≡ Err PacketFault.Put
        → set.contains (numbers_of fields.now.got) fields.now.packet ≡ true }
    ensures not_kept { result ≡ Err PacketFault.NotKept → (s : Store) (h : Held) → Stands chip.now s
        → held s fields.now.image ≡ Some h → h.version ≢ fields.now.version }
    ensures not_next { (next : ℕ) → result ≡ Err (PacketFault.NotNext next) → (s : Store) (h : Held) → Stands chip.now s
        → held s fields.now.image ≡ Some h → IsElsewhere (page_of_packet fields.now) next h }
    ensures room { result ≡ Err PacketFault.Stopped → (s : Store) → Stands chip.now s
        → BeginActOf (packet_trail s (numbers_of fields.now.got)) chip.now commands.new bytes.new count.new }
{
    let name = PageName {
        image: fields.image,
        version: fields.version,
        page: fields.page,
    };
    let got = set_in(&fields.got);
    let mut plan = Plan::new(chip, commands, bytes);
    let told = packet(&mut plan, name, got, fields.packet, &fields.bytes);
    *count = plan.count();
    told
}
