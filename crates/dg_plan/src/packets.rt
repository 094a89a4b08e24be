//! A packet of a page, planned: the header of its slot is read, and nothing else.
ghost use Rattle.std.specs.Prelude.{◌≡◌, ◌≢◌, ◌⊎◌, ℕ, ◌+◌, ◌<◌, ◌≤◌, ⊤, true, false, Some, Err, OnOk, OnErr, IfOk};
ghost use Rattle.std.specs.FinSet as set;
ghost use Rattle.dg_bits.specs.Sets.{least};
ghost use Rattle.dg_nor.specs.Chip.{Touches};
ghost use Rattle.dg_nor.specs.Device.{Ran, Halts, Halted};
ghost use Rattle.dg_nor.specs.Reads.{Looked, ActStopped};
ghost use Rattle.dg_slot.specs.Layout.{packets, page_sector};
ghost use Rattle.dg_slot.specs.Kept.{Held};
ghost use Rattle.dg_slot.specs.Jobs.{outline_of_slot, done_of_slot, slot_of, got_of_job, IsOpen, IsJob, Packets, put_packet};
ghost use Rattle.dg_slot.specs.Jobs.{ArePut};
ghost use Rattle.dg_volume.specs.Sizes.{images};
ghost use Rattle.dg_volume.specs.Store.{Store, held};
ghost use Rattle.dg_volume.specs.Stands.{Stands};
ghost use Rattle.dg_volume.specs.Acts.{Stops};
ghost use Rattle.dg_plan.specs.Plans.{planned, lists_of, chip_of, plan_device};
ghost use Rattle.dg_plan.specs.Acts.{IsPlanOf};
ghost use Rattle.dg_plan.specs.Packets.{sector_named, IsNext, IsElsewhere, erases, packet_trail, HadPut};

use crate::pages::PageName;
use crate::plan::Plan;
use dg_bits::PageBits;
use dg_control::IMAGES;
use dg_nor::{Nor, Stopped};
use dg_object::{PACKETS, PacketBytes};
use dg_slot::{OpenSlot, PageJob, a_slot_holds_its_sectors, packets_stand_in_their_sector};
use dg_volume::a_slot_is_written_alone;

/// Why a packet is not planned.
#[derive(Clone, Copy, Debug, PartialEq, Eq)]
pub enum PacketFault {
    /// The plan was stopped already, or the list or its bytes have no room.
    Stopped,
    /// There is no such image, version or packet.
    OutOfRange,
    /// The packet was put before.
    Put,
    /// The header of the slot is not one of this version.
    NotKept,
    /// Another page of the slot is the next one. If `next` is this page, all pages are complete.
    NotNext { next: u8 },
}

/// Plans that a packet is put into the next page of a slot, in which these packets were put before. If no packet was, the
/// sector of the page is erased first. 19 bytes of the chip are read.
///
/// The caller has to ensure that the packets are there: a page of other bytes is not sealed.
pub fn packet(
    plan: &mut Plan<'_>,
    name: PageName,
    got: PageBits<PACKETS>,
    packet: u8,
    bytes: &PacketBytes,
) -> Result<(), PacketFault>
    ensures planned { OnOk result ((s : Store) → Stands (planned plan.old) s
        → IsPlanOf (packet_trail s got) plan.old plan.new) }
    ensures put { OnOk result ((s : Store) (h : Held) (ps : Packets) → Stands (planned plan.old) s
        → held s name.image ≡ Some h → HadPut (planned plan.old) (sector_named name) got ps
        → ArePut (planned plan.new) (sector_named name) (set.insert got packet) (put_packet ps packet bytes.now)) }
    ensures next { OnOk result ((s : Store) (h : Held) → Stands (planned plan.old) s → held s name.image ≡ Some h
        → IsNext name h) }
    ensures same_lists { lists_of plan.new ≡ lists_of plan.old }
    // the plan holds the chip that was handed in
    ensures same_chip { chip_of plan.new ≡ chip_of plan.old }
    ensures out_of_range { result ≡ Err PacketFault.OutOfRange
        → (images ≤ name.image) ⊎ (name.version ≡ 0) ⊎ (packets ≤ packet) }
    ensures put_before { result ≡ Err PacketFault.Put → set.contains got packet ≡ true }
    ensures not_kept { result ≡ Err PacketFault.NotKept → (s : Store) (h : Held) → Stands (planned plan.old) s
        → held s name.image ≡ Some h → h.version ≢ name.version }
    ensures not_next { (next : ℕ) → result ≡ Err (PacketFault.NotNext next) → (s : Store) (h : Held)
        → Stands (planned plan.old) s → held s name.image ≡ Some h → IsElsewhere name next h }
    // what is refused leaves the plan unchanged
    ensures looked { (e : PacketFault) → result ≡ Err e → e ≢ PacketFault.Stopped
        → Looked (plan_device plan.old) (plan_device plan.new) }
    ensures cause { result ≡ Err PacketFault.Stopped → ActStopped (plan_device plan.old) (plan_device plan.new) }
    ensures stopped { result ≡ Err PacketFault.Stopped → (s : Store) → Stands (planned plan.old) s
        → Stops (packet_trail s got) (plan_device plan.old) (plan_device plan.new) }
{
    a_slot_is_written_alone();
    if name.image >= IMAGES as u8 {
        return Err(PacketFault::OutOfRange);
    }
    if name.version == 0 {
        return Err(PacketFault::OutOfRange);
    }
    if packet >= PACKETS as u8 {
        return Err(PacketFault::OutOfRange);
    }
    if got.has(packet) {
        return Err(PacketFault::Put);
    }
    put_packet(plan, name, got, packet, bytes)
}

/// The same on any chip, for a packet that is missing.
pub fn put_packet<N: Nor>(
    nor: &mut N,
    name: PageName,
    got: PageBits<PACKETS>,
    packet: u8,
    bytes: &PacketBytes,
) -> Result<(), PacketFault>
    requires known_image { name.image < images }
    requires some_version { 1 ≤ name.version }
    requires known_packet { packet < packets }
    requires missing { set.contains got packet ≡ false }
    ensures ran { OnOk result (Ran (erases (least got) + 1) (N.device nor.old) (N.device nor.new)) }
    ensures stands { (s : Store) → Stands (N.device nor.old).image s → Stands (N.device nor.new).image s }
    ensures put { OnOk result ((s : Store) (h : Held) (ps : Packets) → Stands (N.device nor.old).image s
        → held s name.image ≡ Some h → HadPut (N.device nor.old).image (sector_named name) got ps
        → ArePut (N.device nor.new).image (sector_named name) (set.insert got packet) (put_packet ps packet bytes.now)) }
    ensures next { OnOk result ((s : Store) (h : Held) → Stands (N.device nor.old).image s → held s name.image ≡ Some h
        → IsNext name h) }
    ensures same_reference { (N.device nor.new).references ≡ (N.device nor.old).references }
    ensures only { (e : PacketFault) → result ≡ Err e → (e ≢ PacketFault.OutOfRange) × (e ≢ PacketFault.Put) }
    ensures not_kept { result ≡ Err PacketFault.NotKept → (s : Store) (h : Held) → Stands (N.device nor.old).image s
        → held s name.image ≡ Some h → h.version ≢ name.version }
    ensures not_next { (next : ℕ) → result ≡ Err (PacketFault.NotNext next) → (s : Store) (h : Held)
        → Stands (N.device nor.old).image s → held s name.image ≡ Some h → IsElsewhere name next h }
    ensures looked { (e : PacketFault) → result ≡ Err e → e ≢ PacketFault.Stopped
        → Looked (N.device nor.old) (N.device nor.new) }
    ensures stopped { result ≡ Err PacketFault.Stopped
        → Halted (erases (least got) + 1) (λ _ _. ⊤) (N.device nor.old) (N.device nor.new) }
{
    a_slot_is_written_alone();
    a_slot_holds_its_sectors();
    let slot = match OpenSlot::find(nor, name.image, name.version) {
        Ok(Some(slot)) => slot,
        Ok(None) => return Err(PacketFault::NotKept),
        Err(Stopped) => return Err(PacketFault::Stopped),
    };
    let next = slot.done();
    if next != name.page {
        return Err(PacketFault::NotNext { next });
    }
    if next == slot.profile().pages {
        return Err(PacketFault::NotNext { next });
    }
    match put_in(nor, slot, got, packet, bytes) {
        Ok(()) => Ok(()),
        Err(Stopped) => Err(PacketFault::Stopped),
    }
}

/// Puts a packet that is missing into the next page of a slot.
fn put_in<N: Nor>(
    nor: &mut N,
    slot: OpenSlot,
    got: PageBits<PACKETS>,
    packet: u8,
    bytes: &PacketBytes,
) -> Result<(), Stopped>
    requires more { done_of_slot slot < (outline_of_slot slot).pages }
    requires known { packet < packets }
    requires missing { set.contains got packet ≡ false }
    ensures put { OnOk result ((h : Held) (ps : Packets) → IsOpen (N.device nor.old).image slot h
        → HadPut (N.device nor.old).image (page_sector (outline_of_slot slot).image (done_of_slot slot)) got ps
        → ArePut (N.device nor.new).image (page_sector (outline_of_slot slot).image (done_of_slot slot)) (set.insert got packet)
        (put_packet ps packet bytes.now)) }
    ensures ran { OnOk result (Ran (erases (least got) + 1) (N.device nor.old) (N.device nor.new)) }
    ensures same_reference { (N.device nor.new).references ≡ (N.device nor.old).references }
    ensures touches { let k = page_sector (outline_of_slot slot).image (done_of_slot slot) in
        Touches k (k + 1) (N.device nor.old).image (N.device nor.new).image }
    ensures kept { (h : Held) → IsOpen (N.device nor.old).image slot h → IsOpen (N.device nor.new).image slot h }
    ensures stopped { OnErr result (Halted (erases (least got) + 1) (λ _ _. ⊤) (N.device nor.old) (N.device nor.new)) }
{
    packets_stand_in_their_sector();
    let mut job = job_of(nor, slot, got)?;
    job.put(nor, packet, bytes)?;
    Ok(())
}

/// The next page of a slot, in which these packets were put before. If no packet was, its sector is erased.
fn job_of<N: Nor>(nor: &mut N, slot: OpenSlot, got: PageBits<PACKETS>) -> Result<PageJob, Stopped>
    requires { done_of_slot slot < (outline_of_slot slot).pages }
    ensures job { IfOk result (λ j. (h : Held) (ps : Packets) → IsOpen (N.device nor.old).image slot h
        → HadPut (N.device nor.old).image (page_sector (outline_of_slot slot).image (done_of_slot slot)) got ps
        → IsJob (N.device nor.new).image j h ps) }
    ensures same { IfOk result (λ j. (slot_of j ≡ slot) × (got_of_job j ≡ got)) }
    ensures ran { OnOk result (Ran (erases (least got)) (N.device nor.old) (N.device nor.new)) }
    ensures same_reference { (N.device nor.new).references ≡ (N.device nor.old).references }
    ensures touches { let k = page_sector (outline_of_slot slot).image (done_of_slot slot) in
        Touches k (k + 1) (N.device nor.old).image (N.device nor.new).image }
    ensures kept { (h : Held) → IsOpen (N.device nor.old).image slot h → IsOpen (N.device nor.new).image slot h }
    ensures stopped { OnErr result (Halts (erases (least got)) 0 (N.device nor.old) (N.device nor.new)) }
{
    match got.first() {
        None => Ok(slot.begin_page(nor)?),
        Some(_) => Ok(slot.resume_page(got)),
    }
}
