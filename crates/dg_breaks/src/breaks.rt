//! Why a chip is not a volume.
ghost use Rattle.std.specs.Prelude.{◌≡◌, ◌↔◌, ℕ, ◌<◌, IfOk, IfSome, IsNone, IsTrue, slice_index_or};
ghost use Rattle.dg_nor.specs.Reads.{ReadEnds};
ghost use Rattle.dg_ledger.specs.Ledger.{HasCount};
ghost use Rattle.dg_control.specs.Store.{Controls};
ghost use Rattle.dg_control.specs.declared.snapshot.Snapshot.{Snapshot};
ghost use Rattle.dg_slot.specs.Layout.{header_sector, page_sector};
ghost use Rattle.dg_slot.specs.Header.{IsHeader};
ghost use Rattle.dg_slot.specs.Pages.{page_in};
ghost use Rattle.dg_slot.specs.Kept.{HasDescriptor};
ghost use Rattle.dg_nor.specs.Chip.{sector};
ghost use Rattle.dg_volume.specs.Sizes.{images};
ghost use Rattle.dg_volume.specs.Stands.{IsNoVolume};
ghost use Rattle.dg_breaks.specs.Breaks.{slot_state, HoldsGolden, HoldsHeader};
ghost use Rattle.dg_breaks.specs.Breaks.{HoldsDescriptor, HeadersTo, DescriptorsTo};
ghost use Rattle.dg_breaks.specs.Breaks.{FailsBehind, IsSectorOf, BreaksBehind, BreaksAt, HoldsBehind};

use crate::bytes::{
    descriptor_byte, golden_byte, header_byte, ledger_byte, place_byte, program_byte,
};
use crate::condition::{Break, Condition};
use crate::header::{HeaderSeen, header_sector, see_header};
use dg_control::{
    CONTROL_SECTOR, Control, GOLDEN, GOLDEN_VERSION, IMAGES, MountFault, SlotState, Snapshot,
};
use dg_ledger::{LEDGER_SECTOR, Ledger, LedgerFault};
use dg_nor::{Nor, Stopped};
use dg_slot::{PROGRAM_SECTOR, page_sector, read_descriptor};

/// How many bits of the ledger are cleared. None if sector 0 is not a ledger.
fn ledger_count<N: Nor>(nor: &mut N) -> Result<Option<u16>, Stopped>
    ensures count { IfOk result (λ found. IfSome found (HasCount (N.device nor.old).image)) }
    ensures none { IfOk result (λ found. IsNone found → (n : ℕ) → HasCount (N.device nor.old).image n → ⊥) }
    ensures ends { ReadEnds result (N.device nor.old) (N.device nor.new) }
{
    match Ledger::mount(nor) {
        Ok(ledger) => Ok(Some(ledger.count())),
        Err(LedgerFault::Stopped) => Err(Stopped),
        Err(LedgerFault::Shape | LedgerFault::Used) => Ok(None),
    }
}

/// The snapshot of a chip. None if its control sectors have no snapshot.
fn chip_snapshot<N: Nor>(nor: &mut N) -> Result<Option<Snapshot>, Stopped>
    ensures snapshot { IfOk result (λ found. IfSome found (λ p. (room : ℕ) × Controls (N.device nor.old).image p room)) }
    ensures none { IfOk result (λ found. IsNone found
        → (p : Snapshot) (room : ℕ) → Controls (N.device nor.old).image p room → ⊥) }
    ensures ends { ReadEnds result (N.device nor.old) (N.device nor.new) }
{
    match Control::mount(nor) {
        Ok(control) => Ok(Some(control.now())),
        Err(MountFault::Stopped) => Err(Stopped),
        Err(MountFault::NotAVolume) => Ok(None),
    }
}

/// Whether a slot in this state keeps golden whole.
fn holds_golden<N: Nor>(nor: &mut N, slot: SlotState) -> Result<bool, Stopped>
    ensures holds { IfOk result (λ b. IsTrue b ↔ HoldsGolden (N.device nor.old).image slot) }
    ensures ends { ReadEnds result (N.device nor.old) (N.device nor.new) }
{
    if slot
        != (SlotState::Live {
            version: GOLDEN_VERSION,
        })
    {
        return Ok(false);
    }
    match see_header(nor, GOLDEN, GOLDEN_VERSION)? {
        None => Ok(false),
        Some(seen) => Ok(seen.done == seen.pages),
    }
}

/// Whether a slot in this state has a header, where it is Live.
fn holds_header<N: Nor>(nor: &mut N, image: u8, slot: SlotState) -> Result<bool, Stopped>
    requires { image < images }
    ensures holds { IfOk result (λ b. IsTrue b ↔ HoldsHeader (N.device nor.old).image image slot) }
    ensures ends { ReadEnds result (N.device nor.old) (N.device nor.new) }
{
    let SlotState::Live { version } = slot else {
        return Ok(true);
    };
    match see_header(nor, image, version)? {
        None => Ok(false),
        Some(_) => Ok(true),
    }
}

/// Whether page 0 of an image is the descriptor that its header keeps the CRC of.
fn is_described<N: Nor>(
    nor: &mut N,
    image: u8,
    version: u32,
    seen: &HeaderSeen,
) -> Result<bool, Stopped>
    requires { image < images }
    ensures fits { IfOk result (λ b. IsTrue b ↔ HasDescriptor (page_in (N.device nor.old).image (page_sector image 0)) image
        version seen.now.pages seen.now.crc) }
    ensures ends { ReadEnds result (N.device nor.old) (N.device nor.new) }
{
    let Some(first) = read_descriptor(nor, page_sector(image, 0))? else {
        return Ok(false);
    };
    let said = &first.descriptor;
    Ok(
        first.crc == seen.crc
            && said.image == image
            && said.version == version
            && said.pages == seen.pages,
    )
}

/// Whether page 0 of a slot in this state fits its header, where the slot is Live and page 0 is complete.
fn holds_descriptor<N: Nor>(nor: &mut N, image: u8, slot: SlotState) -> Result<bool, Stopped>
    requires { image < images }
    ensures holds { IfOk result (λ b. IsTrue b ↔ HoldsDescriptor (N.device nor.old).image image slot) }
    ensures ends { ReadEnds result (N.device nor.old) (N.device nor.new) }
{
    let SlotState::Live { version } = slot else {
        return Ok(true);
    };
    let Some(seen) = see_header(nor, image, version)? else {
        return Ok(true);
    };
    if seen.done == 0 {
        return Ok(true);
    }
    is_described(nor, image, version, &seen)
}

/// The first image whose slot is Live and has no header.
fn first_without_header<N: Nor>(nor: &mut N, snapshot: &Snapshot) -> Result<Option<u8>, Stopped>
    ensures first { IfOk result (λ found. IfSome found (λ i. HeadersTo (N.device nor.old).image snapshot.now i × (i < images)
        × (HoldsHeader (N.device nor.old).image i (slot_state snapshot.now i) → ⊥))) }
    ensures none { IfOk result (λ found. IsNone found → HeadersTo (N.device nor.old).image snapshot.now images) }
    ensures ends { ReadEnds result (N.device nor.old) (N.device nor.new) }
{
    for image in 0..IMAGES {
        if !holds_header(nor, image as u8, snapshot.slots[image])? {
            return Ok(Some(image as u8));
        }
    }
    Ok(None)
}

/// The first image whose page 0 is complete and does not fit its header.
fn first_undescribed<N: Nor>(nor: &mut N, snapshot: &Snapshot) -> Result<Option<u8>, Stopped>
    ensures first { IfOk result (λ found. IfSome found (λ i. DescriptorsTo (N.device nor.old).image snapshot.now i
        × (i < images) × (HoldsDescriptor (N.device nor.old).image i (slot_state snapshot.now i) → ⊥))) }
    ensures none { IfOk result (λ found. IsNone found → DescriptorsTo (N.device nor.old).image snapshot.now images) }
    ensures ends { ReadEnds result (N.device nor.old) (N.device nor.new) }
{
    for image in 0..IMAGES {
        if !holds_descriptor(nor, image as u8, snapshot.slots[image])? {
            return Ok(Some(image as u8));
        }
    }
    Ok(None)
}

/// The first condition after the control sectors that a chip with this snapshot does not meet. It does not meet all of them, so
/// if it meets the others, it does not meet that of program memory.
fn break_behind<N: Nor>(nor: &mut N, snapshot: &Snapshot) -> Result<Break, Stopped>
    requires { HoldsBehind (N.device nor.old).image snapshot.now → ⊥ }
    ensures fails { IfOk result (λ b. FailsBehind (N.device nor.old).image snapshot.now b.condition) }
    ensures sector { IfOk result (λ b. IsSectorOf (N.device nor.old).image b.condition b.sector) }
    ensures byte { IfOk result (λ b. BreaksBehind (N.device nor.old).image snapshot.now b.condition b.byte) }
    ensures ends { ReadEnds result (N.device nor.old) (N.device nor.new) }
{
    let golden = snapshot.slots[usize::from(GOLDEN)];
    if !holds_golden(nor, golden)? {
        return Ok(Break {
            condition: Condition::Golden,
            sector: header_sector(GOLDEN),
            byte: golden_byte(nor, golden)?,
        });
    }
    if let Some(image) = first_without_header(nor, snapshot)? {
        return Ok(Break {
            condition: Condition::Header { image },
            sector: header_sector(image),
            byte: header_byte(nor, image, snapshot.slots[usize::from(image)])?,
        });
    }
    if let Some(image) = first_undescribed(nor, snapshot)? {
        return Ok(Break {
            condition: Condition::Descriptor { image },
            sector: page_sector(image, 0),
            byte: descriptor_byte(nor, image, snapshot.slots[usize::from(image)])?,
        });
    }
    Ok(Break {
        condition: Condition::Program,
        sector: PROGRAM_SECTOR,
        byte: program_byte(nor, snapshot.program)?,
    })
}

/// Why the control sectors of a chip with this count have no snapshot.
fn snapshot_break<N: Nor>(nor: &mut N, count: u16) -> Result<Break, Stopped>
    requires count { HasCount (N.device nor.old).image count }
    requires none { (p : Snapshot) (room : ℕ) → Controls (N.device nor.old).image p room → ⊥ }
    ensures breaks { IfOk result (BreaksAt (N.device nor.old).image) }
    ensures ends { ReadEnds result (N.device nor.old) (N.device nor.new) }
{
    let sector = CONTROL_SECTOR + u32::from(count % 2);
    Ok(Break {
        condition: Condition::Snapshot,
        sector,
        byte: place_byte(nor, sector)?,
    })
}

/// Why sector 0 of a chip is not a ledger.
fn ledger_break<N: Nor>(nor: &mut N) -> Result<Break, Stopped>
    requires { (n : ℕ) → HasCount (N.device nor.old).image n → ⊥ }
    ensures breaks { IfOk result (BreaksAt (N.device nor.old).image) }
    ensures ends { ReadEnds result (N.device nor.old) (N.device nor.new) }
{
    Ok(Break {
        condition: Condition::Ledger,
        sector: LEDGER_SECTOR,
        byte: ledger_byte(nor)?,
    })
}

/// Why a chip is not a volume: the first condition of a volume that it does not meet.
pub fn first_break<N: Nor>(nor: &mut N) -> Result<Break, Stopped>
    requires { IsNoVolume (N.device nor.old).image }
    ensures breaks { IfOk result (BreaksAt (N.device nor.old).image) }
    ensures ends { ReadEnds result (N.device nor.old) (N.device nor.new) }
{
    let Some(count) = ledger_count(nor)? else {
        return ledger_break(nor);
    };
    let Some(snapshot) = chip_snapshot(nor)? else {
        return snapshot_break(nor, count);
    };
    break_behind(nor, &snapshot)
}
