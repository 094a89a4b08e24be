//! An order, planned over a chip that C reads in place.
ghost use Rattle.std.specs.Prelude.{◌≡◌, ◌≢◌, ◌↔◌, ◌⊎◌, ◌≤◌, Some, Err, OnOk, length};
ghost use Rattle.dg_nor.specs.Sizes.{chip_size};
ghost use Rattle.dg_volume.specs.Sizes.{images};
ghost use Rattle.dg_volume.specs.Store.{Store};
ghost use Rattle.dg_volume.specs.Stands.{Stands, IsNoVolume};
ghost use Rattle.dg_volume.specs.Changes.{order_refusal};
ghost use Rattle.dg_volume.specs.Trails.{order_trail};
ghost use Rattle.deluge_c.specs.Answers.{done, IsRefusal, order_answer};
ghost use Rattle.deluge_c.specs.Messages.{order_of_fields};
ghost use Rattle.deluge_c.specs.Plans.{AreActOf, BeginActOf};

use crate::answers::{DONE, LENGTH, NO_VOLUME, OLD_ORDER, RANGE, ROOM, WORN};
use crate::messages::{OrderFields, order_in};
use dg_control::Order;
use dg_nor::CHIP_SIZE;
use dg_plan::{ActFault, Command, Plan, order};
use dg_volume::OrderFault;

/// Plans that an order is kept: 2 commands or 4, which program 65 bytes at most.
#[unsafe(no_mangle)]
pub extern "C" fn deluge_plan_order(
    chip: &[u8],
    order: &OrderFields,
    commands: &mut [Command],
    bytes: &mut [u8],
    count: &mut usize,
) -> u32
    ensures planned { result ≡ done → (s : Store) → Stands chip.now s
        → AreActOf (order_trail s (order_of_fields order.now)) chip.now commands.new bytes.new count.new }
    ensures length { (result ≡ LENGTH) ↔ (length chip.now ≢ chip_size) }
    ensures range { result ≡ RANGE → (order.now.number ≡ 0) ⊎ (images ≤ order.now.image) ⊎ (order.now.version ≡ 0) }
    ensures no_volume { result ≡ NO_VOLUME → IsNoVolume chip.now }
    ensures refused { IsRefusal result → (s : Store) → Stands chip.now s
        → (e : OrderFault) × (order_refusal s (order_of_fields order.now) ≡ Some e) × (result ≡ order_answer e) }
    ensures room { result ≡ ROOM → (s : Store) → Stands chip.now s → (count.new ≡ 0)
        ⊎ BeginActOf (order_trail s (order_of_fields order.now)) chip.now commands.new bytes.new count.new }
    ensures nothing { result ≢ done → result ≢ ROOM → count.new ≡ 0 }
{
    *count = 0;
    if chip.len() != CHIP_SIZE as usize {
        return LENGTH;
    }
    let wanted = order_in(order);
    let mut planned = 0;
    match plan_order(chip, wanted, commands, bytes, &mut planned) {
        Ok(()) => {
            *count = planned;
            DONE
        }
        Err(ActFault::Act(OrderFault::Stopped)) => {
            *count = planned;
            ROOM
        }
        Err(ActFault::Act(OrderFault::OldOrder { .. })) => OLD_ORDER,
        Err(ActFault::Act(OrderFault::Worn { .. })) => WORN,
        Err(ActFault::OutOfRange) => RANGE,
        Err(ActFault::NotAVolume) => NO_VOLUME,
        Err(ActFault::Unread) => ROOM,
    }
}

/// Plans an order over a chip of the whole size.
fn plan_order(
    chip: &[u8],
    wanted: Order,
    commands: &mut [Command],
    bytes: &mut [u8],
    count: &mut usize,
) -> Result<(), ActFault<OrderFault>>
    requires { length chip.now ≡ chip_size }
    ensures planned { OnOk result ((s : Store) → Stands chip.now s
        → AreActOf (order_trail s wanted) chip.now commands.new bytes.new count.new) }
    ensures range { result ≡ Err ActFault.OutOfRange
        → (wanted.number ≡ 0) ⊎ (images ≤ wanted.image) ⊎ (wanted.version ≡ 0) }
    ensures no_volume { result ≡ Err ActFault.NotAVolume → IsNoVolume chip.now }
    ensures refused { (e : OrderFault) → result ≡ Err (ActFault.Act e) → e ≢ OrderFault.Stopped → (s : Store)
        → Stands chip.now s → order_refusal s wanted ≡ Some e }
    ensures room { result ≡ Err (ActFault.Act OrderFault.Stopped) → (s : Store) → Stands chip.now s
        → BeginActOf (order_trail s wanted) chip.now commands.new bytes.new count.new }
{
    let mut plan = Plan::new(chip, commands, bytes);
    let told = order(&mut plan, wanted);
    *count = plan.count();
    told
}
