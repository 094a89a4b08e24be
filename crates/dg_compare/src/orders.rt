//! The orders of two chips.
ghost use Rattle.std.specs.Prelude.{◌≡◌, ◌↔◌, IsTrue};
ghost use Rattle.dg_volume.specs.Store.{Store};
ghost use Rattle.dg_inspect.specs.Seen.{ShowsStore};
ghost use Rattle.dg_compare.specs.Alike.{larger, waives_order, ComparesOrder};

use crate::results::{OrderCompared, Side};
use dg_control::Order;
use dg_inspect::{OrderState, VolumeSeen};

/// The side of the larger number.
fn larger(one: u32, other: u32) -> Option<Side>
    ensures { result ≡ larger one other }
{
    if other < one {
        Some(Side::First)
    } else if one < other {
        Some(Side::Second)
    } else {
        None
    }
}

/// Whether there is an order that is waived.
fn waives_order(volume: &VolumeSeen) -> bool
    ensures { (s : Store) → ShowsStore s volume.now → result ≡ waives_order s }
{
    matches!(volume.order_state, OrderState::Waived)
}

/// Whether two orders are the same.
fn is_same(one: Order, other: Order) -> bool
    ensures { IsTrue result ↔ (one ≡ other) }
{
    one.number == other.number && one.image == other.image && one.version == other.version
}

/// Whether both are waived, or neither is.
fn is_waived_alike(waived: bool, other: bool) -> bool
    ensures { IsTrue result ↔ (waived ≡ other) }
{
    if waived { other } else { !other }
}

/// How the orders of two chips compare.
pub(crate) fn compare_orders(one: &VolumeSeen, other: &VolumeSeen) -> OrderCompared
    ensures { (s t : Store) → ShowsStore s one.now → ShowsStore t other.now → ComparesOrder s t result }
{
    let same = is_same(one.order, other.order);
    let waived = waives_order(one);
    let other_waived = waives_order(other);
    OrderCompared {
        ahead: larger(one.order.number, other.order.number),
        alike: same && is_waived_alike(waived, other_waived),
    }
}
