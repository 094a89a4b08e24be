//! Orders: which image is to be started.
ghost use Rattle.std.specs.Prelude.{◌≡◌, ◌≢◌, ℕ, ◌+◌, ◌<◌, ◌≤◌, false, Some, None, Err, OnOk, IsErrOf};
ghost use Rattle.dg_nor.specs.Chip.{Touches};
ghost use Rattle.dg_control.specs.Sizes.{place_size};
ghost use Rattle.dg_control.specs.Store.{IsOrderlyChip};
ghost use Rattle.dg_volume.specs.Sizes.{images, control_sectors, new_form};
ghost use Rattle.dg_volume.specs.Store.{Store};
ghost use Rattle.dg_volume.specs.Stands.{Mounted, IsMounted, form_of, is_lent};
ghost use Rattle.dg_volume.specs.Changes.{numbered_order, order_refusal, UnlessOrderRefused};
ghost use Rattle.dg_volume.specs.Trails.{order_trail};
ghost use Rattle.dg_volume.specs.Remount.{RemountBytes};
ghost use Rattle.dg_volume.specs.Acts.{Acted, Stops};

use crate::volume::{OrderFault, Volume};
use dg_control::Order;
use dg_nor::{Nor, Stopped};

/// The commits that an order takes.
const COMMITS: u32 = 1;

impl Volume {
    /// Keeps an order, which is not waived. One commit. Nothing is read. A chip that may be mounted again by halving stays one,
    /// and that reads at most one more place.
    pub fn order<N: Nor>(
        &mut self,
        nor: &mut N,
        number: u32,
        image: u8,
        version: u32,
    ) -> Result<(), OrderFault>
        requires mounted { IsMounted (N.device nor.old).image self.old }
        requires some_number { 1 ≤ number }
        requires known_image { image < images }
        requires some_version { 1 ≤ version }
        ensures acted { OnOk result ((s : Store) → Mounted (N.device nor.old).image self.old s
            → Acted (order_trail s (numbered_order number image version)) (N.device nor.old) (N.device nor.new) self.new) }
        ensures form { OnOk result (form_of self.new ≡ new_form) }
        ensures awake { OnOk result ((N.device nor.old).stopped ≡ false) }
        ensures same_reference { (N.device nor.new).references ≡ (N.device nor.old).references }
        ensures lent { (i : ℕ) → is_lent self.new i ≡ is_lent self.old i }
        ensures allowed { (s : Store) → Mounted (N.device nor.old).image self.old s
            → UnlessOrderRefused result (order_refusal s (numbered_order number image version)) }
        ensures refused { (e : OrderFault) → result ≡ Err e → e ≢ OrderFault.Stopped → (s : Store)
            → Mounted (N.device nor.old).image self.old s
            → order_refusal s (numbered_order number image version) ≡ Some e }
        ensures unchanged { (e : OrderFault) → result ≡ Err e → e ≢ OrderFault.Stopped
            → (N.device nor.new ≡ N.device nor.old) × (self.new ≡ self.old) }
        ensures touches { Touches 0 control_sectors (N.device nor.old).image (N.device nor.new).image }
        ensures same_taken { (N.device nor.new).taken ≡ (N.device nor.old).taken }
        ensures orderly { IsOrderlyChip (N.device nor.old).image → IsOrderlyChip (N.device nor.new).image }
        ensures bytes { (m n : ℕ) → RemountBytes (N.device nor.old).image m → RemountBytes (N.device nor.new).image n
            → n ≤ m + place_size }
        ensures stopped { IsErrOf result OrderFault.Stopped → (s : Store) → Mounted (N.device nor.old).image self.old s
            → Stops (order_trail s (numbered_order number image version)) (N.device nor.old) (N.device nor.new) }
    {
        let snapshot = self.control.now();
        let kept = snapshot.order.number;
        if number <= kept {
            return Err(OrderFault::OldOrder { kept });
        }
        let room = self.control.room();
        if room < COMMITS {
            return Err(OrderFault::Worn { room });
        }
        let next = snapshot.with_order(Order {
            number,
            image,
            version,
        });
        match self.control.keep(nor, next) {
            Ok(()) => Ok(()),
            Err(Stopped) => Err(OrderFault::Stopped),
        }
    }
}
