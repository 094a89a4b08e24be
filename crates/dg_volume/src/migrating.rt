//! Migration: a chip whose last commit has the older form is committed in the current form.
ghost use Rattle.std.specs.Prelude.{◌≡◌, ◌↔◌, ◌⊎◌, false, Err, OnOk};
ghost use Rattle.dg_nor.specs.Chip.{Touches};
ghost use Rattle.dg_control.specs.Store.{HasForm};
ghost use Rattle.dg_volume.specs.Sizes.{control_sectors, old_form, new_form};
ghost use Rattle.dg_volume.specs.Store.{Store};
ghost use Rattle.dg_volume.specs.Stands.{form_of, room_of, NothingLent, Mounted, IsMounted};
ghost use Rattle.dg_volume.specs.Trails.{migrate_trail};
ghost use Rattle.dg_volume.specs.Acts.{Acted, Stops};

use crate::volume::Volume;
use dg_control::{CommitFault, OLD_FORM, a_chip_has_one_form};
use dg_nor::Nor;

impl Volume {
    /// Migrates a chip of form 1 to form 2: one commit of the same snapshot. If its form is 2 already, nothing is done.
    ///
    /// A stop leaves either form.
    pub fn migrate<N: Nor>(&mut self, nor: &mut N) -> Result<(), CommitFault>
        requires mounted { IsMounted (N.device nor.old).image self.old }
        requires free { NothingLent self.old }
        ensures acted { OnOk result ((s : Store) → Mounted (N.device nor.old).image self.old s
            → Acted (migrate_trail (form_of self.old) s) (N.device nor.old) (N.device nor.new) self.new) }
        ensures form { OnOk result (form_of self.new ≡ new_form) }
        ensures same_reference { (N.device nor.new).references ≡ (N.device nor.old).references }
        ensures free { OnOk result (NothingLent self.new) }
        ensures awake { OnOk result (form_of self.old ≡ old_form → (N.device nor.old).stopped ≡ false) }
        ensures touches { Touches 0 control_sectors (N.device nor.old).image (N.device nor.new).image }
        ensures worn { (result ≡ Err CommitFault.Worn) ↔ ((form_of self.old ≡ old_form) × (room_of self.old ≡ 0)) }
        ensures unchanged { result ≡ Err CommitFault.Worn → (N.device nor.new ≡ N.device nor.old) × (self.new ≡ self.old) }
        ensures stopped { result ≡ Err CommitFault.Stopped → (s : Store) → Mounted (N.device nor.old).image self.old s
            → Stops (migrate_trail (form_of self.old) s) (N.device nor.old) (N.device nor.new) }
        ensures either { result ≡ Err CommitFault.Stopped → HasForm (N.device nor.new).image old_form
            ⊎ HasForm (N.device nor.new).image new_form }
    {
        a_chip_has_one_form();
        if self.control.form() != OLD_FORM {
            return Ok(());
        }
        let snapshot = self.control.now();
        self.control.commit(nor, snapshot)
    }
}
