//! Commits that a start and a mote make: program memory, the short starts, and whether the order is waived.
ghost use Rattle.std.specs.Prelude.{◌≡◌, ◌≢◌, ◌↔◌, ℕ, ◌≤◌, true, false, Option, Err, OnOk, OnErr, IfSome};
ghost use Rattle.dg_nor.specs.Chip.{Touches};
ghost use Rattle.dg_slot.specs.Kept.{Held};
ghost use Rattle.dg_slot.specs.Jobs.{IsJob, Packets};
ghost use Rattle.dg_volume.specs.Sizes.{control_sectors, short_starts, new_form};
ghost use Rattle.dg_volume.specs.Store.{App, Store};
ghost use Rattle.dg_volume.specs.Told.{program_told};
ghost use Rattle.dg_volume.specs.Stands.{HoldsApp, snapshot_of, form_of, room_of, is_lent, NothingLent, Mounted, IsMounted};
ghost use Rattle.dg_volume.specs.Trails.{clear_trail, advance_trail};
ghost use Rattle.dg_volume.specs.Acts.{Acted, Stops};
ghost use Rattle.dg_slot.specs.declared.states.PageJob.{PageJob};

use crate::volume::Volume;
use dg_control::{CommitFault, Program};
use dg_nor::{Nor, Stopped};

impl Volume {
    /// Resets the count of short starts to 0. One commit.
    pub fn clear_gesture<N: Nor>(&mut self, nor: &mut N) -> Result<(), Stopped>
        requires mounted { IsMounted (N.device nor.old).image self.old }
        requires room { 1 ≤ room_of self.old }
        ensures acted { OnOk result ((s : Store) → Mounted (N.device nor.old).image self.old s
            → Acted (clear_trail s) (N.device nor.old) (N.device nor.new) self.new) }
        ensures same_reference { (N.device nor.new).references ≡ (N.device nor.old).references }
        ensures form { OnOk result (form_of self.new ≡ new_form) }
        ensures awake { OnOk result ((N.device nor.old).stopped ≡ false) }
        ensures lent { (i : ℕ) → is_lent self.new i ≡ is_lent self.old i }
        // a page that is being filled is unchanged
        ensures job { (j : PageJob) (h : Held) (ps : Packets) → IsJob (N.device nor.old).image j h ps
            → IsJob (N.device nor.new).image j h ps }
        ensures touches { Touches 0 control_sectors (N.device nor.old).image (N.device nor.new).image }
        ensures stopped { OnErr result ((s : Store) → Mounted (N.device nor.old).image self.old s
            → Stops (clear_trail s) (N.device nor.old) (N.device nor.new)) }
    {
        let snapshot = self.control.now();
        let next = snapshot.with_start(snapshot.program, 0, snapshot.waived);
        self.control.keep(nor, next)?;
        Ok(())
    }

    /// One commit that changes program memory, the short starts and whether the order is waived, and nothing else.
    pub fn advance<N: Nor>(
        &mut self,
        nor: &mut N,
        program: Program,
        gesture: u8,
        waived: bool,
    ) -> Result<(), CommitFault>
        requires mounted { IsMounted (N.device nor.old).image self.old }
        requires free { NothingLent self.old }
        requires gesture { gesture ≤ short_starts }
        requires waives { waived ≡ true → (snapshot_of self.old).order.number ≢ 0 }
        requires holds { (app : Option App) × (program ≡ program_told app) × IfSome app (HoldsApp (N.device nor.old).image) }
        ensures acted { OnOk result ((s : Store) (app : Option App) → Mounted (N.device nor.old).image self.old s
            → program ≡ program_told app
            → IfSome app (HoldsApp (N.device nor.old).image)
            → Acted (advance_trail s app gesture waived) (N.device nor.old) (N.device nor.new) self.new) }
        ensures same_reference { (N.device nor.new).references ≡ (N.device nor.old).references }
        ensures free { OnOk result (NothingLent self.new) }
        ensures form { OnOk result (form_of self.new ≡ new_form) }
        ensures awake { OnOk result ((N.device nor.old).stopped ≡ false) }
        ensures touches { Touches 0 control_sectors (N.device nor.old).image (N.device nor.new).image }
        ensures worn { (result ≡ Err CommitFault.Worn) ↔ (room_of self.old ≡ 0) }
        ensures unchanged { result ≡ Err CommitFault.Worn → (N.device nor.new ≡ N.device nor.old) × (self.new ≡ self.old) }
        ensures stopped { result ≡ Err CommitFault.Stopped → (s : Store) (app : Option App)
            → Mounted (N.device nor.old).image self.old s → program ≡ program_told app
            → IfSome app (HoldsApp (N.device nor.old).image)
            → Stops (advance_trail s app gesture waived) (N.device nor.old) (N.device nor.new) }
    {
        let next = self.control.now().with_start(program, gesture, waived);
        self.control.commit(nor, next)
    }
}
