//! A snapshot in the form in which a place holds it.
ghost use Rattle.std.specs.Prelude.{◌≡◌, ◌⊎◌, IsTrue};
ghost use Rattle.dg_control.specs.Sizes.{new_form, old_form};
ghost use Rattle.dg_control.specs.Ranges.{form_fits};

use crate::{FORM, Snapshot};

/// A snapshot, and the number of the form in which it is written.
#[derive(Clone, Copy, Debug, PartialEq, Eq)]
pub struct Spelled {
    pub form: u8,
    pub snapshot: Snapshot,
    ghost fits: { IsTrue (form_fits form snapshot.slots snapshot.program snapshot.order) },
}

impl Spelled {
    ghost use Rattle.dg_control.specs.Snapshot.{IsFresh};

    /// A snapshot in the current form.
    pub fn today(snapshot: Snapshot) -> Spelled
        ensures snapshot { result.snapshot ≡ snapshot }
        ensures form { result.form ≡ new_form }
    {
        Spelled {
            form: FORM,
            snapshot,
        }
    }

    /// What a formatted chip commits, in one of the forms.
    pub fn fresh(form: u8) -> Spelled
        requires { (form ≡ old_form) ⊎ (form ≡ new_form) }
        ensures snapshot { IsFresh result.snapshot }
        ensures form { result.form ≡ form }
    {
        Spelled {
            form,
            snapshot: Snapshot::fresh(),
        }
    }
}
