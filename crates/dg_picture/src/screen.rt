//! Where a picture is shown while it grows.
ghost use Rattle.std.specs.Prelude.{◌≡◌, ℕ, Option, List, ◌≤◌, OnOk, OnErr};
ghost use Rattle.dg_words.specs.Counts.{Rose};
ghost use Rattle.dg_picture.specs.Followed.{Shows};

/// A picture could not be shown. What was shown before is still shown.
#[derive(Clone, Copy, PartialEq, Eq, Debug)]
pub struct ShowFailed;

/// Where a picture is shown, each in the place of the one before, as a file that is replaced.
///
/// It counts its faults as a sink does.
pub trait Screen {
    // The picture that is shown, if the screen exposes it.
    ghost shown: { Self → Option (List ℕ) };

    // How many pictures could not be shown.
    ghost faults: { Self → ℕ };

    /// Whether the next picture is to be shown now. A screen may wait until it is time for it, unless more of the report
    /// is there already.
    fn is_due(&mut self, more: bool) -> bool
        ensures shown { shown self.new ≡ shown self.old }
        ensures counts { faults self.new ≡ faults self.old };

    /// Shows a picture in the place of the one before.
    fn show(&mut self, picture: &[u8]) -> Result<(), ShowFailed>
        ensures ok { OnOk result (Shows (shown self.new) picture.now) }
        ensures err { OnErr result (shown self.new ≡ shown self.old) }
        ensures counts { faults self.old ≤ faults self.new }
        ensures failed { OnErr result (Rose (faults self.old) (faults self.new)) }
        ensures unfailed { OnOk result (faults self.new ≡ faults self.old) };
}
