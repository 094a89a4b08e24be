//! What the motes of a world share.
ghost use Rattle.std.specs.Prelude.{◌≡◌};
ghost use Rattle.dg_rules.specs.World.{World as RuleWorld, wide_at};
ghost use Rattle.dg_rules.specs.Events.{knows};
ghost use Rattle.dg_shared.specs.Shareds.{IsShared};

use crate::air::Air;
use crate::images::Images;
use crate::links::{Links, MOST_MOTES};
use dg_frame::NARROW_IMAGES;

/// The images that were declared, which motes are neighbours, which are narrow, and the frames that were sent.
#[derive(Drop)]
pub struct Shared {
    pub images: Images,
    pub links: Links,
    /// By the number of the mote.
    pub narrow: [bool; MOST_MOTES],
    pub air: Air,
}

impl Shared {
    /// Whether a mote is wide. A number that is no mote's counts as wide.
    #[inline(always)]
    pub fn is_wide(&self, mote: u8) -> bool
        ensures { (w : RuleWorld) → IsShared self.now w → result ≡ wide_at w mote }
    {
        let mote = usize::from(mote);
        if mote < self.narrow.len() {
            return !self.narrow[mote];
        }
        true
    }

    /// Whether a mote knows the images of this number: a narrow one only those that its frames name, and golden.
    pub fn knows(&self, mote: u8, image: u8) -> bool
        ensures { (w : RuleWorld) → IsShared self.now w → knows (wide_at w mote) image ≡ result }
    {
        knows_by_width(self.is_wide(mote), image)
    }
}

/// The same for a mote of this width.
fn knows_by_width(wide: bool, image: u8) -> bool
    ensures { result ≡ knows wide image }
{
    wide || usize::from(image) <= NARROW_IMAGES
}
