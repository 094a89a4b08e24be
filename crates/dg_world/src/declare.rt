//! How a world begins, and what is declared in it.
ghost use Rattle.std.specs.Prelude.{◌≡◌, ◌<◌, ◌≤◌, ◌∷◌, ◌++◌, ℕ, true, false, List, [], length, slice_get, slice_index_or};
ghost use Rattle.std.specs.Prelude.{slice_set, replicate, Some, None, Err, IfOk, OnOk, OnErr, IsTrue};
ghost use Rattle.dg_base.specs.Texts.{spells_name};
ghost use Rattle.dg_nor.specs.Device.{Device};
ghost use Rattle.dg_object.specs.Object.{Row, row_of};
ghost use Rattle.dg_volume.specs.Sizes.{images};
ghost use Rattle.dg_volume.specs.Store.{Store};
ghost use Rattle.dg_volume.specs.Stands.{Stands};
ghost use Rattle.dg_volume.specs.Table.{row_at};
ghost use Rattle.dg_rules.specs.Sizes.{most_motes, most_content};
ghost use Rattle.dg_rules.specs.World.{World as RuleWorld, first_world, no_site};
ghost use Rattle.dg_rules.specs.Changes.{same_row, is_taken};
ghost use Rattle.dg_rules.specs.Steps.{declared_as};
ghost use Rattle.dg_script.specs.Places.{none_narrow};
ghost use Rattle.dg_base.specs.declared.events.ImageVersion.{ImageVersion};
ghost use Rattle.dg_shared.specs.Images.{row_of_image};
ghost use Rattle.dg_world.specs.Worlds.{IsWorld};
ghost use Rattle.dg_world.specs.Known.{known_of};

use crate::outcome::Outcome;
use crate::world::{DeclareFault, World};
use dg_base::Bytes;
use dg_node::Node;
use dg_rules::ImageVersion;
use dg_shared::{Air, Image, Images, Links, MOST_MOTES, Shared};
use std::alloc::{AllocError, Global};

impl World {
    /// A world at moment 0 in which no event was applied, nothing is declared and nothing was sent. No motes are neighbours,
    /// none is narrow, and all are off.
    pub fn new(alloc: Global, motes: u8) -> Result<World, AllocError>
        requires some { 1 ≤ motes }
        requires few { motes ≤ most_motes }
        ensures begins { IfOk result (λ v. (boards : List Device) (stores : List Store) (table : List Row)
            → length stores ≡ motes → motes ≤ length boards
            → ((m : ℕ) (d : Device) → m < motes → slice_get boards m ≡ Some d
            → Stands d.image (slice_index_or stores m no_site.store))
            → IsWorld v boards (first_world table [] none_narrow stores)) }
        ensures none_known { IfOk result (λ v. (m : ℕ) → known_of v m ≡ false) }
    {
        Ok(World::at_rest(alloc, all_off(alloc, motes)?))
    }

    /// A world of no motes, in which nothing can happen.
    pub fn none(alloc: Global) -> World
        ensures { (boards : List Device) (table : List Row) → IsWorld result boards (first_world table [] none_narrow []) }
    {
        World::at_rest(alloc, Vec::new(alloc))
    }

    /// The first world of motes that are off.
    fn at_rest(alloc: Global, motes: Vec<Option<Node>>) -> World
        ensures begins { (n : ℕ) (boards : List Device) (stores : List Store) (table : List Row) → motes.items ≡ replicate n None
            → n ≤ most_motes → length stores ≡ n → n ≤ length boards
            → ((m : ℕ) (d : Device) → m < n → slice_get boards m ≡ Some d
            → Stands d.image (slice_index_or stores m no_site.store))
            → IsWorld result boards (first_world table [] none_narrow stores) }
        ensures none_known { (m : ℕ) → known_of result m ≡ false }
    {
        World {
            moment: 0,
            events: 0,
            shared: Shared {
                images: Images::new(alloc),
                links: Links::none(),
                narrow: [false; MOST_MOTES],
                air: Air::new(alloc),
            },
            motes,
            known: [false; MOST_MOTES],
            outcome: Outcome::new(),
        }
    }

    /// Two motes become neighbours.
    pub fn link(&mut self, a: u8, b: u8)
        ensures linked { (boards : List Device) (w : RuleWorld) → IsWorld self.old boards w
            → IsWorld self.new boards (record w { links = w.links ++ (a, b) ∷ [] }) }
        ensures known { (m : ℕ) → known_of self.new m ≡ known_of self.old m }
    {
        self.shared.links.join(a, b);
    }

    /// Makes a mote narrow: it has the old radio, and its frames name images 1 to 3.
    pub fn narrow(&mut self, mote: u8)
        ensures marked { (boards : List Device) (w : RuleWorld) → IsWorld self.old boards w
            → IsWorld self.new boards (record w { narrow = slice_set w.narrow mote true }) }
        ensures known { (m : ℕ) → known_of self.new m ≡ known_of self.old m }
    {
        mark(&mut self.shared.narrow, usize::from(mote));
    }

    /// Declares an image, unless this version of it has another name or content.
    pub fn declare(
        &mut self,
        image: u8,
        version: u32,
        name: Bytes,
        content: Bytes,
    ) -> Result<(), DeclareFault>
        requires not_golden { 1 ≤ image }
        requires known_image { image < images }
        requires some_version { 1 ≤ version }
        requires named { IsTrue (spells_name name) }
        requires fits { length content ≤ most_content }
        ensures declared { OnOk result ((boards : List Device) (w : RuleWorld) → IsWorld self.old boards w
            → IsWorld self.new boards (declared_as (row_at w.declared image version) w (row_of image version name content))) }
        ensures allowed { OnOk result ((boards : List Device) (w : RuleWorld) → IsWorld self.old boards w
            → is_taken (row_at w.declared image version) (row_of image version name content) ≡ false) }
        ensures taken { result ≡ Err DeclareFault.Taken → (boards : List Device) (w : RuleWorld) → IsWorld self.old boards w
            → is_taken (row_at w.declared image version) (row_of image version name content) ≡ true }
        ensures unchanged { OnErr result ((boards : List Device) (w : RuleWorld) → IsWorld self.old boards w
            → IsWorld self.new boards w) }
        // which boards are known does not change, whatever it answers
        ensures known { (m : ℕ) → known_of self.new m ≡ known_of self.old m }
    {
        let image_version = ImageVersion { image, version };
        if let Some(kept) = self.shared.images.get(image_version) {
            if is_same(kept, &name, &content) {
                return Ok(());
            }
            return Err(DeclareFault::Taken);
        }
        match self
            .shared
            .images
            .add(image_version, Image { name, content })
        {
            Ok(()) => Ok(()),
            Err(AllocError) => Err(DeclareFault::Memory),
        }
    }
}

/// `motes` motes that are off.
fn all_off(alloc: Global, motes: u8) -> Result<Vec<Option<Node>>, AllocError>
    ensures { IfOk result (λ v. v.items ≡ replicate motes None) }
{
    let mut off = Vec::with_capacity(alloc, usize::from(motes))?;
    for _ in 0..motes {
        off.push_reserved(None);
    }
    Ok(off)
}

/// Whether an image has this name and these bytes.
fn is_same(kept: &Image, name: &Bytes, content: &Bytes) -> bool
    ensures { (image_version : ImageVersion)
        → result ≡ same_row (row_of_image image_version kept.now)
        (row_of image_version.image image_version.version name.now content.now) }
{
    kept.name.as_slice() == name.as_slice() && kept.content.as_slice() == content.as_slice()
}

/// Marks the mote with this number, if there may be one.
fn mark(motes: &mut [bool], mote: usize)
    ensures { motes.new ≡ slice_set motes.old mote true }
{
    if mote < motes.len() {
        motes[mote] = true;
    }
}
