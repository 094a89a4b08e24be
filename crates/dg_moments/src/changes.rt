//! What motes keep whole, and the moments at which that changes.
ghost use Rattle.std.specs.Prelude.{◌≡◌, ℕ, true, List, Option, OnOk};
ghost use Rattle.std.specs.BTreeMap.{Updates, get};
ghost use Rattle.dg_moments.specs.Moments.{newer as newer_of, newest_of, newest_moment, is_loaded};
ghost use Rattle.dg_moments.specs.Wholes.{image_at_cmp, kept_in, has_all, Knows, ChangesKept, KeepsOthers};
ghost use Rattle.dg_moments.specs.Wholes.{IsNext, AddsFirst, AddsMoment, NotesAll};
ghost use Rattle.dg_moments.specs.Telling.{StaysTold, NotesKept};

use crate::wholes::{ImageAt, Whole, Wholes};
use dg_base::ImageVersion;
use dg_cost_text::Moment;
use std::alloc::AllocError;
use std::collections::BTreeMap;

/// The version that a mote keeps whole of an image.
fn kept_at(kept: &BTreeMap<ImageAt, u32>, at: ImageAt) -> Option<u32>
    ensures { result ≡ get image_at_cmp kept.now at }
{
    kept.get(&at).copied()
}

/// A mote now keeps this version of an image whole, or none.
fn keep(
    kept: &mut BTreeMap<ImageAt, u32>,
    at: ImageAt,
    version: Option<u32>,
) -> Result<(), AllocError>
    ensures { OnOk result (Updates image_at_cmp kept.old kept.new at version) }
{
    let Some(version) = version else {
        kept.remove(&at);
        return Ok(());
    };
    if kept.insert(at, version).is_err() {
        return Err(AllocError);
    }
    Ok(())
}

/// How many times a version became whole at a mote, the next time included.
fn next_time(moments: &BTreeMap<Whole, Moment>, mote: u8, image: u8, version: u32) -> u32
    ensures { IsNext moments.now mote image version result }
{
    for times in 1..u32::MAX {
        let whole = Whole {
            mote,
            image,
            version,
            times,
        };
        if !moments.contains_key(&whole) {
            return times;
        }
    }
    u32::MAX
}

/// A version of an image became whole at a mote.
fn add_moment(
    moments: &mut BTreeMap<Whole, Moment>,
    mote: u8,
    image: u8,
    version: u32,
    at: Moment,
) -> Result<(), AllocError>
    ensures { OnOk result (AddsMoment moments.old moments.new mote image version at) }
{
    let whole = Whole {
        mote,
        image,
        version,
        times: next_time(moments, mote, image, version),
    };
    if moments.insert(whole, at).is_err() {
        return Err(AllocError);
    }
    Ok(())
}

/// The moment of a version, unless there is an earlier one.
fn add_first(
    moments: &mut BTreeMap<ImageVersion, Moment>,
    version: ImageVersion,
    at: Moment,
) -> Result<(), AllocError>
    ensures { OnOk result (AddsFirst moments.old moments.new version at) }
{
    if moments.contains_key(&version) {
        return Ok(());
    }
    if moments.insert(version, at).is_err() {
        return Err(AllocError);
    }
    Ok(())
}

/// Whether each of this many motes keeps a version whole.
fn have_all(kept: &BTreeMap<ImageAt, u32>, motes: u8, image: u8, version: u32) -> bool
    ensures { result ≡ has_all kept.now motes image version }
{
    for mote in 0..motes {
        if kept_at(kept, ImageAt { mote, image }) != Some(version) {
            return false;
        }
    }
    0 < motes
}

/// The newer of two versions.
fn newer(a: Option<u32>, b: Option<u32>) -> Option<u32>
    ensures { result ≡ newer_of a b }
{
    match (a, b) {
        (None, b) => b,
        (a, None) => a,
        (Some(a), Some(b)) => Some(a.max(b)),
    }
}

impl Wholes {
    /// Notes the moment if now each of this many motes keeps the version whole.
    fn note_all(&mut self, motes: u8, image: u8, version: u32, at: Moment) -> Result<(), AllocError>
        ensures all { OnOk result (NotesAll self.old self.new motes image version at) }
        ensures kept { self.new.kept ≡ self.old.kept }
        ensures moments { self.new.moments ≡ self.old.moments }
        ensures stays { StaysTold self.old self.new }
    {
        if !have_all(&self.kept, motes, image, version) {
            return Ok(());
        }
        let image_version = ImageVersion { image, version };
        add_first(&mut self.all, image_version, at)?;
        if self.last.insert(image_version, at).is_err() {
            return Err(AllocError);
        }
        Ok(())
    }

    /// From this moment on one of this many motes keeps this version of an image whole, or none.
    fn change(
        &mut self,
        motes: u8,
        mote: u8,
        image: u8,
        version: Option<u32>,
        at: Moment,
    ) -> Result<(), AllocError>
        ensures changes { OnOk result (ChangesKept self.old self.new motes mote image version at) }
        ensures others { OnOk result (KeepsOthers self.old self.new image) }
        ensures stays { StaysTold self.old self.new }
    {
        let place = ImageAt { mote, image };
        if kept_at(&self.kept, place) == version {
            return Ok(());
        }
        keep(&mut self.kept, place, version)?;
        let Some(version) = version else {
            return Ok(());
        };
        add_moment(&mut self.moments, mote, image, version, at)?;
        self.note_all(motes, image, version, at)?;
        Ok(())
    }
    /// The same, unless memory runs out. Golden, image 0, is left out.
    pub fn note_kept(&mut self, motes: u8, mote: u8, image: u8, version: Option<u32>, at: Moment)
        ensures { NotesKept self.old self.new motes mote image version at }
    {
        if image == 0 {
            return;
        }
        if self.change(motes, mote, image, version, at).is_err() {
            self.lost = true;
        }
    }

    /// The newest version that one of this many motes keeps whole.
    fn newest_version(&self, motes: u8, image: u8) -> Option<u32>
        ensures { result ≡ newest_of motes (λ m. kept_in self.now.kept m image) }
    {
        let mut newest = None;
        for mote in 0..motes {
            newest = newer(newest, kept_at(&self.kept, ImageAt { mote, image }));
        }
        newest
    }

    /// The last moment at which the newest version that one of this many motes keeps whole became whole at all of them, if they
    /// all keep it.
    pub fn newest(&self, motes: u8, image: u8) -> Option<Moment>
        ensures { (kept : ℕ → Option ℕ) (moments : ℕ → ℕ → List Moment) (all : ℕ → List Moment) → is_loaded image ≡ true
            → Knows self.now motes image kept moments all → result ≡ newest_moment motes kept all }
    {
        let Some(version) = self.newest_version(motes, image) else {
            return None;
        };
        if !have_all(&self.kept, motes, image, version) {
            return None;
        }
        self.last.get(&ImageVersion { image, version }).copied()
    }
}
