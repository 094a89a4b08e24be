//! The world in which a trial begins.
ghost use Rattle.std.specs.Prelude.{◌≡◌, ◌+◌, ◌-◌, ◌*◌, ◌<◌, ◌≤◌, ◌∷◌, ℕ, List, [], map, length, slice_get, replicate, Some};
ghost use Rattle.std.specs.Prelude.{IfOk, OnOk, OnErr, Err};
ghost use Rattle.dg_nor.specs.Device.{Device};
ghost use Rattle.dg_object.specs.Sizes.{most_bytes};
ghost use Rattle.dg_volume.specs.Stands.{Stands};
ghost use Rattle.dg_script.specs.Contents.{generated};
ghost use Rattle.dg_script.specs.Places.{none_narrow};
ghost use Rattle.dg_rules.specs.Sizes.{most_motes};
ghost use Rattle.dg_rules.specs.World.{World as RuleWorld, first_world};
ghost use Rattle.dg_world.specs.Worlds.{IsWorld};
ghost use Rattle.dg_trial.specs.Schedule.{line_links};
ghost use Rattle.dg_trial.specs.inner.Words.{size_by};
ghost use Rattle.dg_trial.specs.inner.Words.{row_by};
ghost use Rattle.dg_trial.specs.Playing.{golden, chip};
ghost use Rattle.dg_trial.specs.inner.Outcomes.{FormatEnds, BeginEnds};

use dg_base::Bytes;
use dg_end::{End, Refusal};
use dg_nor::Nor;
use dg_object::PAGE_SIZE;
use dg_script::generate;
use dg_seed::Draws;
use dg_world::{DeclareFault, FormatStopped, World, format_boards};
use std::alloc::{AllocError, Global};

/// The links of this many motes in a line, the last one first.
pub fn line(alloc: Global, motes: u8) -> Result<Vec<(u8, u8)>, AllocError>
    requires { 1 ≤ motes }
    ensures { IfOk result (λ links. links.items ≡ line_links motes) }
{
    let mut links = Vec::new(alloc);
    let mut far = motes - 1;
    while far > 0 {
        links.push((far - 1, far))?;
        far -= 1;
    }
    Ok(links)
}

/// A world of this many motes that are off, with these links.
pub fn linked(alloc: Global, motes: u8, links: &[(u8, u8)]) -> Result<World, AllocError>
    requires some { 1 ≤ motes }
    requires few { motes ≤ most_motes }
    ensures { IfOk result (λ v. (boards : List Device) → motes ≤ length boards
        → ((m : ℕ) (d : Device) → m < motes → slice_get boards m ≡ Some d → Stands d.image chip)
        → IsWorld v boards (first_world (golden ∷ []) links.now none_narrow (replicate motes chip))) }
{
    let mut world = World::new(alloc, motes)?;
    for link in links {
        world.link(link.0, link.1);
    }
    Ok(world)
}

/// How many bytes an image of this many pages has, where a word makes its last page shorter.
fn size(pages: u8, word: u32) -> u32
    requires some { 2 ≤ pages }
    requires few { pages ≤ 65 }
    ensures size { result ≡ size_by pages word }
    ensures fits { result ≤ most_bytes }
{
    let page = PAGE_SIZE as u32;
    (u32::from(pages) - 1) * page - word % page
}

/// The bytes of the image of a trial.
pub fn content_of(alloc: Global, pages: u8, seed: u32, word: u32) -> Result<Bytes, End>
    requires some { 2 ≤ pages }
    requires few { pages ≤ 65 }
    ensures content { IfOk result (λ content. content ≡ generated (size_by pages word) seed) }
    ensures memory { OnErr result (result ≡ Err End.Memory) }
{
    match generate(alloc, size(pages, word), seed) {
        Ok(content) => Ok(content),
        Err(_) => Err(End::Memory),
    }
}

/// Declares the image of a trial.
pub fn declare(alloc: Global, world: &mut World, pages: u8, seed: u32, word: u32) -> Result<(), End>
    requires some { 2 ≤ pages }
    requires few { pages ≤ 65 }
    requires world { (boards : List Device) × (w : RuleWorld) × IsWorld world.old boards w × (w.declared ≡ []) }
    ensures declared { OnOk result ((boards : List Device) (w : RuleWorld) → IsWorld world.old boards w → w.declared ≡ []
        → IsWorld world.new boards (record w { declared = row_by pages seed word ∷ [] })) }
    ensures memory { OnErr result (result ≡ Err End.Memory) }
{
    let name = Bytes::new(Vec::from_slice(alloc, b"trial")?);
    let content = content_of(alloc, pages, seed, word)?;
    match world.declare(1, 1, name, content) {
        Ok(()) => Ok(()),
        Err(DeclareFault::Memory) => Err(End::Memory),
        Err(DeclareFault::Taken) => Err(End::Refused(Refusal::Taken)),
    }
}

/// Formats the first boards with golden.
fn format_first<N: Nor>(boards: &mut [N], motes: u8) -> Result<(), End>
    requires { motes ≤ length boards.old }
    ensures { FormatEnds result motes (map N.device boards.old) (map N.device boards.new) }
{
    match format_boards(boards, motes, b"base", b"A", 0) {
        Ok(()) => Ok(()),
        Err(FormatStopped { .. }) => Err(End::FlashFault),
    }
}

/// Formats the boards of the motes with golden.
pub fn format<N: Nor>(boards: &mut Vec<N>, motes: u8) -> Result<(), End>
    requires { motes ≤ length boards.old.items }
    ensures { FormatEnds result motes (map N.device boards.old.items) (map N.device boards.new.items) }
{
    format_first(boards.as_mut_slice(), motes)
}

/// A trial whose boards are formatted, before its first event.
#[derive(Drop)]
pub struct Begun {
    /// The first draw of the seed, which chose the length of the image.
    pub word: u32,
    /// The draws after it.
    pub draws: Draws,
    pub links: Vec<(u8, u8)>,
    pub world: World,
}

/// Formats the boards of the motes, links the motes and declares the image.
pub fn begin<N: Nor>(
    alloc: Global,
    motes: u8,
    pages: u8,
    seed: u32,
    boards: &mut Vec<N>,
) -> Result<Begun, End>
    requires some { 2 ≤ motes }
    requires few { motes ≤ most_motes }
    requires some_pages { 2 ≤ pages }
    requires few_pages { pages ≤ 65 }
    requires boards { motes ≤ length boards.old.items }
    ensures { BeginEnds result motes pages seed (map N.device boards.old.items) (map N.device boards.new.items) }
{
    let mut draws = Draws::of_seed(seed);
    let word = draws.next();
    let links = line(alloc, motes)?;
    let mut world = linked(alloc, motes, &links)?;
    format(boards, motes)?;
    declare(alloc, &mut world, pages, seed, word)?;
    Ok(Begun {
        word,
        draws,
        links,
        world,
    })
}
