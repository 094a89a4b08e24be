//! The world in which a rehearsal begins, and the first lines of its script.
ghost use Rattle.std.specs.Prelude.{◌≡◌, ◌≤◌, ◌<◌, ◌++◌, [], ℕ, List, map, length, codes, slice_get, Some, OnOk, IfOk};
ghost use Rattle.dg_nor.specs.Device.{Device};
ghost use Rattle.dg_netcfg.specs.Readings.{IsAllowed};
ghost use Rattle.dg_script.specs.declared.line.Line.TheVariants.{Golden, Image};
ghost use Rattle.dg_volume.specs.Stands.{Stands};
ghost use Rattle.dg_rules.specs.World.{World as RuleWorld};
ghost use Rattle.dg_world.specs.Worlds.{IsWorld};
ghost use Rattle.dg_rehearse.specs.Rehearsed.{IsPlanned, AreFormatted, base_chip};
ghost use Rattle.dg_rehearse.specs.Rehearsed.{rehearsed_world, declared_world, opening_lines, written_lines};

use crate::plan::Plan;
use crate::stop::Halt;
use dg_base::Bytes;
use dg_lines::write_line;
use dg_netcfg::NetProfile;
use dg_nor::Nor;
use dg_script::Line;
use dg_world::{DeclareFault, FormatStopped, World, format_boards};
use std::alloc::{AllocError, Global};

/// Formats the chips of this many motes with golden.
pub(crate) fn format_chips<N: Nor>(boards: &mut Vec<N>, motes: u8) -> Result<(), Halt>
    requires { motes ≤ length boards.old.items }
    ensures { OnOk result (AreFormatted motes (map N.device boards.old.items) (map N.device boards.new.items)) }
{
    format_first(boards.as_mut_slice(), motes)
}

/// Formats the first of these chips with golden.
fn format_first<N: Nor>(boards: &mut [N], motes: u8) -> Result<(), Halt>
    requires { motes ≤ length boards.old }
    ensures { OnOk result (AreFormatted motes (map N.device boards.old) (map N.device boards.new)) }
{
    match format_boards(boards, motes, b"base", b"A", 0) {
        Ok(()) => Ok(()),
        Err(FormatStopped { .. }) => Err(Halt::Flash),
    }
}

/// A world with the motes of a profile, all off, and its links.
pub(crate) fn network_of(alloc: Global, profile: &NetProfile) -> Result<World, AllocError>
    requires { IsAllowed profile.now }
    ensures { IfOk result (λ v. (boards : List Device) → profile.now.motes ≤ length boards
        → ((m : ℕ) (d : Device) → m < profile.now.motes → slice_get boards m ≡ Some d → Stands d.image base_chip)
        → IsWorld v boards (rehearsed_world profile.now)) }
{
    let mut world = World::new(alloc, profile.motes)?;
    for link in profile.links.as_slice() {
        world.link(link.0, link.1);
    }
    Ok(world)
}

/// Declares the image of a plan in a world that has none.
pub(crate) fn declare(alloc: Global, plan: &Plan, world: &mut World) -> Result<(), Halt>
    requires { (motes : ℕ) × IsPlanned motes plan.now }
    ensures { OnOk result ((boards : List Device) (w : RuleWorld) → IsWorld world.old boards w → w.declared ≡ []
        → IsWorld world.new boards (declared_world w plan.now)) }
{
    let name = copied(alloc, &plan.name)?;
    let content = copied(alloc, &plan.content)?;
    match world.declare(plan.image, plan.version, name, content) {
        Ok(()) => Ok(()),
        Err(DeclareFault::Memory | DeclareFault::Taken) => Err(Halt::Memory),
    }
}

/// Writes the lines before the first event.
pub(crate) fn write_opening(
    alloc: Global,
    profile: &NetProfile,
    plan: &Plan,
    script: &mut Vec<u8>,
) -> Result<(), AllocError>
    requires allowed { IsAllowed profile.now }
    requires planned { IsPlanned profile.now.motes plan.now }
    ensures { OnOk result (script.new.items ≡ script.old.items ++ written_lines (opening_lines profile.now plan.now)) }
{
    write_line(&Line::Motes(profile.motes), script)?;
    let golden = golden_line(alloc)?;
    write_line(&golden, script)?;
    for link in profile.links.as_slice() {
        write_line(&Line::Link(link.0, link.1), script)?;
    }
    let image = image_line(alloc, plan)?;
    write_line(&image, script)
}

/// The `golden` line.
pub(crate) fn golden_line(alloc: Global) -> Result<Line, AllocError>
    ensures { IfOk result (λ line. line ≡ Golden (codes "base") 0 (codes "A")) }
{
    Ok(Line::Golden {
        name: Bytes::new(Vec::from_slice(alloc, b"base")?),
        used: 0,
        content: Bytes::new(Vec::from_slice(alloc, b"A")?),
    })
}

/// The `image` line of a plan.
fn image_line(alloc: Global, plan: &Plan) -> Result<Line, AllocError>
    ensures { IfOk result (λ line. line ≡ Image plan.now.image plan.now.version plan.now.name plan.now.content) }
{
    Ok(Line::Image {
        image: plan.image,
        version: plan.version,
        name: copied(alloc, &plan.name)?,
        content: copied(alloc, &plan.content)?,
    })
}

/// A copy of bytes.
fn copied(alloc: Global, bytes: &Bytes) -> Result<Bytes, AllocError>
    ensures { IfOk result (λ copy. copy ≡ bytes.now) }
{
    Ok(Bytes::new(Vec::from_slice(alloc, bytes.as_slice())?))
}
