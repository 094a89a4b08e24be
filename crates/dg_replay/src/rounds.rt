//! Plays the events of rounds and sweeps.
ghost use Rattle.std.specs.Prelude.{◌<◌, ◌∷◌, ◌++◌, [], List, map, length};
ghost use Rattle.std.specs.List.{AllByRecursion};
ghost use Rattle.dg_nor.specs.Device.{Device};
ghost use Rattle.dg_object.specs.Sizes.{packets};
ghost use Rattle.dg_rounds.specs.Rounds.{times, paced, passed, round, sweep};
ghost use Rattle.dg_script.specs.Items.{unreported};
ghost use Rattle.dg_rules.specs.World.{World as RuleWorld};
ghost use Rattle.dg_rules.specs.Premises.{LinkFits};
ghost use Rattle.dg_world.specs.Worlds.{IsWorld};
ghost use Rattle.dg_world.specs.Boards.{WorldStands};
ghost use Rattle.dg_replay.specs.Playing.{ItemsPlayedAs, KeepsMotes};
ghost use Rattle.dg_replay.specs.Stages.{told_so_far, boards_told};
ghost use Rattle.dg_replay.specs.Untouched.{KeepBytes};

use crate::items::{LineReport, play_event};
use crate::stop::Stop;
use crate::watching::Watcher;
use dg_base::Event;
use dg_nor::Nor;
use dg_object::PACKETS;
use dg_rounds::PACE;
use dg_world::World;

/// How many ticks of a round drain a mote.
const DRAIN_TICKS: u8 = 50;

/// How many ticks of a round make a mote advertise.
const ADVERT_TICKS: u8 = 3;

/// Plays the events of a round. Their frames are not reported.
#[inline(never)]
pub fn play_round<N: Nor, W: Watcher<N>>(
    world: &mut World,
    a: u8,
    b: u8,
    boards: &mut Vec<N>,
    line_report: &mut LineReport,
    watcher: &mut W,
) -> Result<(), Stop>
    requires { (w : RuleWorld) × IsWorld world.old (map N.device boards.old.items) w × LinkFits (length w.sites) (a, b) }
    ensures goes_on { KeepsMotes result world.old world.new (map N.device boards.old.items) (map N.device boards.new.items) }
    ensures played { (w : RuleWorld) (initial : List Device) → IsWorld world.old (map N.device boards.old.items) w
        → WorldStands w initial (map N.device boards.old.items)
        → ItemsPlayedAs result w (unreported (round a b)) world.new initial
        (told_so_far line_report.old.text.items (W.saw watcher.old initial (map N.device boards.old.items)))
        (boards_told (map N.device boards.new.items)
        (told_so_far line_report.new.text.items (W.saw watcher.new initial (map N.device boards.new.items)))) }
    ensures kept { KeepBytes (unreported (round a b)) (map N.device boards.old.items)
        (map N.device boards.new.items) }
{
    play_ticks(world, a, DRAIN_TICKS, boards, line_report, watcher)?;
    play_ticks(world, b, DRAIN_TICKS, boards, line_report, watcher)?;
    play_ticks(world, a, ADVERT_TICKS, boards, line_report, watcher)?;
    play_request(world, a, b, boards, line_report, watcher)?;
    play_packets(world, a, b, boards, line_report, watcher)?;
    Ok(())
}

/// Plays ticks of a round at a mote.
#[inline(never)]
fn play_ticks<N: Nor, W: Watcher<N>>(
    world: &mut World,
    mote: u8,
    count: u8,
    boards: &mut Vec<N>,
    line_report: &mut LineReport,
    watcher: &mut W,
) -> Result<(), Stop>
    requires { (w : RuleWorld) × IsWorld world.old (map N.device boards.old.items) w × (mote < length w.sites) }
    ensures goes_on { KeepsMotes result world.old world.new (map N.device boards.old.items) (map N.device boards.new.items) }
    ensures played { (w : RuleWorld) (initial : List Device) → IsWorld world.old (map N.device boards.old.items) w
        → WorldStands w initial (map N.device boards.old.items)
        → ItemsPlayedAs result w (unreported (times count (paced mote ∷ []))) world.new initial
        (told_so_far line_report.old.text.items (W.saw watcher.old initial (map N.device boards.old.items)))
        (boards_told (map N.device boards.new.items)
        (told_so_far line_report.new.text.items (W.saw watcher.new initial (map N.device boards.new.items)))) }
    ensures kept { KeepBytes (unreported (times count (paced mote ∷ []))) (map N.device boards.old.items)
        (map N.device boards.new.items) }
{
    for _ in 0..count {
        play_tick(world, mote, boards, line_report, watcher)?;
    }
    Ok(())
}

/// Plays a tick of a round.
#[inline(always)]
fn play_tick<N: Nor, W: Watcher<N>>(
    world: &mut World,
    mote: u8,
    boards: &mut Vec<N>,
    line_report: &mut LineReport,
    watcher: &mut W,
) -> Result<(), Stop>
    requires { (w : RuleWorld) × IsWorld world.old (map N.device boards.old.items) w × (mote < length w.sites) }
    ensures goes_on { KeepsMotes result world.old world.new (map N.device boards.old.items) (map N.device boards.new.items) }
    ensures played { (w : RuleWorld) (initial : List Device) → IsWorld world.old (map N.device boards.old.items) w
        → WorldStands w initial (map N.device boards.old.items)
        → ItemsPlayedAs result w (unreported (paced mote ∷ [])) world.new initial
        (told_so_far line_report.old.text.items (W.saw watcher.old initial (map N.device boards.old.items)))
        (boards_told (map N.device boards.new.items)
        (told_so_far line_report.new.text.items (W.saw watcher.new initial (map N.device boards.new.items)))) }
    ensures kept { KeepBytes (unreported (paced mote ∷ [])) (map N.device boards.old.items)
        (map N.device boards.new.items) }
{
    let tick = Event::Tick {
        mote,
        dt: PACE,
        word: 0,
    };
    play_event(world, &tick, None, false, boards, line_report, watcher)
}

/// Plays that a mote hears the last frame of another one.
#[inline(always)]
fn play_heard<N: Nor, W: Watcher<N>>(
    world: &mut World,
    from: u8,
    to: u8,
    boards: &mut Vec<N>,
    line_report: &mut LineReport,
    watcher: &mut W,
) -> Result<(), Stop>
    requires { (w : RuleWorld) × IsWorld world.old (map N.device boards.old.items) w × LinkFits (length w.sites) (from, to) }
    ensures goes_on { KeepsMotes result world.old world.new (map N.device boards.old.items) (map N.device boards.new.items) }
    ensures played { (w : RuleWorld) (initial : List Device) → IsWorld world.old (map N.device boards.old.items) w
        → WorldStands w initial (map N.device boards.old.items)
        → ItemsPlayedAs result w (unreported (passed from to ∷ [])) world.new initial
        (told_so_far line_report.old.text.items (W.saw watcher.old initial (map N.device boards.old.items)))
        (boards_told (map N.device boards.new.items)
        (told_so_far line_report.new.text.items (W.saw watcher.new initial (map N.device boards.new.items)))) }
    ensures kept { KeepBytes (unreported (passed from to ∷ [])) (map N.device boards.old.items)
        (map N.device boards.new.items) }
{
    let last = Event::Last {
        from,
        to,
        dt: 0,
        word: 0,
    };
    play_event(world, &last, None, false, boards, line_report, watcher)
}

/// Plays that a mote asks another one, which advertised, for a page.
#[inline(never)]
fn play_request<N: Nor, W: Watcher<N>>(
    world: &mut World,
    a: u8,
    b: u8,
    boards: &mut Vec<N>,
    line_report: &mut LineReport,
    watcher: &mut W,
) -> Result<(), Stop>
    requires { (w : RuleWorld) × IsWorld world.old (map N.device boards.old.items) w × LinkFits (length w.sites) (a, b) }
    ensures goes_on { KeepsMotes result world.old world.new (map N.device boards.old.items) (map N.device boards.new.items) }
    ensures played { (w : RuleWorld) (initial : List Device) → IsWorld world.old (map N.device boards.old.items) w
        → WorldStands w initial (map N.device boards.old.items)
        → ItemsPlayedAs result w (unreported (passed a b ∷ paced b ∷ passed b a ∷ [])) world.new initial
        (told_so_far line_report.old.text.items (W.saw watcher.old initial (map N.device boards.old.items)))
        (boards_told (map N.device boards.new.items)
        (told_so_far line_report.new.text.items (W.saw watcher.new initial (map N.device boards.new.items)))) }
    ensures kept { KeepBytes (unreported (passed a b ∷ paced b ∷ passed b a ∷ [])) (map N.device boards.old.items)
        (map N.device boards.new.items) }
{
    play_heard(world, a, b, boards, line_report, watcher)?;
    play_tick(world, b, boards, line_report, watcher)?;
    play_heard(world, b, a, boards, line_report, watcher)?;
    Ok(())
}

/// Plays that a mote sends a packet, and another one hears it.
#[inline(always)]
fn play_packet<N: Nor, W: Watcher<N>>(
    world: &mut World,
    a: u8,
    b: u8,
    boards: &mut Vec<N>,
    line_report: &mut LineReport,
    watcher: &mut W,
) -> Result<(), Stop>
    requires { (w : RuleWorld) × IsWorld world.old (map N.device boards.old.items) w × LinkFits (length w.sites) (a, b) }
    ensures goes_on { KeepsMotes result world.old world.new (map N.device boards.old.items) (map N.device boards.new.items) }
    ensures played { (w : RuleWorld) (initial : List Device) → IsWorld world.old (map N.device boards.old.items) w
        → WorldStands w initial (map N.device boards.old.items)
        → ItemsPlayedAs result w (unreported (paced a ∷ passed a b ∷ [])) world.new initial
        (told_so_far line_report.old.text.items (W.saw watcher.old initial (map N.device boards.old.items)))
        (boards_told (map N.device boards.new.items)
        (told_so_far line_report.new.text.items (W.saw watcher.new initial (map N.device boards.new.items)))) }
    ensures kept { KeepBytes (unreported (paced a ∷ passed a b ∷ [])) (map N.device boards.old.items)
        (map N.device boards.new.items) }
{
    play_tick(world, a, boards, line_report, watcher)?;
    play_heard(world, a, b, boards, line_report, watcher)?;
    Ok(())
}

/// Plays the packets of a page.
#[inline(never)]
fn play_packets<N: Nor, W: Watcher<N>>(
    world: &mut World,
    a: u8,
    b: u8,
    boards: &mut Vec<N>,
    line_report: &mut LineReport,
    watcher: &mut W,
) -> Result<(), Stop>
    requires { (w : RuleWorld) × IsWorld world.old (map N.device boards.old.items) w × LinkFits (length w.sites) (a, b) }
    ensures goes_on { KeepsMotes result world.old world.new (map N.device boards.old.items) (map N.device boards.new.items) }
    ensures played { (w : RuleWorld) (initial : List Device) → IsWorld world.old (map N.device boards.old.items) w
        → WorldStands w initial (map N.device boards.old.items)
        → ItemsPlayedAs result w (unreported (times packets (paced a ∷ passed a b ∷ []))) world.new initial
        (told_so_far line_report.old.text.items (W.saw watcher.old initial (map N.device boards.old.items)))
        (boards_told (map N.device boards.new.items)
        (told_so_far line_report.new.text.items (W.saw watcher.new initial (map N.device boards.new.items)))) }
    ensures kept { KeepBytes (unreported (times packets (paced a ∷ passed a b ∷ []))) (map N.device boards.old.items)
        (map N.device boards.new.items) }
{
    for _ in 0..PACKETS {
        play_packet(world, a, b, boards, line_report, watcher)?;
    }
    Ok(())
}

/// Plays the rounds over a link, one in each direction.
fn play_both<N: Nor, W: Watcher<N>>(
    world: &mut World,
    a: u8,
    b: u8,
    boards: &mut Vec<N>,
    line_report: &mut LineReport,
    watcher: &mut W,
) -> Result<(), Stop>
    requires { (w : RuleWorld) × IsWorld world.old (map N.device boards.old.items) w × LinkFits (length w.sites) (a, b) }
    ensures goes_on { KeepsMotes result world.old world.new (map N.device boards.old.items) (map N.device boards.new.items) }
    ensures played { (w : RuleWorld) (initial : List Device) → IsWorld world.old (map N.device boards.old.items) w
        → WorldStands w initial (map N.device boards.old.items)
        → ItemsPlayedAs result w (unreported (round a b ++ round b a)) world.new initial
        (told_so_far line_report.old.text.items (W.saw watcher.old initial (map N.device boards.old.items)))
        (boards_told (map N.device boards.new.items)
        (told_so_far line_report.new.text.items (W.saw watcher.new initial (map N.device boards.new.items)))) }
    ensures kept { KeepBytes (unreported (round a b ++ round b a)) (map N.device boards.old.items)
        (map N.device boards.new.items) }
{
    play_round(world, a, b, boards, line_report, watcher)?;
    play_round(world, b, a, boards, line_report, watcher)?;
    Ok(())
}

/// Plays the events of a sweep over links.
fn play_sweep<N: Nor, W: Watcher<N>>(
    world: &mut World,
    links: &[(u8, u8)],
    boards: &mut Vec<N>,
    line_report: &mut LineReport,
    watcher: &mut W,
) -> Result<(), Stop>
    requires { (w : RuleWorld) × IsWorld world.old (map N.device boards.old.items) w
        × AllByRecursion (LinkFits (length w.sites)) links.now }
    ensures goes_on { KeepsMotes result world.old world.new (map N.device boards.old.items) (map N.device boards.new.items) }
    ensures played { (w : RuleWorld) (initial : List Device) → IsWorld world.old (map N.device boards.old.items) w
        → WorldStands w initial (map N.device boards.old.items)
        → ItemsPlayedAs result w (unreported (sweep links.now)) world.new initial
        (told_so_far line_report.old.text.items (W.saw watcher.old initial (map N.device boards.old.items)))
        (boards_told (map N.device boards.new.items)
        (told_so_far line_report.new.text.items (W.saw watcher.new initial (map N.device boards.new.items)))) }
    ensures kept { KeepBytes (unreported (sweep links.now)) (map N.device boards.old.items)
        (map N.device boards.new.items) }
{
    for link in links {
        play_both(world, link.0, link.1, boards, line_report, watcher)?;
    }
    Ok(())
}

/// Plays the events of this many sweeps over links.
#[inline(never)]
pub fn play_sweeps<N: Nor, W: Watcher<N>>(
    world: &mut World,
    links: &[(u8, u8)],
    count: u32,
    boards: &mut Vec<N>,
    line_report: &mut LineReport,
    watcher: &mut W,
) -> Result<(), Stop>
    requires { (w : RuleWorld) × IsWorld world.old (map N.device boards.old.items) w
        × AllByRecursion (LinkFits (length w.sites)) links.now }
    ensures played { (w : RuleWorld) (initial : List Device) → IsWorld world.old (map N.device boards.old.items) w
        → WorldStands w initial (map N.device boards.old.items)
        → ItemsPlayedAs result w (unreported (times count (sweep links.now))) world.new initial
        (told_so_far line_report.old.text.items (W.saw watcher.old initial (map N.device boards.old.items)))
        (boards_told (map N.device boards.new.items)
        (told_so_far line_report.new.text.items (W.saw watcher.new initial (map N.device boards.new.items)))) }
    ensures kept { KeepBytes (unreported (times count (sweep links.now))) (map N.device boards.old.items)
        (map N.device boards.new.items) }
{
    for _ in 0..count {
        play_sweep(world, links, boards, line_report, watcher)?;
    }
    Ok(())
}
