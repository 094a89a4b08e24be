//! Plays the lines of a script over its world.
ghost use Rattle.std.specs.Prelude.{◌≡◌, ◌<◌, ◌≤◌, ℕ, false, List, [], Err, map, length, OnOk, OnErr};
ghost use Rattle.dg_nor.specs.Device.{Device};
ghost use Rattle.dg_volume.specs.Store.{fresh};
ghost use Rattle.dg_script.specs.Fitting.{IsGoldenImage};
ghost use Rattle.dg_script.specs.Places.{first_place, place_after};
ghost use Rattle.dg_replay.specs.Playing.{Stood, MayPlay, gone_on, Counted, PlayedAs, FormattedAs, MountedAs, mount_stop};
ghost use Rattle.dg_replay.specs.Shown.{StaysSeen};
ghost use Rattle.dg_replay.specs.Stages.{Baseline, DoneSoFar, told_so_far, boards_told};
ghost use Rattle.dg_replay.specs.Untouched.{KeepBytes, LineKeepsBytes};

use crate::items::{LineReport, play_event, play_image};
use crate::rounds::{play_round, play_sweeps};
use crate::stop::Stop;
use crate::watching::Watcher;
use dg_base::Bytes;
use dg_nor::Nor;
use dg_script::{Line, Place};
use dg_volume::a_chip_stands_for_a_shaped_store;
use dg_world::{FormatStopped, MountStopped, World, format_boards, mount_boards};
use std::alloc::{AllocError, Global};
use std::mem;

/// Where a replay stands.
#[derive(Drop)]
pub struct Player {
    pub place: Place,
    /// The world of the motes. It has no motes before the boards are used.
    pub world: World,
}

impl Player {
    /// The player of the first line of a script.
    pub fn first(alloc: Global) -> Player
        ensures { result.place ≡ first_place }
    {
        Player {
            place: Place::first(alloc),
            world: World::none(alloc),
        }
    }
}

/// Plays the `motes` line: there are this many motes, and each needs a board.
fn play_motes<N: Nor, W: Watcher<N>>(
    motes: u8,
    boards: &Vec<N>,
    watcher: &mut W,
) -> Result<(), Stop>
    ensures counted { OnOk result (motes ≤ length boards.now.items) }
    ensures missing { (stop : Stop) → result ≡ Err stop → (stop ≡ Stop.NoBoard motes (length boards.now.items))
        × (length boards.now.items < motes) }
    ensures begun { (initial now : List Device) → (W.saw watcher.old initial now).events [] []
        → (W.saw watcher.new initial now).events [] [] }
    ensures unshown { (initial now : List Device)
        → OnErr result (StaysSeen (W.saw watcher.old initial now) (W.saw watcher.new initial now)) }
{
    let have = boards.len();
    if have < usize::from(motes) {
        return Err(Stop::NoBoard {
            motes,
            boards: have as u32,
        });
    }
    watcher.begun(motes);
    Ok(())
}

/// Formats the boards of the motes with golden.
fn format_first<N: Nor>(
    boards: &mut [N],
    motes: u8,
    name: &Bytes,
    used: u32,
    content: &Bytes,
) -> Result<(), FormatStopped>
    requires fits { IsGoldenImage name.now used content.now }
    requires counted { Counted motes (length boards.old) }
    ensures { FormattedAs result motes (fresh name.now content.now used) (map N.device boards.old) (map N.device boards.new) }
{
    let name = name.as_slice();
    let content = content.as_slice();
    format_boards(boards, motes, name, content, used)
}

/// The same over a vector of boards.
fn format<N: Nor>(
    boards: &mut Vec<N>,
    motes: u8,
    name: &Bytes,
    used: u32,
    content: &Bytes,
) -> Result<(), FormatStopped>
    requires fits { IsGoldenImage name.now used content.now }
    requires counted { Counted motes (length boards.old.items) }
    ensures { FormattedAs result motes (fresh name.now content.now used) (map N.device boards.old.items)
        (map N.device boards.new.items) }
{
    format_first(boards.as_mut_slice(), motes, name, used, content)
}

/// Plays the `golden` line: the boards of the motes are formatted with golden.
fn play_golden<N: Nor, W: Watcher<N>>(
    alloc: Global,
    player: &mut Player,
    name: &Bytes,
    used: u32,
    content: &Bytes,
    boards: &mut Vec<N>,
    watcher: &mut W,
) -> Result<(), Stop>
    requires fits { IsGoldenImage name.now used content.now }
    requires counted { Counted player.old.place.motes (length boards.old.items) }
    requires unready { player.old.place.ready ≡ false }
    ensures played { (basis : Baseline) (behind : DoneSoFar) (text : List ℕ)
        → Stood player.old behind.lines behind.world basis.boards (map N.device boards.old.items)
        → PlayedAs basis result (gone_on player.new (Line.Golden name.now used content.now)) behind
        (Line.Golden name.now used content.now)
        (boards_told (map N.device boards.old.items)
        (told_so_far text (W.saw watcher.old basis.boards (map N.device boards.old.items))))
        (boards_told (map N.device boards.new.items)
        (told_so_far text (W.saw watcher.new basis.boards (map N.device boards.new.items)))) }
    ensures place { player.new.place ≡ player.old.place }
{
    let motes = player.place.motes;
    let world = match World::new(alloc, motes) {
        Ok(world) => world,
        Err(AllocError) => return Err(Stop::Memory),
    };
    match format(boards, motes, name, used, content) {
        Ok(()) => {
            player.world = world;
            watcher.placed(motes, Some(used), boards.as_slice());
            Ok(())
        }
        Err(FormatStopped { .. }) => Err(Stop::FlashFault),
    }
}

/// Mounts the boards of the motes as they are.
fn mount_first<N: Nor>(boards: &mut [N], motes: u8) -> Result<(), MountStopped>
    requires counted { Counted motes (length boards.old) }
    ensures { MountedAs result motes (map N.device boards.old) (map N.device boards.new) }
{
    a_chip_stands_for_a_shaped_store();
    mount_boards(boards, motes)
}

/// The same over a vector of boards.
fn mount<N: Nor>(boards: &mut Vec<N>, motes: u8) -> Result<(), MountStopped>
    requires counted { Counted motes (length boards.old.items) }
    ensures { MountedAs result motes (map N.device boards.old.items) (map N.device boards.new.items) }
{
    mount_first(boards.as_mut_slice(), motes)
}

/// Why a replay stops whose boards cannot be used as they are.
fn mount_stop(stopped: MountStopped) -> Stop
    ensures { result ≡ mount_stop stopped }
{
    match stopped {
        MountStopped::Flash { .. } => Stop::FlashFault,
        MountStopped::NotAVolume { .. } => Stop::NotAVolume,
    }
}

/// Plays the `boards` line: the boards of the motes are used as they are.
fn play_boards<N: Nor, W: Watcher<N>>(
    alloc: Global,
    player: &mut Player,
    boards: &mut Vec<N>,
    watcher: &mut W,
) -> Result<(), Stop>
    requires counted { Counted player.old.place.motes (length boards.old.items) }
    requires unready { player.old.place.ready ≡ false }
    ensures played { (basis : Baseline) (behind : DoneSoFar) (text : List ℕ)
        → Stood player.old behind.lines behind.world basis.boards (map N.device boards.old.items)
        → PlayedAs basis result (gone_on player.new Line.Boards) behind Line.Boards
        (boards_told (map N.device boards.old.items)
        (told_so_far text (W.saw watcher.old basis.boards (map N.device boards.old.items))))
        (boards_told (map N.device boards.new.items)
        (told_so_far text (W.saw watcher.new basis.boards (map N.device boards.new.items)))) }
    ensures place { player.new.place ≡ player.old.place }
    ensures kept { KeepBytes [] (map N.device boards.old.items) (map N.device boards.new.items) }
{
    let motes = player.place.motes;
    let world = match World::new(alloc, motes) {
        Ok(world) => world,
        Err(AllocError) => return Err(Stop::Memory),
    };
    match mount(boards, motes) {
        Ok(()) => {
            player.world = world;
            watcher.placed(motes, None, boards.as_slice());
            Ok(())
        }
        Err(stopped) => Err(mount_stop(stopped)),
    }
}

/// Takes bytes out of a line.
fn take_bytes(alloc: Global, bytes: &mut Bytes) -> Bytes
    ensures { result ≡ bytes.old }
{
    mem::replace(bytes, Bytes::new(Vec::new(alloc)))
}

/// Plays a line where the player stands, but does not move the player past it yet. The bytes of an image are taken out of the
/// line, since the move does not need them. A cut waits for its event. What is reported of the line is appended.
pub fn play_line<N: Nor, W: Watcher<N>>(
    alloc: Global,
    line: &mut Line,
    player: &mut Player,
    boards: &mut Vec<N>,
    line_report: &mut LineReport,
    watcher: &mut W,
) -> Result<(), Stop>
    requires may { MayPlay line.old player.old (map N.device boards.old.items) }
    ensures played { (basis : Baseline) (behind : DoneSoFar)
        → Stood player.old behind.lines behind.world basis.boards (map N.device boards.old.items)
        → PlayedAs basis result (gone_on player.new line.new) behind line.old
        (boards_told (map N.device boards.old.items)
        (told_so_far line_report.old.text.items (W.saw watcher.old basis.boards (map N.device boards.old.items))))
        (boards_told (map N.device boards.new.items)
        (told_so_far line_report.new.text.items (W.saw watcher.new basis.boards (map N.device boards.new.items)))) }
    ensures behind { place_after player.new.place line.new ≡ place_after player.old.place line.old }
    ensures linked { (a b : ℕ) → line.new ≡ Line.Link a b → boards.new.items ≡ boards.old.items }
    ensures unshown { (a b : ℕ) (initial : List Device) → line.new ≡ Line.Link a b
        → StaysSeen (W.saw watcher.old initial (map N.device boards.old.items))
        (W.saw watcher.new initial (map N.device boards.new.items)) }
    ensures kept { LineKeepsBytes player.old.place line.old (map N.device boards.old.items) (map N.device boards.new.items) }
{
    match line {
        Line::Nothing | Line::Cut(_) => Ok(()),
        Line::Motes(motes) => play_motes(*motes, boards, watcher),
        Line::Golden {
            name,
            used,
            content,
        } => play_golden(alloc, player, name, *used, content, boards, watcher),
        Line::Boards => play_boards(alloc, player, boards, watcher),
        Line::Image {
            image,
            version,
            name,
            content,
        } => {
            let (name, content) = (take_bytes(alloc, name), take_bytes(alloc, content));
            let world = &mut player.world;
            play_image(world, *image, *version, name, content, line_report, watcher)
        }
        Line::Happens(event) => {
            let cut = player.place.cut.as_ref();
            let world = &mut player.world;
            play_event(world, event, cut, true, boards, line_report, watcher)
        }
        Line::Link(a, b) => {
            player.world.link(*a, *b);
            Ok(())
        }
        Line::Narrow(mote) => {
            player.world.narrow(*mote);
            Ok(())
        }
        Line::Round(a, b) => play_round(&mut player.world, *a, *b, boards, line_report, watcher),
        Line::Sweeps(count) => {
            let links = player.place.links.as_slice();
            let world = &mut player.world;
            play_sweeps(world, links, *count, boards, line_report, watcher)
        }
    }
}
