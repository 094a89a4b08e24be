//! The last state of a world, read from its boards.
ghost use Rattle.std.specs.Prelude.{◌≡◌, ◌+◌, ◌-◌, ◌*◌, ◌<◌, ◌≤◌, ◌++◌, ℕ, List, map, length, slice_get, vec_len, Err, OnOk};
ghost use Rattle.std.specs.Prelude.{OnErr};
ghost use Rattle.std.specs.List.{flat_map, range_with_len};
ghost use Rattle.std.specs.Vec.{vec_capacity};
ghost use Rattle.dg_nor.specs.Reads.{Looked, ReadStopped};
ghost use Rattle.dg_volume.specs.Sizes.{images};
ghost use Rattle.dg_volume.specs.Stands.{IsVolume};
ghost use Rattle.dg_rules.specs.World.{World as RuleWorld, Site, site};
ghost use Rattle.dg_rules.specs.Changes.{site_lines, final_lines};
ghost use Rattle.dg_world.specs.Worlds.{IsWorld, SiteStands};
ghost use Rattle.dg_world.specs.Counts.{AreSteady};
ghost use Rattle.dg_world.specs.Applied.{SameBoards, ReadFlash};
ghost use Rattle.dg_world.specs.inner.Finished.{mote_report, kept_report, kept_reports};

use crate::chip_report::push_line;
use crate::world::World;
use dg_control::IMAGES;
use dg_node::{ChipReport, Node, report_chip};
use dg_nor::{Nor, Stopped};
use dg_rules::Report;
use dg_volume::{Kept, MountFault, Volume};

/// The most last lines of a mote: what it runs, and what is kept of each image but golden.
const MOST_SITE_LINES: usize = IMAGES;

/// Why the last state of a world is not reported.
#[derive(Clone, Copy, Debug, PartialEq, Eq)]
pub enum FinishFault {
    /// Out of memory.
    Memory,
    /// This board stopped.
    Flash { board: u8 },
}

impl World {
    /// The last state, read from the boards. After `Flash` and `Memory` nothing is reported of it.
    pub fn finish<N: Nor>(
        &self,
        boards: &mut Vec<N>,
        out: &mut Vec<Report>,
    ) -> Result<(), FinishFault>
        requires world { (w : RuleWorld) × IsWorld self.now (map N.device boards.old.items) w }
        ensures finished { OnOk result ((w : RuleWorld) → IsWorld self.now (map N.device boards.old.items) w
            → out.new.items ≡ out.old.items ++ final_lines w) }
        ensures unreported { OnErr result (out.new.items ≡ out.old.items) }
        ensures boards { SameBoards (map N.device boards.old.items) (map N.device boards.new.items) }
        // a board stops, and a count rises, only where that is the answer
        ensures calm { OnOk result (AreSteady (map N.device boards.old.items) (map N.device boards.new.items)) }
        ensures calm_memory { result ≡ Err FinishFault.Memory
            → AreSteady (map N.device boards.old.items) (map N.device boards.new.items) }
        // only the boards of motes are read
        ensures others { (w : RuleWorld) → IsWorld self.now (map N.device boards.old.items) w → (m : ℕ) → length w.sites ≤ m
            → slice_get (map N.device boards.new.items) m ≡ slice_get (map N.device boards.old.items) m }
        // whatever the outcome, the boards stand for the world as before
        ensures stands { (w : RuleWorld) → IsWorld self.now (map N.device boards.old.items) w
            → IsWorld self.now (map N.device boards.new.items) w }
        ensures flash { (board : ℕ) → result ≡ Err (FinishFault.Flash board)
            → ReadFlash board (map N.device boards.old.items) (map N.device boards.new.items) }
        ensures known_board { (board : ℕ) → result ≡ Err (FinishFault.Flash board) → (w : RuleWorld)
            → IsWorld self.now (map N.device boards.old.items) w → board < length w.sites }
    {
        let start = out.len();
        match out.reserve(1 + MOST_SITE_LINES * self.motes.len()) {
            Ok(()) => {}
            Err(_) => return Err(FinishFault::Memory),
        }
        out.push_reserved(Report::End {
            events: self.events,
        });
        match self.push_sites(boards, out) {
            Ok(()) => Ok(()),
            Err(BoardStopped { board }) => {
                out.truncate(start);
                Err(FinishFault::Flash { board })
            }
        }
    }

    /// Appends the last lines of all motes, in their order. There is capacity for them.
    fn push_sites<N: Nor>(
        &self,
        boards: &mut [N],
        out: &mut Vec<Report>,
    ) -> Result<(), BoardStopped>
        requires world { (w : RuleWorld) × IsWorld self.now (map N.device boards.old) w }
        requires capacity { vec_len out.old + MOST_SITE_LINES * length self.now.motes.items ≤ vec_capacity out.old }
        ensures reported { OnOk result ((w : RuleWorld) → IsWorld self.now (map N.device boards.old) w
            → out.new.items ≡ out.old.items ++ flat_map (λ m. site_lines m (site w m)) (range_with_len 0 (length w.sites))) }
        ensures begun { (lines : List Report) × (out.new.items ≡ out.old.items ++ lines) }
        ensures boards { SameBoards (map N.device boards.old) (map N.device boards.new) }
        ensures calm { OnOk result (AreSteady (map N.device boards.old) (map N.device boards.new)) }
        // only the boards of motes are read
        ensures others { (w : RuleWorld) → IsWorld self.now (map N.device boards.old) w → (m : ℕ) → length w.sites ≤ m
            → slice_get (map N.device boards.new) m ≡ slice_get (map N.device boards.old) m }
        ensures stands { (w : RuleWorld) → IsWorld self.now (map N.device boards.old) w
            → IsWorld self.now (map N.device boards.new) w }
        ensures flash { (e : BoardStopped) → result ≡ Err e
            → ReadFlash e.board (map N.device boards.old) (map N.device boards.new) }
        ensures known_board { (e : BoardStopped) → result ≡ Err e → (w : RuleWorld)
            → IsWorld self.now (map N.device boards.old) w → e.board < length w.sites }
    {
        for mote in 0..self.motes.len() {
            let runs = &self.motes[mote];
            match push_site(&mut boards[mote], mote as u8, runs, out) {
                Ok(()) => {}
                Err(Stopped) => return Err(BoardStopped { board: mote as u8 }),
            }
        }
        Ok(())
    }
}

/// A board stopped while it was read.
#[derive(Clone, Copy)]
struct BoardStopped {
    /// The number of the board, from 0.
    board: u8,
}

/// Reads a board that is a volume, and appends the last lines of its mote. There is capacity for them.
fn push_site<N: Nor>(
    nor: &mut N,
    mote: u8,
    runs: &Option<Node>,
    out: &mut Vec<Report>,
) -> Result<(), Stopped>
    requires volume { IsVolume (N.device nor.old).image }
    requires capacity { vec_len out.old + MOST_SITE_LINES ≤ vec_capacity out.old }
    ensures reported { OnOk result ((x : Site) → SiteStands (N.device nor.old) runs.now x
        → out.new.items ≡ out.old.items ++ site_lines mote x) }
    ensures begun { (lines : List Report) × (out.new.items ≡ out.old.items ++ lines) }
    ensures looked { OnOk result (Looked (N.device nor.old) (N.device nor.new)) }
    ensures stopped { OnErr result (ReadStopped (N.device nor.old) (N.device nor.new)) }
    ensures unreported { OnErr result (out.new.items ≡ out.old.items) }
    ensures capacity { vec_capacity out.new ≡ vec_capacity out.old }
    ensures few { vec_len out.new ≤ vec_len out.old + MOST_SITE_LINES }
{
    match Volume::mount(nor) {
        Ok(volume) => {
            out.push_reserved(mote_line(mote, runs));
            push_keeps(mote, &report_chip(&volume), out);
            Ok(())
        }
        Err(MountFault::Stopped) => Err(Stopped),
        // it is a volume, so that this does not happen
        Err(MountFault::NotAVolume) => Err(Stopped),
    }
}

/// The line on what a mote runs at the end.
fn mote_line(mote: u8, runs: &Option<Node>) -> Report
    ensures { result ≡ mote_report mote runs.now }
{
    match runs {
        None => Report::MoteOff { mote },
        Some(running) => Report::MoteOn {
            mote,
            image: running.image_version().image,
            version: running.image_version().version,
        },
    }
}

/// The line on what a mote keeps of an image at the end.
fn kept_line(mote: u8, image: u8, kept: Option<Kept>) -> Option<Report>
    ensures { result ≡ kept_report mote image kept }
{
    match kept {
        None => None,
        Some(kept) => Some(Report::Kept {
            mote,
            image,
            version: kept.version,
            pages: kept.done,
        }),
    }
}

/// Appends the lines on what a mote keeps of each image but golden. There is capacity for them.
fn push_keeps(mote: u8, chip_report: &ChipReport, out: &mut Vec<Report>)
    requires capacity { vec_len out.old + (IMAGES - 1) ≤ vec_capacity out.old }
    ensures reported { out.new.items ≡ out.old.items ++ kept_reports mote chip_report.now (images - 1) }
    ensures capacity { vec_capacity out.new ≡ vec_capacity out.old }
    ensures few { vec_len out.new ≤ vec_len out.old + (IMAGES - 1) }
{
    for image in 1..IMAGES {
        let line = kept_line(mote, image as u8, chip_report.kept[image]);
        push_line(line, out);
    }
}
