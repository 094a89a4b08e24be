//! Plays the events of a script, and keeps what is reported of them.
ghost use Rattle.std.specs.Prelude.{◌≡◌, ℕ, ◌+◌, ◌∷◌, ◌++◌, [], ◌<◌, true, false, List, Ok, length, OnOk, OnErr, IfOk, IsOk, Err};
ghost use Rattle.dg_drip.specs.Sizes.{key_count};
ghost use Rattle.dg_drip.specs.Spread.{drip_round, round_of_key, sweeps};
ghost use Rattle.dg_rounds.specs.Rounds.{rounds_of};
ghost use Rattle.dg_drip_replay.specs.Standing.{FitsDripEvent, time_of};
ghost use Rattle.dg_drip_script.specs.Lines.{FitsDripLine, DripStandsAt};
ghost use Rattle.dg_drip_script.specs.Reports.{reported_text};
ghost use Rattle.dg_drip_script.specs.Scripts.{first_script, unreported_items, with_drip_line};
ghost use Rattle.dg_drip_script.specs.Scripts.{rounds_items};
ghost use Rattle.dg_drip_run.specs.inner.Playing.{PlayerStands, IsPlaying, StaysPlaying, DripItemsPlayed, LinePlayed};

use dg_drip::{DripEvent, KEYS};
use dg_drip_replay::{DripNetwork, DripReport};
use dg_drip_script::{DripLine, Standing, push_report};
use dg_rounds::PACE;
use dg_script::MOST_EVENTS;
use std::alloc::{AllocError, Global};

/// Why playing stops.
#[derive(Clone, Copy, Debug, PartialEq, Eq)]
pub enum PlayStop {
    /// Memory ran out.
    Memory,
    /// The script has more events than it may.
    TooMany,
}

/// The nodes of a script, and what is reported of the line that is played.
#[derive(Drop)]
pub struct Player {
    pub network: DripNetwork,
    pub standing: Standing,
    pub events: u32,
    pub text: Vec<u8>,
}

// Appends what is reported of an event.
fn push_text(text: &mut Vec<u8>, report: &Option<DripReport>) -> Result<(), PlayStop>
    ensures reported { OnOk result (text.new.items ≡ text.old.items ++ reported_text report.now) }
    ensures stop { OnErr result (result ≡ Err PlayStop.Memory) }
{
    match report {
        Some(report) => remembered(push_report(text, report)),
        None => Ok(()),
    }
}

// Out of memory, as a stop.
fn remembered(done: Result<(), AllocError>) -> Result<(), PlayStop>
    ensures ok { OnOk result (IsOk done) }
    ensures stop { OnErr result (result ≡ Err PlayStop.Memory) }
{
    match done {
        Ok(()) => Ok(()),
        Err(AllocError) => Err(PlayStop::Memory),
    }
}

// The time since the event before.
fn dt_of(event: &DripEvent) -> u32
    ensures { result ≡ time_of event.now }
{
    match *event {
        DripEvent::Set { dt, .. } | DripEvent::Tick { dt, .. } | DripEvent::Hear { dt, .. } => dt,
        DripEvent::Last { .. } => 0,
    }
}

impl Player {
    /// A player of a script of which nothing was read.
    pub fn new(alloc: Global) -> Result<Player, AllocError>
        ensures { IfOk result (λ p. PlayerStands p first_script []) }
    {
        let network = DripNetwork::new(alloc, 0)?;
        Ok(Player {
            network,
            standing: Standing {
                nodes: 0,
                begun: false,
            },
            events: 0,
            text: Vec::new(alloc),
        })
    }

    /// An event is applied.
    fn apply_event(&mut self, event: &DripEvent, reported: bool) -> Result<(), PlayStop>
        requires playing { IsPlaying self.old }
        requires begun { self.old.standing.begun ≡ true }
        requires fits { FitsDripEvent self.old.standing.nodes event.now }
        ensures ran { DripItemsPlayed result self.old self.new (record { event = event.now; reported = reported } ∷ []) }
        ensures on { OnOk result (StaysPlaying self.old self.new) }
    {
        let _short = dt_of(event);
        if self.events >= MOST_EVENTS {
            return Err(PlayStop::TooMany);
        }
        let report = match self.network.apply(event, reported) {
            Ok(report) => report,
            Err(AllocError) => return Err(PlayStop::Memory),
        };
        self.events += 1;
        push_text(&mut self.text, &report)
    }

    /// One node sends another one what it keeps of a key.
    fn play_key(&mut self, a: u8, b: u8, key: u8) -> Result<(), PlayStop>
        requires playing { IsPlaying self.old }
        requires begun { self.old.standing.begun ≡ true }
        requires fits { (a < self.old.standing.nodes) × (b < self.old.standing.nodes) × (key < key_count) }
        ensures ran { DripItemsPlayed result self.old self.new (unreported_items (round_of_key a b key)) }
        ensures on { OnOk result (StaysPlaying self.old self.new) }
    {
        let tick = DripEvent::Tick {
            node: a,
            key,
            dt: PACE,
            word: 0,
        };
        self.apply_event(&tick, false)?;
        self.apply_event(&tick, false)?;
        self.apply_event(&tick, false)?;
        let last = DripEvent::Last {
            from: a,
            to: b,
            key,
        };
        self.apply_event(&last, false)?;
        Ok(())
    }

    /// One node sends another one all that it keeps.
    fn play_round(&mut self, a: u8, b: u8) -> Result<(), PlayStop>
        requires playing { IsPlaying self.old }
        requires begun { self.old.standing.begun ≡ true }
        requires fits { (a < self.old.standing.nodes) × (b < self.old.standing.nodes) }
        ensures ran { DripItemsPlayed result self.old self.new (unreported_items (drip_round a b)) }
        ensures on { OnOk result (StaysPlaying self.old self.new) }
    {
        for key in 0..KEYS as u8 {
            self.play_key(a, b, key)?;
        }
        Ok(())
    }

    /// A round both ways over every link.
    fn play_sweep(&mut self) -> Result<(), PlayStop>
        requires playing { IsPlaying self.old }
        requires begun { self.old.standing.begun ≡ true }
        ensures ran { DripItemsPlayed result self.old self.new (rounds_items (rounds_of self.old.network.links.items)) }
        ensures on { OnOk result (StaysPlaying self.old self.new) }
    {
        for at in 0..self.network.link_count() {
            let (a, b) = self.network.link_at(at);
            self.play_round(a, b)?;
            self.play_round(b, a)?;
        }
        Ok(())
    }

    /// Plays this many sweeps.
    fn play_sweeps(&mut self, count: u32) -> Result<(), PlayStop>
        requires playing { IsPlaying self.old }
        requires begun { self.old.standing.begun ≡ true }
        ensures { DripItemsPlayed result self.old self.new (rounds_items (sweeps count self.old.network.links.items)) }
    {
        for done in 0..count {
            self.play_sweep()?;
        }
        Ok(())
    }

    /// There are this many nodes, which keep nothing.
    fn play_nodes(&mut self, alloc: Global, count: u8) -> Result<(), PlayStop>
        requires { self.old.standing.nodes ≡ 0 }
        ensures { LinePlayed result self.old self.new (DripLine.Nodes count) }
    {
        match DripNetwork::new(alloc, count) {
            Ok(network) => {
                self.network = network;
                self.standing.nodes = count;
                Ok(())
            }
            Err(AllocError) => Err(PlayStop::Memory),
        }
    }

    /// Two nodes are neighbours.
    fn play_link(&mut self, a: u8, b: u8) -> Result<(), PlayStop>
        requires playing { IsPlaying self.old }
        requires early { self.old.standing.begun ≡ false }
        requires within { (a < self.old.standing.nodes) × (b < self.old.standing.nodes) }
        ensures { LinePlayed result self.old self.new (DripLine.Link a b) }
    {
        remembered(self.network.link(a, b))
    }

    /// Plays a line.
    pub fn play_line(&mut self, alloc: Global, line: &DripLine) -> Result<(), PlayStop>
        requires playing { IsPlaying self.old }
        requires stands { DripStandsAt self.old.standing line.now }
        requires fits { FitsDripLine self.old.standing.nodes line.now }
        ensures { LinePlayed result self.old self.new line.now }
    {
        match *line {
            DripLine::Nothing => Ok(()),
            DripLine::Nodes { count } => self.play_nodes(alloc, count),
            DripLine::Link { a, b } => self.play_link(a, b),
            DripLine::Event { event } => {
                self.standing.begun = true;
                self.apply_event(&event, true)
            }
            DripLine::Round { a, b } => {
                self.standing.begun = true;
                self.play_round(a, b)
            }
            DripLine::Sweeps { count } => {
                self.standing.begun = true;
                self.play_sweeps(count)
            }
        }
    }
}
