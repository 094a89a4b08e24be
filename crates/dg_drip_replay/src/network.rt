//! A network of nodes, and what happens in it.
ghost use Rattle.std.specs.Prelude.{◌≡◌, ℕ, ◌+◌, ◌-◌, ◌==◌, ◌&&◌, ◌||◌, ◌<◌, ◌≤◌, ◌^◌, [], Ok, Some, Bool, Option, IfOk, OnOk};
ghost use Rattle.std.specs.Prelude.{length, slice_set, slice_index_or};
ghost use Rattle.dg_drip.specs.Sizes.{key_count};
ghost use Rattle.dg_drip.specs.Cells.{outcome, heard_cell};
ghost use Rattle.dg_drip.specs.Network.{Network, start, entry_at, are_drip_neighbours, frame_numbered, is_of, last_said};
ghost use Rattle.dg_drip.specs.Nodes.{cell_of, with_cell, set_answer, after_set, told_by, node_after_tick};
ghost use Rattle.dg_drip.specs.declared.events.DripEvent.TheVariants.{Set, Tick, Hear, Last};
ghost use Rattle.dg_drip_replay.specs.Reports.{report_of_event};
ghost use Rattle.dg_drip_replay.specs.Standing.{NetworkStands, FitsDripEvent, AreKeyed, DripDoes, Hears, TimePasses, node_at};
ghost use Rattle.dg_drip_replay.specs.Standing.{time_of, with_neighbours};

use crate::report::{DripCause, DripReport};
use dg_drip::{DripEvent, DripHeard, DripNode, Entry, Said, SetFault};
use std::alloc::{AllocError, Global};

/// Nodes with their links, the moment in milliseconds, and the frames that were sent, decoded.
#[derive(Drop)]
pub struct DripNetwork {
    nodes: Vec<DripNode>,
    links: Vec<(u8, u8)>,
    moment: u64,
    sent: Vec<Said>,
}

// A value is set at a node.
fn set_at(
    nodes: &mut [DripNode],
    at: u8,
    now: u64,
    word: u32,
    key: u8,
    value: u32,
) -> Result<u32, SetFault>
    requires node { at < length nodes.old }
    requires moment { now < 2 ^ 62 }
    requires key { key < key_count }
    ensures answer { result ≡ set_answer (node_at nodes.old at) key }
    ensures after { nodes.new ≡ slice_set nodes.old at (after_set (node_at nodes.old at) now word key value) }
{
    nodes[usize::from(at)].set(now, word, key, value)
}

// A node checks the timer of a key.
fn tick_at(nodes: &mut [DripNode], at: u8, now: u64, word: u32, key: u8) -> Option<Said>
    requires node { at < length nodes.old }
    requires moment { now < 2 ^ 62 }
    requires key { key < key_count }
    ensures told { result ≡ told_by (node_at nodes.old at) now key }
    ensures after { nodes.new ≡ slice_set nodes.old at (node_after_tick (node_at nodes.old at) now word key) }
{
    nodes[usize::from(at)].tell(now, word, key)
}

// A node hears the contents of a frame.
fn hear_at(nodes: &mut [DripNode], at: u8, now: u64, word: u32, said: &Said) -> DripHeard
    requires node { at < length nodes.old }
    requires moment { now < 2 ^ 62 }
    requires key { said.now.key < key_count }
    ensures answer { result ≡ outcome (cell_of (node_at nodes.old at) said.now.key) said.now.key said.now.entry }
    ensures after { nodes.new ≡ slice_set nodes.old at
        (with_cell (node_at nodes.old at) said.now.key
        (heard_cell (cell_of (node_at nodes.old at) said.now.key) now word said.now.entry)) }
{
    nodes[usize::from(at)].hear_entry(now, word, said.key, said.entry)
}

// Whether a link joins two nodes.
fn joins(link: (u8, u8), a: u16, b: u8) -> bool
    ensures { result ≡ (((link.0 == a) && (link.1 == b)) || ((link.0 == b) && (link.1 == a))) }
{
    let (first, second) = (u16::from(link.0), u16::from(link.1));
    let b = u16::from(b);
    (first == a && second == b) || (first == b && second == a)
}

// Whether two nodes are neighbours.
fn are_drip_neighbours(links: &[(u8, u8)], a: u16, b: u8) -> bool
    ensures { result ≡ are_drip_neighbours links.now a b }
{
    links.iter().any(|link| joins(*link, a, b))
}

// The frame with this number, counted from 1.
fn numbered(sent: &[Said], number: u32) -> Option<Said>
    ensures { result ≡ frame_numbered sent.now number }
{
    if number == 0 {
        return None;
    }
    sent.get(number as usize - 1).copied()
}

// Whether a frame is of this node and of this key.
fn is_of(said: &Said, node: u8, key: u8) -> bool
    ensures { result ≡ is_of node key said.now }
{
    said.source == u16::from(node) && said.key == key
}

// The last frame that a node sent of a key.
fn last_of(sent: &[Said], node: u8, key: u8) -> Option<Said>
    ensures { result ≡ last_said sent.now node key }
{
    let mut left = sent.len();
    while left > 0 {
        let said = sent[left - 1];
        if is_of(&said, node, key) {
            return Some(said);
        }
        left -= 1;
    }
    None
}

impl DripNetwork {
    /// `count` nodes that keep nothing and have no links.
    pub fn new(alloc: Global, count: u8) -> Result<DripNetwork, AllocError>
        ensures start { IfOk result (λ d. NetworkStands d (start [])) }
        ensures nodes { IfOk result (λ d. length d.nodes.items ≡ count) }
        ensures moment { IfOk result (λ d. d.moment ≡ 0) }
        ensures keyed { IfOk result (λ d. AreKeyed d.sent.items) }
    {
        let mut nodes = Vec::new(alloc);
        for id in 0..count {
            nodes.push(DripNode::new(u16::from(id), 0, 0))?;
        }
        Ok(DripNetwork {
            nodes,
            links: Vec::new(alloc),
            moment: 0,
            sent: Vec::new(alloc),
        })
    }

    /// A value is set, and what is reported of it.
    fn set(&mut self, node: u8, key: u8, value: u32, dt: u32, word: u32) -> DripReport
        requires node { node < length self.old.nodes.items }
        requires key { key < key_count }
        requires moment { self.old.moment + dt < 2 ^ 62 }
        requires keyed { AreKeyed self.old.sent.items }
        ensures does { (w : Network) (reported : Bool) → NetworkStands self.old w
            → DripDoes self.new w reported (Set node key value dt word) (Some result) }
        ensures passes { TimePasses self.old self.new dt }
    {
        self.moment += u64::from(dt);
        match set_at(&mut self.nodes, node, self.moment, word, key, value) {
            Ok(number) => DripReport::Got {
                node,
                key,
                entry: Entry { number, value },
            },
            Err(SetFault::Last) => DripReport::Refused {
                node,
                cause: DripCause::Last,
            },
        }
    }

    /// A node checks the timer of a key.
    fn tick(
        &mut self,
        node: u8,
        key: u8,
        dt: u32,
        word: u32,
        reported: bool,
    ) -> Result<Option<DripReport>, AllocError>
        requires node { node < length self.old.nodes.items }
        requires key { key < key_count }
        requires moment { self.old.moment + dt < 2 ^ 62 }
        requires keyed { AreKeyed self.old.sent.items }
        ensures does { (w : Network) → NetworkStands self.old w
            → IfOk result (DripDoes self.new w reported (Tick node key dt word)) }
        ensures passes { OnOk result (TimePasses self.old self.new dt) }
    {
        self.moment += u64::from(dt);
        let Some(said) = tick_at(&mut self.nodes, node, self.moment, word, key) else {
            return Ok(None);
        };
        self.sent.push(said)?;
        if !reported {
            return Ok(None);
        }
        Ok(Some(DripReport::Sent {
            node,
            key,
            entry: said.entry,
        }))
    }

    /// A node hears the contents of a frame.
    fn take(&mut self, node: u8, word: u32, said: &Said) -> Option<DripReport>
        requires node { node < length self.old.nodes.items }
        requires key { said.now.key < key_count }
        requires moment { self.old.moment < 2 ^ 62 }
        requires keyed { AreKeyed self.old.sent.items }
        ensures hears { (w : Network) → NetworkStands self.old w → Hears self.new w node word said.now result }
        ensures passes { TimePasses self.old self.new 0 }
    {
        let DripHeard::Newer { key } = hear_at(&mut self.nodes, node, self.moment, word, said)
        else {
            return None;
        };
        Some(DripReport::Got {
            node,
            key,
            entry: said.entry,
        })
    }

    /// A node hears a frame by its number, where a neighbour sent it.
    fn hear(&mut self, node: u8, dt: u32, word: u32, frame: u32) -> Option<DripReport>
        requires node { node < length self.old.nodes.items }
        requires moment { self.old.moment + dt < 2 ^ 62 }
        requires keyed { AreKeyed self.old.sent.items }
        ensures does { (w : Network) (reported : Bool) → NetworkStands self.old w
            → DripDoes self.new w reported (Hear node dt word frame) result }
        ensures passes { TimePasses self.old self.new dt }
    {
        self.moment += u64::from(dt);
        let Some(said) = numbered(&self.sent, frame) else {
            return Some(DripReport::Refused {
                node,
                cause: DripCause::Frame,
            });
        };
        if !are_drip_neighbours(&self.links, said.source, node) {
            return Some(DripReport::Refused {
                node,
                cause: DripCause::Link,
            });
        }
        self.take(node, word, &said)
    }

    /// A node hears the last frame of a key that another one sent.
    fn hear_last(&mut self, from: u8, to: u8, key: u8) -> Option<DripReport>
        requires node { to < length self.old.nodes.items }
        requires moment { self.old.moment < 2 ^ 62 }
        requires keyed { AreKeyed self.old.sent.items }
        ensures does { (w : Network) (reported : Bool) → NetworkStands self.old w
            → DripDoes self.new w reported (Last from to key) result }
        ensures passes { TimePasses self.old self.new 0 }
    {
        let said = last_of(&self.sent, from, key)?;
        self.take(to, 0, &said)
    }

    /// Applies an event, and answers what is reported of it. A frame that was sent is reported only if it is `reported`.
    pub fn apply(
        &mut self,
        event: &DripEvent,
        reported: bool,
    ) -> Result<Option<DripReport>, AllocError>
        requires fits { FitsDripEvent (length self.old.nodes.items) event.now }
        requires moment { self.old.moment + time_of event.now < 2 ^ 62 }
        requires keyed { AreKeyed self.old.sent.items }
        ensures does { (w : Network) → NetworkStands self.old w → IfOk result (DripDoes self.new w reported event.now) }
        ensures passes { OnOk result (TimePasses self.old self.new (time_of event.now)) }
    {
        match *event {
            DripEvent::Set {
                node,
                key,
                value,
                dt,
                word,
            } => Ok(Some(self.set(node, key, value, dt, word))),
            DripEvent::Tick {
                node,
                key,
                dt,
                word,
            } => self.tick(node, key, dt, word, reported),
            DripEvent::Hear {
                node,
                dt,
                word,
                frame,
            } => Ok(self.hear(node, dt, word, frame)),
            DripEvent::Last { from, to, key } => Ok(self.hear_last(from, to, key)),
        }
    }

    /// How many links there are.
    pub fn link_count(&self) -> usize
        ensures { result ≡ length self.now.links.items }
    {
        self.links.len()
    }

    /// The link of a number, counted from 0 in the order in which they came.
    pub fn link_at(&self, at: usize) -> (u8, u8)
        requires { at < length self.now.links.items }
        ensures { result ≡ slice_index_or self.now.links.items at result }
    {
        self.links[at]
    }

    /// What a node keeps of a key.
    pub fn entry(&self, node: u8, key: u8) -> Entry
        requires node { node < length self.now.nodes.items }
        requires key { key < key_count }
        ensures { (w : Network) → NetworkStands self.now w → result ≡ entry_at w node key }
    {
        let (number, value) = self.nodes[usize::from(node)].entry(key);
        Entry { number, value }
    }

    /// Two nodes are neighbours from now on.
    pub fn link(&mut self, a: u8, b: u8) -> Result<(), AllocError>
        requires { AreKeyed self.old.sent.items }
        ensures links { (w : Network) → NetworkStands self.old w → OnOk result (NetworkStands self.new (with_neighbours w a b)) }
        ensures passes { OnOk result (TimePasses self.old self.new 0) }
    {
        if are_drip_neighbours(&self.links, u16::from(a), b) {
            return Ok(());
        }
        self.links.push((a, b))?;
        Ok(())
    }
}
