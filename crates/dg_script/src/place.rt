//! Where a line stands.
ghost use Rattle.std.specs.Prelude.{◌≡◌, ℕ, List, true, slice_set, OnOk, OnErr};
ghost use Rattle.dg_script.specs.Places.{first_place, place_after, fault_at_end, is_linked, joins, is_narrow};

use crate::fault::LineFault;
use crate::line::Line;
use dg_base::{Cut, MOST_MOTES, Pairs};
use std::alloc::{AllocError, Global};

/// Where a line stands: the lines before it decide which line may come.
#[derive(Debug, Drop)]
pub struct Place {
    /// How many motes there are, 0 before the first line, which gives the number.
    pub motes: u8,
    /// Whether the second line was read, which formats the boards or uses them as they are.
    pub ready: bool,
    /// Whether an event, a round or a sweep was read.
    pub events: bool,
    /// The cut that waits for its event.
    pub cut: Option<Cut>,
    /// The links so far.
    pub links: Pairs,
    /// Which motes are narrow, by their numbers.
    pub narrow: [bool; MOST_MOTES as usize],
}

impl Place {
    /// The place of the first line.
    pub fn first(alloc: Global) -> Place
        ensures { result ≡ first_place }
    {
        Place {
            motes: 0,
            ready: false,
            events: false,
            cut: None,
            links: Pairs::new(Vec::new(alloc)),
            narrow: [false; MOST_MOTES as usize],
        }
    }

    /// Moves on to the place after a line. If memory runs out, nothing changes. Only a link allocates.
    pub fn pass(&mut self, line: Line) -> Result<(), AllocError>
        ensures ok { OnOk result (self.new ≡ place_after self.old line) }
        ensures err { OnErr result (self.new ≡ self.old) }
        ensures cause { OnErr result ((a : ℕ) × (b : ℕ) × (line ≡ Line.Link a b)) }
    {
        match line {
            Line::Nothing => Ok(()),
            Line::Motes(motes) => {
                self.motes = motes;
                Ok(())
            }
            Line::Golden { .. } | Line::Boards => {
                self.ready = true;
                Ok(())
            }
            Line::Link(a, b) => self.links.push((a, b)),
            Line::Narrow(mote) => {
                mark(&mut self.narrow, usize::from(mote));
                Ok(())
            }
            Line::Image { .. } => Ok(()),
            Line::Cut(cut) => {
                self.cut = Some(cut);
                Ok(())
            }
            Line::Happens(_) => {
                self.events = true;
                self.cut = None;
                Ok(())
            }
            Line::Round(_, _) | Line::Sweeps(_) => {
                self.events = true;
                Ok(())
            }
        }
    }

    /// The fault of an input that ends here: its second line is missing, or the event after a cut.
    pub fn end_fault(&self) -> Option<LineFault>
        ensures { result ≡ fault_at_end self.now }
    {
        if !self.ready {
            return Some(LineFault::Place);
        }
        if self.cut.is_some() {
            Some(LineFault::Cut)
        } else {
            None
        }
    }

    /// Whether there is a link between two motes.
    pub(crate) fn is_linked(&self, a: u8, b: u8) -> bool
        ensures { result ≡ is_linked self.now.links a b }
    {
        self.links.as_slice().iter().any(|link| joins(*link, a, b))
    }

    /// Whether a mote was declared narrow.
    pub(crate) fn is_narrow(&self, mote: u8) -> bool
        ensures { result ≡ is_narrow self.now.narrow mote }
    {
        match self.narrow.get(usize::from(mote)) {
            Some(narrow) => *narrow,
            None => false,
        }
    }
}

// Marks the mote with this number, if there may be one.
fn mark(motes: &mut [bool], mote: usize)
    ensures { motes.new ≡ slice_set motes.old mote true }
{
    if mote < motes.len() {
        motes[mote] = true;
    }
}

// Whether a link joins two motes, in either order.
fn joins(link: (u8, u8), a: u8, b: u8) -> bool
    ensures { result ≡ joins a b link }
{
    (link.0 == a && link.1 == b) || (link.0 == b && link.1 == a)
}
