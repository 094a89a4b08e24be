//! When images became whole at motes.
ghost use Rattle.std.specs.Prelude.{◌≡◌, ◌<◌, [], map, false, slice_get};
ghost use Rattle.std.specs.Option.{option_flatten};
ghost use Rattle.dg_meter.specs.Meters.{metered_device};
ghost use Rattle.dg_volume.specs.Sizes.{images};
ghost use Rattle.dg_volume.specs.Stands.{Stands};
ghost use Rattle.dg_volume.specs.Store.{Store, held};
ghost use Rattle.dg_events.specs.Keeps.{KeepsPages};
ghost use Rattle.dg_moments.specs.Moments.{whole_version};
ghost use Rattle.dg_moments.specs.Wholes.{HasWholes, given_kept};
ghost use Rattle.dg_moments.specs.Telling.{StaysTold, NotesLine, NotesLines, BringsWholes, GivesMote, GivesAll, PlacesWholes};

use crate::given::Given;
use dg_base::ImageVersion;
use dg_cost_text::Moment;
use dg_meter::{Metered, SLOTS};
use dg_nor::Nor;
use dg_script::Report;
use std::alloc::Global;
use std::collections::BTreeMap;

/// Before the first event.
const BEGINNING: Moment = Moment { event: 0, ms: 0 };

/// An image that became whole at a mote, the `times`-th time.
#[derive(Clone, Copy, PartialEq, Eq, PartialOrd, Ord)]
pub struct Whole {
    pub mote: u8,
    pub image: u8,
    pub version: u32,
    pub times: u32,
}

/// An image at a mote.
#[derive(Clone, Copy, PartialEq, Eq, PartialOrd, Ord)]
pub struct ImageAt {
    pub mote: u8,
    pub image: u8,
}

/// When images became whole at motes, again after they were lost too. Golden, image 0, is left out.
#[derive(Drop)]
pub struct Wholes {
    /// What each board kept before the run, if it is a volume.
    pub given: Vec<Option<Given>>,
    /// The boards are used as they are.
    pub mounted: bool,
    /// When a version became whole at a mote, each time.
    pub moments: BTreeMap<Whole, Moment>,
    /// Which version a mote keeps whole.
    pub kept: BTreeMap<ImageAt, u32>,
    /// When a version became whole at the last of all motes, so that all keep it: the first time.
    pub all: BTreeMap<ImageVersion, Moment>,
    /// The last time.
    pub last: BTreeMap<ImageVersion, Moment>,
    /// Memory ran out: moments are missing.
    pub lost: bool,
}

impl Wholes {
    /// Nothing was played.
    pub fn new(alloc: Global, given: Vec<Option<Given>>) -> Wholes
        ensures wholes { HasWholes result [] [] }
        ensures given { result.given ≡ given }
    {
        Wholes {
            given,
            mounted: false,
            moments: BTreeMap::new(alloc),
            kept: BTreeMap::new(alloc),
            all: BTreeMap::new(alloc),
            last: BTreeMap::new(alloc),
            lost: false,
        }
    }

    /// What the board of a mote kept before the run.
    pub fn given_at(&self, mote: u8) -> Option<Given>
        ensures { result ≡ option_flatten (slice_get self.now.given.items mote) }
    {
        match self.given.get(usize::from(mote)) {
            Some(given) => *given,
            None => None,
        }
    }

    /// The boards of this many motes are used, as they are if they are `mounted`.
    pub fn place(&mut self, motes: u8, mounted: bool)
        ensures places { PlacesWholes self.old self.new motes }
        ensures mounted { self.new.mounted ≡ mounted }
        ensures given { self.new.given ≡ self.old.given }
    {
        self.mounted = mounted;
        if mounted {
            self.begin(motes);
        }
    }

    /// Notes what the boards of this many motes kept before the run.
    fn begin(&mut self, motes: u8)
        ensures gives { GivesAll self.old self.new motes }
        ensures stays { StaysTold self.old self.new }
    {
        for mote in 0..motes {
            self.begin_mote(motes, mote);
        }
    }

    /// Notes what the board of a mote kept before the run.
    fn begin_mote(&mut self, motes: u8, mote: u8)
        ensures gives { GivesMote self.old self.new motes mote (option_flatten (slice_get self.old.given.items mote)) }
        ensures stays { StaysTold self.old self.new }
    {
        let given = self.given_at(mote);
        for image in 1..SLOTS as u8 {
            self.note_kept(motes, mote, image, whole_given(&given, image), BEGINNING);
        }
    }

    /// Notes what became whole in the event with this number, at one of these motes and at this moment, of which these lines are
    /// reported. Of most events nothing is reported.
    #[inline(always)]
    pub fn note<N: Nor>(
        &mut self,
        motes: u8,
        mote: u8,
        boards: &[Metered<N>],
        reports: &[Report],
        number: u64,
        ms: u64,
    )
        ensures brings { BringsWholes self.old self.new motes mote (map (metered_device N.device) boards.now) reports.now
            (record { event = number; ms = ms }) }
        ensures stays { StaysTold self.old self.new }
    {
        if reports.is_empty() {
            return;
        }
        self.note_told(motes, mote, boards, reports, Moment { event: number, ms });
    }

    #[inline(never)]
    fn note_told<N: Nor>(
        &mut self,
        motes: u8,
        mote: u8,
        boards: &[Metered<N>],
        reports: &[Report],
        now: Moment,
    )
        ensures brings { BringsWholes self.old self.new motes mote (map (metered_device N.device) boards.now) reports.now now }
        ensures stays { StaysTold self.old self.new }
    {
        if motes <= mote {
            return;
        }
        let index = usize::from(mote);
        if boards.len() <= index {
            return;
        }
        self.note_lines(motes, mote, &boards[index], reports, now);
    }

    /// Notes what became whole at the mote of this board.
    fn note_lines<N: Nor>(
        &mut self,
        motes: u8,
        mote: u8,
        board: &Metered<N>,
        reports: &[Report],
        now: Moment,
    )
        ensures brings { NotesLines self.old self.new motes mote (metered_device N.device board.now) reports.now now }
        ensures stays { StaysTold self.old self.new }
    {
        for report in reports {
            self.note_line(motes, mote, board, report, now);
        }
    }

    fn note_line<N: Nor>(
        &mut self,
        motes: u8,
        mote: u8,
        board: &Metered<N>,
        report: &Report,
        now: Moment,
    )
        ensures line { NotesLine self.old self.new motes mote (metered_device N.device board.now) report.now now }
        ensures stays { StaysTold self.old self.new }
    {
        match report {
            Report::Have {
                image,
                version,
                pages,
                ..
            } => {
                let whole = whole_told(board, *image, *version, *pages);
                self.note_kept(motes, mote, *image, whole, now);
            }
            Report::Lost { image, .. } => self.note_kept(motes, mote, *image, None, now),
            _ => {}
        }
    }
}

/// The version that was kept whole before the run.
fn whole_given(given: &Option<Given>, image: u8) -> Option<u32>
    requires { image < images }
    ensures { result ≡ given_kept given.now image }
{
    let Some(given) = given else {
        return None;
    };
    let Some(kept) = given.kept[usize::from(image)] else {
        return None;
    };
    if kept.done != kept.pages {
        return None;
    }
    Some(kept.version)
}

/// The version of which a board keeps this many complete pages, if these are all.
fn whole_told<N: Nor>(board: &Metered<N>, image: u8, version: u32, pages: u8) -> Option<u32>
    ensures { (s : Store) → KeepsPages s image version pages → Stands (metered_device N.device board.now).image s
        → (metered_device N.device board.now).stopped ≡ false → result ≡ whole_version (held s image) }
{
    if pages == board.pages(usize::from(image)) {
        return Some(version);
    }
    None
}
