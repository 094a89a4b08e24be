//! What the words after the program's name ask for.
ghost use Rattle.std.specs.Prelude.{◌≤◌};
ghost use Rattle.dg_base.specs.Sizes.{most_motes};
ghost use Rattle.dg_object.specs.Sizes.{fewest_pages, most_pages};

use dg_base::{Bytes, MOST_MOTES, is_name, parse_u32};
use dg_object::{FEWEST_PAGES, MOST_PAGES};
use std::alloc::AllocError;
use std::env::Args;

/// What the words ask for.
#[derive(Drop)]
pub(crate) enum Asked {
    Rehearse(Rehearse),
    Trial(Trial),
    Help,
    Version,
    /// Unknown words, or a number that is out of range.
    Other,
}

/// A rehearsal that is asked for.
#[derive(Drop)]
pub(crate) struct Rehearse {
    pub(crate) image: u8,
    pub(crate) version: u32,
    pub(crate) name: Bytes,
    pub(crate) at: u8,
    pub(crate) ordered: bool,
    pub(crate) loss: u8,
    pub(crate) seed: u32,
    pub(crate) minutes: u32,
    pub(crate) cuts: u32,
    pub(crate) profile: String,
}

/// A trial whose script is asked for.
#[derive(Drop)]
pub(crate) struct Trial {
    pub(crate) motes: u8,
    pub(crate) pages: u8,
    pub(crate) seed: u32,
    ghost some: { 2 ≤ motes },
    ghost few: { motes ≤ most_motes },
    ghost some_pages: { fewest_pages ≤ pages },
    ghost few_pages: { pages ≤ most_pages },
}

/// An option that has a value.
#[derive(Clone, Copy, PartialEq, Eq)]
enum Valued {
    Image,
    Version,
    Name,
    At,
    Loss,
    Seed,
    Minutes,
    Cuts,
}

/// What was read of the words so far.
#[derive(Drop)]
struct Reading {
    image: Option<u8>,
    version: Option<u32>,
    name: Option<String>,
    at: Option<u8>,
    ordered: bool,
    loss: Option<u8>,
    seed: Option<u32>,
    minutes: Option<u32>,
    cuts: Option<u32>,
    profile: Option<String>,
    /// The option whose value comes next.
    waits: Option<Valued>,
}

/// The option of a word.
fn option_of(word: &str) -> Option<Valued> {
    match word {
        "--image" => Some(Valued::Image),
        "--ver" => Some(Valued::Version),
        "--name" => Some(Valued::Name),
        "--at" => Some(Valued::At),
        "--loss" => Some(Valued::Loss),
        "--seed" => Some(Valued::Seed),
        "--minutes" => Some(Valued::Minutes),
        "--cuts" => Some(Valued::Cuts),
        _ => None,
    }
}

/// Keeps a number. Answers whether the option comes once and the number is in its range.
fn keep(place: &mut Option<u32>, word: &str, least: u32, most: u32) -> bool {
    let Some(number) = parse_u32(word.as_bytes()) else {
        return false;
    };
    if place.is_some() || number < least || number > most {
        return false;
    }
    *place = Some(number);
    true
}

/// Keeps a number of one byte, in the same way.
fn keep_small(place: &mut Option<u8>, word: &str, least: u8, most: u8) -> bool {
    let mut read = None;
    if place.is_some() || !keep(&mut read, word, u32::from(least), u32::from(most)) {
        return false;
    }
    let Some(number) = read else {
        return false;
    };
    let Ok(number) = u8::try_from(number) else {
        return false;
    };
    *place = Some(number);
    true
}

impl Reading {
    /// No word was read.
    fn none() -> Reading {
        Reading {
            image: None,
            version: None,
            name: None,
            at: None,
            ordered: false,
            loss: None,
            seed: None,
            minutes: None,
            cuts: None,
            profile: None,
            waits: None,
        }
    }

    /// Reads a word. Answers whether it is allowed there.
    fn read(&mut self, word: String) -> bool {
        match self.waits {
            Some(option) => {
                self.waits = None;
                self.take(option, word)
            }
            None => self.begin(word),
        }
    }

    /// Reads the value of an option.
    fn take(&mut self, option: Valued, word: String) -> bool {
        match option {
            Valued::Image => keep_small(&mut self.image, word.as_str(), 1, 6),
            Valued::Version => keep(&mut self.version, word.as_str(), 1, u32::MAX),
            Valued::At => keep_small(&mut self.at, word.as_str(), 0, 15),
            Valued::Loss => keep_small(&mut self.loss, word.as_str(), 0, 100),
            Valued::Seed => keep(&mut self.seed, word.as_str(), 0, u32::MAX),
            Valued::Minutes => keep(&mut self.minutes, word.as_str(), 1, 60_000),
            Valued::Cuts => keep(&mut self.cuts, word.as_str(), 0, 1_000),
            Valued::Name => {
                if self.name.is_some() || !is_name(word.as_bytes()) {
                    return false;
                }
                self.name = Some(word);
                true
            }
        }
    }

    /// Reads an option, or the path of the profile.
    fn begin(&mut self, word: String) -> bool {
        if word.as_str() == "--order" {
            let first = !self.ordered;
            self.ordered = true;
            return first;
        }
        if let Some(option) = option_of(word.as_str()) {
            self.waits = Some(option);
            return true;
        }
        if word.as_bytes().first() == Some(&b'-') || self.profile.is_some() {
            return false;
        }
        self.profile = Some(word);
        true
    }

    /// What all words ask for.
    fn asked(self) -> Asked {
        let Reading {
            image,
            version,
            name,
            at,
            ordered,
            loss,
            seed,
            minutes,
            cuts,
            profile,
            waits,
        } = self;
        let (Some(image), Some(version), Some(name), Some(profile), None) = (
            image, version, name, profile, waits,
        ) else {
            return Asked::Other;
        };
        Asked::Rehearse(Rehearse {
            image,
            version,
            name: Bytes::new(name.into_bytes()),
            at: at.unwrap_or(0),
            ordered,
            loss: loss.unwrap_or(0),
            seed: seed.unwrap_or(0),
            minutes: minutes.unwrap_or(1_440),
            cuts: cuts.unwrap_or(0),
            profile,
        })
    }
}

/// The words after `--trial` that were read so far.
#[derive(Drop)]
struct TrialReading {
    motes: Option<u8>,
    pages: Option<u8>,
    seed: Option<u32>,
}

impl TrialReading {
    /// No word was read.
    fn none() -> TrialReading {
        TrialReading {
            motes: None,
            pages: None,
            seed: None,
        }
    }

    /// Reads the next word. Answers whether it is allowed there.
    fn read(&mut self, word: &str) -> bool {
        if self.motes.is_none() {
            return keep_small(&mut self.motes, word, 0, u8::MAX);
        }
        if self.pages.is_none() {
            return keep_small(&mut self.pages, word, 0, u8::MAX);
        }
        keep(&mut self.seed, word, 0, u32::MAX)
    }

    /// What all words ask for.
    fn asked(self) -> Asked {
        let TrialReading { motes, pages, seed } = self;
        let (Some(motes), Some(pages), Some(seed)) = (motes, pages, seed) else {
            return Asked::Other;
        };
        if motes < 2 || MOST_MOTES < motes {
            return Asked::Other;
        }
        if pages < FEWEST_PAGES || MOST_PAGES < pages {
            return Asked::Other;
        }
        Asked::Trial(Trial { motes, pages, seed })
    }
}

/// What these words ask for. The first one is the program's name.
pub(crate) fn read_words(_rt: &HostRuntime, args: Args) -> Result<Asked, AllocError> {
    let mut reading = Reading::none();
    let mut trial = TrialReading::none();
    let mut is_trial = false;
    for (number, word) in args.skip(1).enumerate() {
        if number == 0 {
            match word.as_str() {
                "--help" => return Ok(Asked::Help),
                "--version" => return Ok(Asked::Version),
                "--trial" => {
                    is_trial = true;
                    continue;
                }
                _ => {}
            }
        }
        let is_allowed = if is_trial {
            trial.read(word.as_str())
        } else {
            reading.read(word)
        };
        if !is_allowed {
            return Ok(Asked::Other);
        }
    }
    if is_trial {
        return Ok(trial.asked());
    }
    Ok(reading.asked())
}
