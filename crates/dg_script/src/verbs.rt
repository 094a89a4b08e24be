//! The table of the verbs: the word of each, where its lines stand, and whether they are played.
ghost use Rattle.std.specs.Prelude.{◌≡◌};
ghost use Rattle.dg_script.specs.Words.{same};
ghost use Rattle.dg_script.specs.Verbs.{is_event_verb, is_second, is_later, stands, follows, standing, verb_of};
ghost use Rattle.dg_script.specs.inner.VerbWords.{event_verb_in, other_verb_of};

use crate::fault::LineFault;
use crate::place::Place;

/// The first word of a line.
#[derive(Clone, Copy, Debug, PartialEq, Eq)]
pub enum Verb {
    Motes,
    Golden,
    Boards,
    Link,
    Narrow,
    Image,
    Tick,
    Hear,
    Last,
    Reset,
    Inject,
    Order,
    Frame,
    Cut,
    Round,
    Sweeps,
}

fn is_same(word: &[u8], other: &[u8]) -> bool
    ensures { result ≡ same word.now other.now }
{
    word == other
}

// Whether a word has just these four letters. Most words of a script are that short.
fn is_four(word: &[u8], letters: [u8; 4]) -> bool
    ensures { result ≡ same word.now letters }
{
    word.len() == 4
        && word[0] == letters[0]
        && word[1] == letters[1]
        && word[2] == letters[2]
        && word[3] == letters[3]
}

// The verb of an event.
fn event_verb(word: &[u8]) -> Option<Verb>
    ensures { result ≡ event_verb_in word.now }
{
    if is_four(word, *b"tick") {
        return Some(Verb::Tick);
    }
    if is_four(word, *b"last") {
        return Some(Verb::Last);
    }
    if is_four(word, *b"hear") {
        return Some(Verb::Hear);
    }
    if is_same(word, b"frame") {
        return Some(Verb::Frame);
    }
    if is_same(word, b"reset") {
        return Some(Verb::Reset);
    }
    if is_same(word, b"inject") {
        return Some(Verb::Inject);
    }
    if is_same(word, b"order") {
        return Some(Verb::Order);
    }
    None
}

// The verb of a line that is not an event.
fn other_verb(word: &[u8]) -> Option<Verb>
    ensures { result ≡ other_verb_of word.now }
{
    if is_same(word, b"round") {
        return Some(Verb::Round);
    }
    if is_same(word, b"sweeps") {
        return Some(Verb::Sweeps);
    }
    if is_same(word, b"cut") {
        return Some(Verb::Cut);
    }
    if is_same(word, b"image") {
        return Some(Verb::Image);
    }
    if is_same(word, b"link") {
        return Some(Verb::Link);
    }
    if is_same(word, b"narrow") {
        return Some(Verb::Narrow);
    }
    if is_same(word, b"golden") {
        return Some(Verb::Golden);
    }
    if is_same(word, b"boards") {
        return Some(Verb::Boards);
    }
    if is_same(word, b"motes") {
        return Some(Verb::Motes);
    }
    None
}

impl Verb {
    /// The verb of a word.
    #[tactic(auto, unfolding(crate::specs::Verbs::verb_of))]
    pub fn of(word: &[u8]) -> Option<Verb>
        ensures { result ≡ verb_of word.now }
    {
        match event_verb(word) {
            Some(verb) => Some(verb),
            None => other_verb(word),
        }
    }

    // Whether its lines are events. After a cut comes an event.
    fn is_event(self) -> bool
        ensures { result ≡ is_event_verb self }
    {
        match self {
            Verb::Tick | Verb::Hear | Verb::Last | Verb::Reset => true,
            Verb::Inject | Verb::Order | Verb::Frame => true,
            Verb::Motes | Verb::Golden | Verb::Boards | Verb::Link => false,
            Verb::Narrow | Verb::Image => false,
            Verb::Cut | Verb::Round | Verb::Sweeps => false,
        }
    }

    // Whether its lines may stand at a place, cuts aside.
    fn fits(self, place: &Place) -> bool
        ensures { result ≡ stands self place.now }
    {
        match self {
            Verb::Motes => place.motes == 0,
            Verb::Golden | Verb::Boards => is_second(place),
            Verb::Link | Verb::Narrow => is_later(place) && !place.events,
            Verb::Image | Verb::Cut | Verb::Round | Verb::Sweeps => is_later(place),
            Verb::Tick | Verb::Hear | Verb::Last | Verb::Reset => is_later(place),
            Verb::Inject | Verb::Order | Verb::Frame => is_later(place),
        }
    }

    // Whether no cut waits at a place, or waits for this verb.
    fn follows(self, place: &Place) -> bool
        ensures { result ≡ follows self place.now }
    {
        if place.cut.is_some() {
            self.is_event()
        } else {
            true
        }
    }

    /// Whether a line of the verb may stand at a place. It is a fault at any other place, and in place of
    /// the event after a cut.
    #[tactic(auto, unfolding(crate::specs::Verbs::standing))]
    pub fn stand(self, place: &Place) -> Result<(), LineFault>
        ensures { result ≡ standing self place.now }
    {
        if !self.fits(place) {
            return Err(LineFault::Place);
        }
        if !self.follows(place) {
            return Err(LineFault::Cut);
        }
        Ok(())
    }
}

// Whether only the number of motes was given.
fn is_second(place: &Place) -> bool
    ensures { result ≡ is_second place.now }
{
    place.motes > 0 && !place.ready
}

// Whether the first two lines were read.
fn is_later(place: &Place) -> bool
    ensures { result ≡ is_later place.now }
{
    place.motes > 0 && place.ready
}
