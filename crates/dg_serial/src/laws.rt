//! What holds of streams.
ghost use Rattle.std.specs.Prelude.{◌≡◌, ◌↔◌, ◌++◌, ℕ, true, List, map};
ghost use Rattle.std.specs.List.{AllByRecursion};
ghost use Rattle.dg_serial.specs.Line.{IsOnLine, IsWholeStream, IsSplit, FlagSplit, HasLoneEscape, flag_split, is_broken};
ghost use Rattle.dg_serial.specs.Line.{stuffed_line, items, SerialItem};
ghost use Rattle.dg_serial.specs.Line.{Frame};

/// A stream consists of pieces, each ended by a flag, and a rest, in exactly one way.
pub fn streams_are_cut()
    ensures cut { (stream : List ℕ) → IsSplit stream (flag_split stream) }
    ensures only { (stream : List ℕ) (other : FlagSplit) → IsSplit stream other → other ≡ flag_split stream }
{}

/// What a stream yielded stays yielded, whatever follows it.
pub fn streams_go_on()
    ensures { (stream more : List ℕ) → (later : List SerialItem) × (items (stream ++ more) ≡ items stream ++ later) }
{}

/// A piece is broken exactly if an escape in it is not followed, within it, by one of the two bytes that may follow.
pub fn broken_pieces_have_a_lone_escape()
    ensures { (piece : List ℕ) → (is_broken piece ≡ true) ↔ HasLoneEscape piece }
{}

/// Frames are read back from their stuffed forms, and no other stream without empty pieces and without a rest yields them.
pub fn frames_come_back()
    ensures read { (frames : List (List ℕ)) → AllByRecursion IsOnLine frames → items (stuffed_line frames) ≡ map Frame frames }
    ensures only { (stream : List ℕ) (frames : List (List ℕ)) → IsWholeStream stream → items stream ≡ map Frame frames
        → stream ≡ stuffed_line frames }
{}
