//! Laws of the definitions alone. These functions do nothing: their contracts are the laws.
ghost use Rattle.std.specs.Prelude.{◌≡◌, ℕ, List, Ok};
ghost use Rattle.dg_script.specs.Words.{words_of};
ghost use Rattle.dg_script.specs.Pieces.{AreWords};
ghost use Rattle.dg_script.specs.Lines.{line_of};
ghost use Rattle.dg_script.specs.Fitting.{StandsAt, FitsLine, IsPlayed};
ghost use Rattle.dg_script.specs.declared.line.Line.{Line};
ghost use Rattle.dg_script.specs.declared.place.Place.{Place};

/// The words of a text are its longest pieces without a space, in their order: no word is empty, and all other bytes
/// are spaces.
pub fn words_are_pieces()
    ensures { (text : List ℕ) → AreWords text (words_of text) }
{}

/// What a text spells at a place may stand there, its fields are in their ranges, and it is one of the lines that are
/// played.
pub fn what_is_spelled_fits()
    ensures stands { (place : Place) (text : List ℕ) (line : Line) → line_of place text ≡ Ok line → StandsAt place line }
    ensures fits { (place : Place) (text : List ℕ) (line : Line) → line_of place text ≡ Ok line → FitsLine place.motes line }
    ensures played { (place : Place) (text : List ℕ) (line : Line) → line_of place text ≡ Ok line → IsPlayed line }
{}
