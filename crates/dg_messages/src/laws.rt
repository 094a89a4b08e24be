//! What holds of the definitions alone. These functions do nothing: their contracts are the laws.
ghost use Rattle.std.specs.Prelude.{◌≡◌, ◌≢◌, ◌<◌, ◌^◌, ℕ, Bool, true, List, [], Some, not};
ghost use Rattle.std.specs.List.{list_all};
ghost use Rattle.dg_base.specs.declared.answers.Status.TheVariants as statuses;
ghost use Rattle.dg_drip_script.specs.Lines.{line_fault};
ghost use Rattle.dg_drip_script.specs.declared.line.DripFault.{DripFault};
ghost use Rattle.dg_end.specs.Lines.{bad_line, last_line, status_of};
ghost use Rattle.dg_end.specs.Texts.{line};
ghost use Rattle.dg_end.specs.declared.ends.End.{End};
ghost use Rattle.dg_script.specs.Faults.{fault_name};
ghost use Rattle.dg_messages.specs.Keeping.{MayEnd};
ghost use Rattle.dg_messages.specs.LastLines.{EndFits, end_told, has_last_line, last_line_told};
ghost use Rattle.dg_messages.specs.Sentences.{sentence_of};
ghost use Rattle.dg_messages.specs.Showing.{is_control, shown};
ghost use Rattle.dg_messages.specs.Telling.{cause_number, told_number};
ghost use Rattle.dg_messages.specs.declared.causes.Reads.{Reads};
ghost use Rattle.dg_messages.specs.declared.causes.Reads.TheVariants as reads;
ghost use Rattle.dg_messages.specs.declared.causes.Told.{Told};
ghost use Rattle.dg_messages.specs.declared.causes.Told.TheVariants as told;

/// Each cause has a sentence of its own, whatever its values are, and no sentence is empty.
pub fn no_two_sentences_are_alike()
    // the cause is read back from its sentence
    ensures told { (cause : Told) → told_number (sentence_of cause) ≡ cause_number cause }
    ensures alike { (a b : Told) → sentence_of a ≡ sentence_of b → cause_number a ≡ cause_number b }
    ensures some { (cause : Told) → sentence_of cause ≢ [] }
{}

/// From the last line of an end exactly that end is read, with its values. The same holds for a bad line of a script of nodes.
pub fn each_last_line_is_read()
    ensures status { (end : End) (text : List ℕ) → last_line end ≡ Some text → has_last_line (status_of end) ≡ true }
    // an output keeps it
    ensures kept { (end : End) (text : List ℕ) → EndFits end → last_line end ≡ Some text → MayEnd text }
    ensures cause { (end : End) (text : List ℕ) (what : Reads) (in_memory : Bool) → what ≢ reads.Nodes → EndFits end
        → last_line end ≡ Some (line text)
        → last_line_told (status_of end) what in_memory text ≡ end_told what in_memory end }
    ensures nodes { (number : ℕ) (cause : DripFault) (text : List ℕ) (in_memory : Bool) → number < 2 ^ 32
        → bad_line number (fault_name (line_fault cause)) ≡ line text
        → last_line_told statuses.BadInput reads.Nodes in_memory text ≡ told.Nodes cause number }
{}

/// A word that is shown has no control character of one byte.
pub fn what_is_shown_is_plain()
    ensures { (word : List ℕ) → list_all (λ b. not (is_control b)) (shown word) ≡ true }
{}
