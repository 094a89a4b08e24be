//! What holds of the words of the outside. The function does nothing: its contract is the law.
ghost use Rattle.dg_outside.specs.Outside.{Outside, CountsRise};

/// If no count of faults falls in either of two calls in a row, none falls over both. Over no call at all none falls either.
pub fn counts_rise_through()
    ensures none { (a : Outside) → CountsRise a a }
    ensures both { (a b c : Outside) → CountsRise a b → CountsRise b c → CountsRise a c }
{}
