//! What holds of rehearsals. These functions do nothing: their contracts are the laws.
ghost use Rattle.std.specs.Prelude.{◌≡◌, ℕ, List};
ghost use Rattle.dg_netcfg.specs.declared.profile.NetProfile.{NetProfile as Profile};
ghost use Rattle.dg_volume.specs.Store.{Store};
ghost use Rattle.dg_rehearse.specs.Clocked.{AreLeft, AreSame, IsByClock};
ghost use Rattle.dg_rehearse.specs.declared.plan.Plan.{Plan as Words};
ghost use Rattle.dg_rehearse.specs.declared.plan.Rehearsal.{Rehearsal as Script};

/// Two rehearsals of the same words write the same bytes, and end alike at the same moment: where no cuts are asked for, and
/// wherever the cuts of both left the same, turn by turn.
pub fn the_same_words_give_the_same_bytes()
    ensures uncut { (n : Profile) (p : Words) (xs ys : List Store) (a b : Script) → p.cuts ≡ 0 → IsByClock n p xs a
        → IsByClock n p ys b → AreSame a b }
    ensures cut { (n : Profile) (p : Words) (left : ℕ → Store) (xs ys : List Store) (a b : Script) → AreLeft left xs
        → AreLeft left ys → IsByClock n p xs a → IsByClock n p ys b → AreSame a b }
{}
