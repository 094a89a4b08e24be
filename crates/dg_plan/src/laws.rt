//! What holds of lists of commands. The function does nothing: its contract is the law.
ghost use Rattle.std.specs.Prelude.{◌≡◌, ℕ, ◌≤◌, []};
ghost use Rattle.dg_nor.specs.Trail.{Trail, operations, EachWorks};
ghost use Rattle.dg_volume.specs.Store.{Store};
ghost use Rattle.dg_volume.specs.Stands.{Stands};
ghost use Rattle.dg_plan.specs.Plans.{commands_of, chip_of};
ghost use Rattle.dg_plan.specs.Acts.{IsPlanOf};
ghost use Rattle.dg_plan.specs.Stops.{StopsAt};
ghost use Rattle.dg_plan.specs.declared.plan.Plan.{Plan};

/// A driver that stops before the first command of an act, or after the last, leaves a chip that a stop of the act may leave.
/// The same holds anywhere in a list of one command, such as that of a seal, or of a packet after the first.
pub fn a_list_is_carried_out_or_not()
    ensures none { (t : Trail Store) (p : Plan) → EachWorks t.stages → Stands (chip_of p) t.first → StopsAt t p 0 }
    ensures all { (t : Trail Store) (old new : Plan) → commands_of old ≡ [] → IsPlanOf t old new
        → StopsAt t new (operations t) }
    ensures one { (t : Trail Store) (old new : Plan) (k : ℕ) → commands_of old ≡ [] → IsPlanOf t old new → operations t ≡ 1
        → EachWorks t.stages → Stands (chip_of old) t.first → k ≤ 1 → StopsAt t new k }
{}
