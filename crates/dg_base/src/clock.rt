//! The clock, and one in memory.
ghost use Rattle.std.specs.Prelude.{◌≡◌, ℕ, Option, ◌≤◌, ◌*◌, ◌-◌, ◌^◌, min, Some};
ghost use Rattle.dg_base.specs.Clock.{Answers, Answered, behind_all};

use std::marker::Model;

/// A clock, which answers with the time in milliseconds. No answer is below an earlier one, and no call fails.
pub trait Clock {
    // The answers to come, if the clock exposes them.
    ghost told: { Self → Option Answers };

    // The time that the clock has reached. No later answer is below it.
    ghost reached: { Self → ℕ };

    /// The time, in milliseconds.
    fn read(&mut self) -> u64
        ensures rises { reached self.old ≤ result }
        ensures reached { result ≤ reached self.new }
        ensures told { Answered (told self.old) (told self.new) result };
}

/// A clock in memory. It answers 0, `step`, twice `step` and so on, up to the greatest `u64`, where it stays.
#[derive(Debug, Drop)]
pub struct StepClock {
    next: u64,
    step: u64,
}

impl Model for StepClock {
    ghost use Rattle.dg_base.specs.Clock.{Answers};

    ghost Value = { Answers };

    ghost view = { λ c. record { next = c.next; step = c.step } };
}

impl StepClock {
    /// A clock whose first answer is 0, and each further one is greater by `step` milliseconds.
    pub fn new(step: u64) -> StepClock
        ensures next { result.next ≡ 0 }
        ensures step { result.step ≡ step }
    {
        StepClock { next: 0, step }
    }
}

impl Clock for StepClock {
    ghost told = { λ c. Some c };

    ghost reached = { λ c. c.next };

    fn read(&mut self) -> u64 {
        let answer = self.next;
        self.next = answer.saturating_add(self.step);
        answer
    }
}

/// A clock in memory answers 0, its step, twice its step and so on, up to the greatest `u64`, where it stays.
#[tactic(auto, using(crate::proofs::ClockLemmas::behind_all_next))]
pub fn a_step_clock_counts_on()
    ensures { (step n : ℕ) → let first : Answers = record { next = 0; step = step } in
        (behind_all n first).next ≡ min (n * step) (2 ^ 64 - 1) }
{}
