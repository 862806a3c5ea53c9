// What an answer tells, as eight numbers (docs/CALLING.md).
// Rests on answers, engine, limits and runner.
ghost use Rattle.std.specs.Prelude.{◌≡◌, Ok, Err};
ghost use Rattle.answers.specs.Told.{Told, refused, told_in};
ghost use Rattle.answers.specs.Refusal.{rule_of};
ghost use Rattle.limits.specs.Sizes.{asking};
ghost use Rattle.planner.specs.Written.{told_by_writing};
ghost use Rattle.runner.specs.Runner.{told_by_plan};
ghost use Rattle.saved.specs.Saved.{told_by_conversion};
ghost use Rattle.engine.specs.Answer.{told_by_run};
ghost use Rattle.exports.specs.Answers.{numbers_of};

use answers::Refusal;
use engine::{Failure, Report};
use limits::Lengths;
use runner::PlanReport;

pub trait Tell {
    ghost told: { Self → Told };

    fn tell(self) -> [u64; 8]
        ensures { result ≡ numbers_of (told self) };
}

impl Tell for Refusal {
    ghost told = { λ r. refused (rule_of r) };

    fn tell(self) -> [u64; 8] {
        match self.place() {
            Some(place) => [self.number(), 1, place as u64, 0, 0, 0, 0, 0],
            None => [self.number(), 0, 0, 0, 0, 0, 0, 0],
        }
    }
}

impl Tell for Report {
    ghost told = { λ r. told_by_run (Ok r) };

    fn tell(self) -> [u64; 8] {
        [
            0,
            0,
            0,
            self.rounds,
            self.log_length as u64,
            self.verdict,
            0,
            0,
        ]
    }
}

impl Tell for Failure {
    ghost told = { λ e. told_by_run (Err e) };

    fn tell(self) -> [u64; 8] {
        match self {
            Failure::NegativeCycle(r) => [12, 0, 0, r.rounds, r.log_length as u64, r.verdict, 0, 0],
            Failure::Refused(refusal) => refusal.tell(),
        }
    }
}

impl Tell for PlanReport {
    ghost told = { λ t. told_by_plan (Ok t) };

    fn tell(self) -> [u64; 8] {
        [0, 0, 0, self.rounds, self.length as u64, 0, 0, 0]
    }
}

// The length of a written plan.
impl Tell for usize {
    ghost told = { λ size. told_by_writing (Ok size) };

    fn tell(self) -> [u64; 8] {
        [0, 0, 0, self as u64, 0, 0, 0, 0]
    }
}

impl Tell for Lengths {
    ghost told = { asking };

    fn tell(self) -> [u64; 8] {
        [
            0,
            0,
            0,
            self.cells as u64,
            self.log as u64,
            self.distances as u64,
            self.parents as u64,
            self.route as u64,
        ]
    }
}

// A conversion that was made.
impl Tell for () {
    ghost told = { λ done. told_by_conversion (Ok done) };

    fn tell(self) -> [u64; 8] {
        [0; 8]
    }
}

pub fn numbers<T: Tell, E: Tell>(answer: Result<T, E>) -> [u64; 8]
    ensures { result ≡ numbers_of (told_in T.told E.told answer) }
{
    match answer {
        Ok(done) => done.tell(),
        Err(failure) => failure.tell(),
    }
}
