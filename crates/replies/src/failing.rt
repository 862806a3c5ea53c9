// What stands in an answer for results that are missing, as the texts tell it: a failure of the engine's, or a refusal of any number.
// Rests on answers and engine.
ghost use Rattle.std.specs.Prelude.{◌≡◌, [], false, eqb, get_or, Err, MatchOption};
ghost use Rattle.answers.specs.Told.{Told};
ghost use Rattle.answers.specs.Refusal.{option_of};
ghost use Rattle.engine.specs.Answer.{told_by_run};

use engine::Failure;

// A number that is not 0, where there is one a place, and the length of the log of a run, which is told by 12.
pub trait Fails {
    ghost told: { Self → Told };

    fn number(&self) -> u64
        ensures { (result ≡ (told self.now).number) × (eqb result 0 ≡ false) };

    fn place(&self) -> Option<usize>
        ensures { option_of result ≡ (told self.now).place };

    fn log_length(&self) -> Option<usize>
        ensures { MatchOption result (eqb (told self.now).number 12 ≡ false) (λ length. ((told self.now).number ≡ 12) × (get_or (told self.now).values 1 0 ≡ length)) };
}

impl Fails for Failure {
    ghost told = { λ failure. told_by_run (Err failure) };

    fn number(&self) -> u64 {
        match self {
            Failure::NegativeCycle(_) => 12,
            Failure::Refused(refusal) => refusal.number(),
        }
    }

    fn place(&self) -> Option<usize> {
        match self {
            Failure::NegativeCycle(_) => None,
            Failure::Refused(refusal) => refusal.place(),
        }
    }

    fn log_length(&self) -> Option<usize> {
        match self {
            Failure::NegativeCycle(report) => Some(report.log_length),
            Failure::Refused(_) => None,
        }
    }
}

// A refusal of any number but a run's, 0 and 12.
#[derive(Clone, Copy)]
pub struct OtherRefusal {
    pub number: u64,
    pub place: Option<usize>,
    pub ghost apart: { (eqb number 0 ≡ false) × (eqb number 12 ≡ false) },
}

impl Fails for OtherRefusal {
    ghost told = { λ r. record { number = r.number; place = option_of r.place; values = [] } };

    fn number(&self) -> u64 {
        self.number
    }

    fn place(&self) -> Option<usize> {
        self.place
    }

    fn log_length(&self) -> Option<usize> {
        None
    }
}
