// What a run answers: its report, or why it has no results.
// Rests on answers.
ghost use Rattle.std.specs.Prelude.{◌≡◌};
ghost use Rattle.engine.specs.declared.answer.Failure.TheVariants.{Refused};

use answers::Refusal;

// What a run answers besides its buffers.
#[derive(Clone, Copy)]
pub struct Report {
    pub rounds: u64,
    pub log_length: usize,
    pub verdict: u64,
}

// Why there are no results. 12, the loss circle of document 01, comes with the run's report.
#[derive(Clone, Copy)]
pub enum Failure {
    NegativeCycle(Report),
    Refused(Refusal),
}

impl From<Refusal> for Failure {
    ghost from_gives = { λ refusal failure. failure ≡ Refused refusal };

    fn from(refusal: Refusal) -> Failure {
        Failure::Refused(refusal)
    }
}
