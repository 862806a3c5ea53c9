// The runner: a plan from outside, carried out on lent cells and logged.
// Rests on answers, charge, fields and ops.
#![tactic(auto)]

ghost use Rattle.std.specs.Prelude.{◌≡◌, ◌^◌, ◌≤◌, length, drop};
ghost use Rattle.machine.specs.Log.{Admitted, cells_after, log_of};
ghost use Rattle.deepening.specs.Worked.{WorkedOut};
ghost use Rattle.runner.specs.Runner.{bad_at, first_bad, found_of, log_size, CarriedOut, plan_outcome, MetPlan};

use answers::Refusal;

// What a run of a plan answers: its rounds, and the words of its log.
#[derive(Clone, Copy)]
pub struct PlanReport {
    pub rounds: u64,
    pub length: usize,
}

// The first place that no plan has.
const PLACES: usize = 16777216;

// Whether a word at a place is one that a bank of `count` cells cannot carry out, or lies past the last place.
fn bad(word: u64, place: usize, count: usize) -> bool
    ensures { result ≡ bad_at count place word }
{
    if PLACES <= place {
        return true;
    }
    !ops::admits(word, count)
}

// The lowest bad place; the header is not tested.
fn first_bad(plan: &[u64], count: usize) -> Option<usize>
    ensures { result ≡ found_of (first_bad count 1 (drop 1 plan.now)) }
{
    // An index from 1 on: it is the place that is answered, and `enumerate` counts from 0.
    for place in 1..plan.len() {
        if bad(plan[place], place, count) {
            return Some(place);
        }
    }
    None
}

// How many words the log of a plan has.
fn log_length(plan: &[u64]) -> usize
    ensures { result ≡ log_size plan.now }
{
    let mut size = plan.len();
    // No `filter(..).count()`: its closure would take a contract, longer than the loop.
    if let [_, operations @ ..] = plan {
        for word in operations {
            if ops::opens(*word) {
                size += 1;
            }
        }
    }
    size
}

// Words that the cells admit, but for the first one, a header, carried out in order, each once.
pub fn carry_words(words: &[u64], cells: &mut [i64])
    requires { Admitted (length cells.old) (drop 1 words.now) }
    ensures { cells.new ≡ cells_after (drop 1 words.now) cells.old }
{
    if let [_, rest @ ..] = words {
        for word in rest {
            ops::step(cells, *word);
        }
    }
}

// The plan's operation words carried out in order, each once, and logged.
fn carry_plan(plan: &[u64], cells: &mut [i64], log: &mut [u64])
    requires { Admitted (length cells.old) (drop 1 plan.now) × (length (log_of plan.now cells.old) ≤ length log.old) }
    ensures { CarriedOut plan.now cells.old log.old cells.new log.new }
{
    let [header, words @ ..] = plan else {
        return;
    };
    log[0] = *header;
    // The log and the place stay two, here and in `append`: a struct of both would be made, lent and taken apart in this one function.
    let mut at: usize = 1;
    'words: for &word in words {
        at = ops::append(cells, log, at, word);
        ops::step(cells, word);
    }
}

// The rounds of a plan, before it is carried out.
fn rounds_of(plan: &[u64], cells: &mut [i64], log: &mut [u64]) -> u64
    requires { Admitted (length cells.old) (drop 1 plan.now) × (length plan.now ≤ 2 ^ 24) × (length plan.now ≤ length log.old) }
    ensures { WorkedOut (drop 1 plan.now) cells.old log.old result cells.new log.new }
{
    let [_, words @ ..] = plan else {
        return 0;
    };
    charge::depth_of(words, cells, log)
}

// A foreign plan run: refusal 9 with the lowest place, then 7; refused, the buffers stay.
pub fn run_plan(plan: &[u64], cells: &mut [i64], log: &mut [u64]) -> Result<PlanReport, Refusal>
    ensures { MetPlan (plan_outcome plan.now cells.old log.old) result cells.new log.new }
{
    if let Some(place) = first_bad(plan, cells.len()) {
        return Err(Refusal::Operation(place));
    }
    let size = log_length(plan);
    let short = log.len() < size;
    if short {
        return Err(Refusal::Log);
    }
    let rounds = rounds_of(plan, cells, log);
    carry_plan(plan, cells, log);
    Ok(PlanReport {
        rounds,
        length: size,
    })
}
