// The engine: a request run on lent buffers.
// Rests on demands (what it promises), requests (checks), headers (figures), rounds, intake (the starting cells), planner (the plan) and
// runner (carrying out).
#![tactic(auto)]

mod answer;

ghost use Rattle.std.specs.Prelude.{◌≡◌, ◌+◌, ◌≤◌, length};
ghost use Rattle.std.proofs.lemmas.List.Edits.{sets};
ghost use Rattle.machine.specs.Effect.{cell_at};
ghost use Rattle.plans.specs.Plan.{verdict_cell, published, by_kind};
ghost use Rattle.answers.specs.Refusal.{option_of};
ghost use Rattle.intake.specs.Intake.{copied};
ghost use Rattle.demands.specs.Run.{verdict_at, opened_at, There, outcome};
ghost use Rattle.engine.specs.Answer.{Met};
ghost use Rattle.engine.specs.Carry.{Ready, Carried};

pub use answer::{Failure, Report};
use headers::AcceptedHeader;
use limits::Lengths;
use plans::Span;
use runner::PlanReport;

// The verdict's cell, where there is one, published at the end of the log; the log's length. It is one word: a struct of log and place would be
// longer.
fn publish(verdict: Option<usize>, cells: &[i64], log: &mut [u64], at: usize) -> usize
    requires { There (option_of verdict) (length cells.now) × (at + length (published (option_of verdict) 0) ≤ length log.old) }
    ensures { (result ≡ at + length (opened_at (option_of verdict) cells.now)) × (log.new ≡ sets log.old at (opened_at (option_of verdict) cells.now)) }
{
    match verdict {
        Some(cell) => {
            log[at] = fields::bits(cells[cell], 64);
            at + 1
        }
        None => at,
    }
}

// The plan of the header written to the log and carried out, in order, each word once; then the verdict published. The rounds follow from the
// header: no depths are kept.
fn carry(
    h: AcceptedHeader,
    verdict: Option<usize>,
    cells: &mut [i64],
    log: &mut [u64],
) -> PlanReport
    requires { (option_of verdict ≡ verdict_cell h.header) × Ready h.header cells.old log.old }
    ensures { Carried h.header cells.old log.old result cells.new log.new }
{
    let size = planner::fill(h, log);
    runner::carry_words(&log[..size], cells);
    let length = publish(verdict, cells, log, size);
    let rounds = rounds::rounds_of(h);
    PlanReport { rounds, length }
}

// The verdict that the run left, 0 in a method without one.
fn verdict_left(verdict: Option<usize>, cells: &[i64]) -> u64
    requires { There (option_of verdict) (length cells.now) }
    ensures { result ≡ verdict_at (option_of verdict) cells.now }
{
    match verdict {
        Some(cell) => u64::from(cells[cell] != 0),
        None => 0,
    }
}

// Results: a row of cells copied to the start of a buffer. By a loop: `copy_from_slice` would need `memmove` of whoever links the library, and it
// needs `memset` alone (docs/CALLING.md).
fn copy_out(cells: &[i64], span: Span, out: &mut [i64])
    requires { (span.first + span.count ≤ length cells.now) × (span.count ≤ length out.old) }
    ensures { out.new ≡ copied span.count (λ i. cell_at cells.now (span.first + i)) out.old }
{
    for i in 0..span.count {
        let number = cells[span.first + i];
        out[i] = number;
    }
}

// A request run. Every refusal but 12 leaves the buffers; with 12 there are no results.
pub fn run(
    request: &[u64],
    cells: &mut [i64],
    log: &mut [u64],
    distances: &mut [i64],
    parents: &mut [i64],
    route: &mut [i64],
) -> Result<Report, Failure>
    ensures { Met (outcome request.now (record { cells = cells.old; log = log.old; results = by_kind distances.old parents.old route.old })) result cells.new log.new (by_kind distances.new parents.new route.new) }
{
    let lent = Lengths {
        cells: cells.len(),
        log: log.len(),
        distances: distances.len(),
        parents: parents.len(),
        route: route.len(),
    };
    let h = requests::check(request, lent)?;
    let f = headers::figures_of(h);
    intake::lay(h, request, cells);
    let verdict = f.verdict;
    let carried = carry(h, verdict, cells, log);
    let report = Report {
        rounds: carried.rounds,
        log_length: carried.length,
        verdict: verdict_left(verdict, cells),
    };
    let circle = report.verdict == 1;
    if circle {
        return Err(Failure::NegativeCycle(report));
    }
    copy_out(cells, f.distances, distances);
    copy_out(cells, f.parents, parents);
    copy_out(cells, f.route, route);
    Ok(report)
}
