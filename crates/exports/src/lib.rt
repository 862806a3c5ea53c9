// The engine for programs in other languages: five calls on plain numbers, with the answer as eight numbers (docs/CALLING.md).
// Rests on answers, engine, requests, runner, planner and saved.
#![tactic(auto)]

mod tell;

ghost use Rattle.std.specs.Prelude.{◌≡◌};
ghost use Rattle.plans.specs.Plan.{by_kind};
ghost use Rattle.limits.specs.Sizes.{sizes_told};
ghost use Rattle.runner.specs.Runner.{plan_outcome};
ghost use Rattle.saved.specs.Saved.{conversion_outcome};
ghost use Rattle.demands.specs.Run.{outcome};
ghost use Rattle.exports.specs.Answers.{numbers_of, LeftByRun, LeftByPlan, LeftByWriting, LeftByConversion};

use tell::numbers;

// A request run.
#[unsafe(no_mangle)]
pub extern "C" fn vukstaja_run(
    request: &[u64],
    cells: &mut [i64],
    log: &mut [u64],
    distances: &mut [i64],
    parents: &mut [i64],
    route: &mut [i64],
    answer: &mut [u64; 8],
)
    ensures { LeftByRun (outcome request.now (record { cells = cells.old; log = log.old; results = by_kind distances.old parents.old route.old })) answer.new cells.new log.new (by_kind distances.new parents.new route.new) }
{
    *answer = numbers(engine::run(request, cells, log, distances, parents, route));
}

// A foreign plan run.
#[unsafe(no_mangle)]
pub extern "C" fn vukstaja_run_plan(
    plan: &[u64],
    cells: &mut [i64],
    log: &mut [u64],
    answer: &mut [u64; 8],
)
    ensures { LeftByPlan (plan_outcome plan.now cells.old log.old) answer.new cells.new log.new }
{
    *answer = numbers(runner::run_plan(plan, cells, log));
}

// The plan of a header written.
#[unsafe(no_mangle)]
pub extern "C" fn vukstaja_write_plan(header: &[u64], plan: &mut [u64], answer: &mut [u64; 8])
    ensures { LeftByWriting header.now plan.old answer.new plan.new }
{
    *answer = numbers(planner::write_plan(header, plan));
}

// What a header asks a caller to lend.
#[unsafe(no_mangle)]
pub extern "C" fn vukstaja_sizes(header: &[u64], answer: &mut [u64; 8])
    ensures { answer.new ≡ numbers_of (sizes_told header.now) }
{
    *answer = numbers(requests::sizes_needed(header));
}

// Saved distances converted to finer money.
#[unsafe(no_mangle)]
pub extern "C" fn vukstaja_convert(saved: &mut [i64], answer: &mut [u64; 8])
    ensures { LeftByConversion (conversion_outcome saved.old) answer.new saved.new }
{
    *answer = numbers(saved::convert(saved));
}
