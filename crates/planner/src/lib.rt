// The plan of a header, written to a buffer, by its method.
// Rests on answers, headers, ops, plans and tables.
#![tactic(auto)]

mod method1;
mod method2;
mod method3;
mod method4;
mod method5;

ghost use Rattle.std.specs.Prelude.{◌≡◌, ◌≤◌, length, drop};
ghost use Rattle.plans.specs.Plan.{plan_of, length_of};
ghost use Rattle.tables.specs.Writing.{Wrote};
ghost use Rattle.lists.specs.Buffers.{overwritten};
ghost use Rattle.planner.specs.Written.{WrittenPlan};

use answers::Refusal;
use headers::{AcceptedHeader, Method};

// The operation words of the header's plan, written after its header word, by a function for headers of the method (`headers::Method` says
// why); the plan's length. That there is room is said of the header and of a lent buffer together, so no type has it.
fn write_words(h: AcceptedHeader, plan: &mut [u64]) -> usize
    requires { length_of h.header ≤ length plan.old }
    ensures { Wrote (drop 1 (plan_of h.header)) plan.old plan.new 1 result }
{
    match headers::method_of(h) {
        Method::BellmanFord => method1::write(h, plan),
        Method::Dijkstra => method2::write(h, plan),
        Method::Jacobi => method3::write(h, plan),
        Method::FloydWarshall => method4::write(h, plan),
        Method::Routed => method5::write(h, plan),
    }
}

// The plan written to the start of a buffer; its length.
pub fn fill(h: AcceptedHeader, plan: &mut [u64]) -> usize
    requires { length_of h.header ≤ length plan.old }
    ensures { (result ≡ length_of h.header) × (plan.new ≡ overwritten (plan_of h.header) plan.old) }
{
    plan[0] = ops::pack(
        h.header.method,
        h.header.vertices,
        h.header.edges,
        h.header.source,
    );
    write_words(h, plan)
}

// The plan of a header, whose first word alone is looked at, written to the start of a buffer; its length. Refused, the buffer stays.
pub fn write_plan(header: &[u64], plan: &mut [u64]) -> Result<usize, Refusal>
    ensures { WrittenPlan header.now plan.old result plan.new }
{
    let [word, ..] = header else {
        return Err(Refusal::Method);
    };
    let h = headers::check_header(headers::read_header(*word))?;
    let f = headers::figures_of(h);
    if plan.len() < f.length {
        return Err(Refusal::Log);
    }
    Ok(fill(h, plan))
}
