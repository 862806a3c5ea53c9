// Method 5: its plan as lines after those that method 1 has too, in document 02's order, and where its regions begin.
// Rests on headers, method 1, rows and tables.
ghost use Rattle.std.specs.Prelude.{◌≡◌, ◌≤◌, length, drop};
ghost use Rattle.plans.specs.Plan.{plan_of, length_of};
ghost use Rattle.tables.specs.Writing.{Wrote};

use crate::method1::{FROM, P, X, Y};
use headers::AcceptedHeader;
use rows::{A_, COPY, D_, EACH_I, EDGES, EQUAL, I, MOVEIF, OPEN, OTHERS, RUN, SET, V, VERTICES};

const Z: u64 = 11 << 11;

const B: u64 = 12 << 11;

const R: u64 = 13 << 11;

const LINES: [u64; 15] = [
    // For each v, COPY B+v from Y+v.
    RUN | VERTICES << A_ | 1,
    COPY | B + V << D_ | Y + V << A_,
    // Over all edges i: SET X+3 to i, and for each v EQUAL X+5 (P+v, X+3), MOVEIF B+v (X+5, from i).
    EACH_I | EDGES << A_ | 4,
    SET | X + 3 << D_ | I << A_,
    RUN | VERTICES << A_ | 2,
    EQUAL | X + 5 << D_ | P + V << A_ | X + 3,
    MOVEIF | B + V << D_ | X + 5 << A_ | FROM + I,
    // COPY X+1 from Z.
    COPY | X + 1 << D_ | Z << A_,
    // For n-1 places k of the route: COPY X+2 from X+1, and for each v EQUAL X+5 (X+2, Y+v), MOVEIF R+k (X+5, P+v), MOVEIF X+1 (X+5, B+v).
    EACH_I | OTHERS << A_ | 5,
    COPY | X + 2 << D_ | X + 1 << A_,
    RUN | VERTICES << A_ | 3,
    EQUAL | X + 5 << D_ | X + 2 << A_ | Y + V,
    MOVEIF | R + I << D_ | X + 5 << A_ | P + V,
    MOVEIF | X + 1 << D_ | X + 5 << A_ | B + V,
    // The verdict.
    OPEN | X + 7 << A_,
];

// The plan's words, written after its header word: method 1's but for the last, then its own; the plan's length.
pub fn write(h: AcceptedHeader, plan: &mut [u64]) -> usize
    requires { (h.header.method ≡ 5) × (length_of h.header ≤ length plan.old) }
    ensures { Wrote (drop 1 (plan_of h.header)) plan.old plan.new 1 result }
{
    let n = h.header.vertices;
    let m = h.header.edges;
    let d = 3 * m;
    let x = d + 3 * n;
    let env = [
        0,
        n,
        m,
        n - 1,
        0,
        m,
        2 * m,
        d,
        d + n,
        d + 2 * n,
        x,
        x + 8,
        x + 9,
        d + 4 * n + 9,
    ];
    let next = crate::method1::write_solve(h, plan);
    tables::write_lines(&LINES, n, &env, h.header.source, plan, next)
}
