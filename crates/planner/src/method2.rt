// Method 2: its plan as lines, in document 01's order, and where its regions begin.
// Rests on headers, rows and tables.
ghost use Rattle.std.specs.Prelude.{◌≡◌, ◌≤◌, length, drop};
ghost use Rattle.plans.specs.Plan.{plan_of, length_of};
ghost use Rattle.tables.specs.Writing.{Wrote};

use headers::AcceptedHeader;
use rows::{
    A_, ADD, AGAIN, BOTH, COPY, D_, EACH_I, EQUAL, FROM_SOURCE, I, LESS, MINUS_ONE, MOVEIF, ROW_I,
    RUN, SET, UNREACHED, V, VERTICES,
};

const U: u64 = 4 << 11;

const D: u64 = 5 << 11;

const P: u64 = 6 << 11;

const Y: u64 = 7 << 11;

const O: u64 = 8 << 11;

const R: u64 = 9 << 11;

const X: u64 = 10 << 11;

const LINES: [u64; 27] = [
    // For each v, SET Y+v to v, SET D+v to 0 if v is the source, else FAR, SET P+v to -1, SET O+v to 1.
    RUN | VERTICES << A_ | 4,
    SET | Y + V << D_ | V << A_,
    SET | D + V << D_ | FROM_SOURCE,
    SET | P + V << D_ | MINUS_ONE,
    SET | O + V << D_ | 1 << A_,
    // SET X to FAR, SET X+4 to 0.
    SET | X << D_ | UNREACHED,
    SET | X + 4 << D_,
    // n turns.
    AGAIN | VERTICES << A_ | 19,
    COPY | X + 1 << D_ | X << A_,
    SET | X + 3 << D_ | MINUS_ONE,
    RUN | VERTICES << A_ | 4,
    LESS | X + 5 << D_ | D + V << A_ | X + 1,
    BOTH | X + 5 << D_ | X + 5 << A_ | O + V,
    MOVEIF | X + 1 << D_ | X + 5 << A_ | D + V,
    MOVEIF | X + 3 << D_ | X + 5 << A_ | Y + V,
    RUN | VERTICES << A_ | 1,
    COPY | R + V << D_ | X << A_,
    EACH_I | VERTICES << A_ | 4,
    EQUAL | X + 5 << D_ | X + 3 << A_ | Y + I,
    MOVEIF | O + I << D_ | X + 5 << A_ | X + 4,
    RUN | VERTICES << A_ | 1,
    MOVEIF | R + V << D_ | X + 5 << A_ | U + ROW_I + V,
    RUN | VERTICES << A_ | 4,
    ADD | X + 2 << D_ | X + 1 << A_ | R + V,
    LESS | X + 5 << D_ | X + 2 << A_ | D + V,
    MOVEIF | D + V << D_ | X + 5 << A_ | X + 2,
    MOVEIF | P + V << D_ | X + 5 << A_ | X + 3,
];

// The plan's words, written after its header word; the plan's length.
pub fn write(h: AcceptedHeader, plan: &mut [u64]) -> usize
    requires { (h.header.method ≡ 2) × (length_of h.header ≤ length plan.old) }
    ensures { Wrote (drop 1 (plan_of h.header)) plan.old plan.new 1 result }
{
    let n = h.header.vertices;
    let u = n * n;
    let env = [
        0,
        n,
        0,
        n - 1,
        0,
        u,
        u + n,
        u + 2 * n,
        u + 3 * n,
        u + 4 * n,
        u + 5 * n,
    ];
    tables::write_lines(&LINES, n, &env, h.header.source, plan, 1)
}
