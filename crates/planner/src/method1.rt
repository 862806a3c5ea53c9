// Method 1: its plan as lines, in document 01's order, and where its regions begin.
// Rests on headers, ops, rows and tables.
ghost use Rattle.std.specs.Prelude.{◌≡◌, ◌≤◌, length, drop};
ghost use Rattle.plans.specs.Plan.{plan_of, length_of};
ghost use Rattle.tables.specs.Writing.{RoomAt, Wrote};
ghost use Rattle.planner.specs.Written.{solve_words};

use headers::AcceptedHeader;
use rows::{
    A_, ADD, AGAIN, BOTH, COPY, D_, EACH_I, EDGES, EQUAL, FROM_SOURCE, I, LESS, MINUS_ONE, MOVEIF,
    OTHERS, RUN, SET, UNREACHED, V, VERTICES,
};

pub const FROM: u64 = 4 << 11;

pub const TO: u64 = 5 << 11;

pub const WEIGHT: u64 = 6 << 11;

pub const D: u64 = 7 << 11;

pub const P: u64 = 8 << 11;

pub const Y: u64 = 9 << 11;

pub const X: u64 = 10 << 11;

// The opening, the passes and the check, which method 5 shares.
const SOLVE: [u64; 35] = [
    // For each v, SET Y+v to v, SET D+v to 0 if v is the source, else FAR, SET P+v to -1.
    RUN | VERTICES << A_ | 3,
    SET | Y + V << D_ | V << A_,
    SET | D + V << D_ | FROM_SOURCE,
    SET | P + V << D_ | MINUS_ONE,
    // SET X to FAR, SET X+7 to 0.
    SET | X << D_ | UNREACHED,
    SET | X + 7 << D_,
    // n-1 passes over all edges i.
    AGAIN | OTHERS << A_ | 15,
    EACH_I | EDGES << A_ | 14,
    COPY | X + 1 << D_ | X << A_,
    RUN | VERTICES << A_ | 2,
    EQUAL | X + 5 << D_ | FROM + I << A_ | Y + V,
    MOVEIF | X + 1 << D_ | X + 5 << A_ | D + V,
    ADD | X + 2 << D_ | X + 1 << A_ | WEIGHT + I,
    LESS | X + 4 << D_ | X + 1 << A_ | X,
    SET | X + 3 << D_ | I << A_,
    RUN | VERTICES << A_ | 6,
    EQUAL | X + 5 << D_ | TO + I << A_ | Y + V,
    LESS | X + 6 << D_ | X + 2 << A_ | D + V,
    BOTH | X + 6 << D_ | X + 6 << A_ | X + 4,
    BOTH | X + 6 << D_ | X + 6 << A_ | X + 5,
    MOVEIF | D + V << D_ | X + 6 << A_ | X + 2,
    MOVEIF | P + V << D_ | X + 6 << A_ | X + 3,
    // The check over all edges i.
    EACH_I | EDGES << A_ | 12,
    COPY | X + 1 << D_ | X << A_,
    RUN | VERTICES << A_ | 2,
    EQUAL | X + 5 << D_ | FROM + I << A_ | Y + V,
    MOVEIF | X + 1 << D_ | X + 5 << A_ | D + V,
    ADD | X + 2 << D_ | X + 1 << A_ | WEIGHT + I,
    LESS | X + 4 << D_ | X + 1 << A_ | X,
    RUN | VERTICES << A_ | 5,
    EQUAL | X + 5 << D_ | TO + I << A_ | Y + V,
    LESS | X + 6 << D_ | X + 2 << A_ | D + V,
    BOTH | X + 6 << D_ | X + 6 << A_ | X + 4,
    BOTH | X + 6 << D_ | X + 6 << A_ | X + 5,
    MOVEIF | X + 7 << D_ | X + 6 << A_ | X + 6,
];

// The words of the opening, the passes and the check, written after a plan's header word; the place after them.
pub fn write_solve(h: AcceptedHeader, plan: &mut [u64]) -> usize
    requires { RoomAt (solve_words h.header) plan.old 1 }
    ensures { Wrote (solve_words h.header) plan.old plan.new 1 result }
{
    let n = h.header.vertices;
    let m = h.header.edges;
    let d = 3 * m;
    let env = [0, n, m, n - 1, 0, m, 2 * m, d, d + n, d + 2 * n, d + 3 * n];
    tables::write_lines(&SOLVE, n, &env, h.header.source, plan, 1)
}

// The plan's words, written after its header word, the last one OPEN X+7, the verdict; the plan's length.
pub fn write(h: AcceptedHeader, plan: &mut [u64]) -> usize
    requires { (h.header.method ≡ 1) × (length_of h.header ≤ length plan.old) }
    ensures { Wrote (drop 1 (plan_of h.header)) plan.old plan.new 1 result }
{
    let next = write_solve(h, plan);
    plan[next] = ops::pack(
        ops::Op::Open.code(),
        0,
        3 * h.header.edges + 3 * h.header.vertices + 7,
        0,
    );
    next + 1
}
