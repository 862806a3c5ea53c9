// Method 3: its plan as lines, in document 02's order, and where its regions begin.
// Rests on headers, rows and tables.
ghost use Rattle.std.specs.Prelude.{◌≡◌, ◌≤◌, length, drop};
ghost use Rattle.plans.specs.Plan.{plan_of, length_of};
ghost use Rattle.tables.specs.Writing.{Wrote};

use headers::AcceptedHeader;
use rows::{
    A_, ADD, AGAIN, BOTH, COPY, D_, EACH_I, EDGES, EQUAL, FROM_SOURCE, I, LESS, MINUS_ONE, MOVEIF,
    OPEN, OTHERS, ROW_I, RUN, SET, UNREACHED, V, VERTICES,
};

const FROM: u64 = 4 << 11;

// The to-vertex of the edge before edge i is at B + i, its own after it.
const B: u64 = 5 << 11;

const WEIGHT: u64 = 6 << 11;

const D: u64 = 7 << 11;

const P: u64 = 8 << 11;

const Y: u64 = 9 << 11;

const N: u64 = 10 << 11;

const Q: u64 = 11 << 11;

const X: u64 = 12 << 11;

const S: u64 = 13 << 11;

const F: u64 = 14 << 11;

const T: u64 = 15 << 11;

const LINES: [u64; 49] = [
    // For each v, SET Y+v to v, SET D+v to 0 if v is the source, else FAR, SET P+v to -1, SET N+v to FAR.
    RUN | VERTICES << A_ | 4,
    SET | Y + V << D_ | V << A_,
    SET | D + V << D_ | FROM_SOURCE,
    SET | P + V << D_ | MINUS_ONE,
    SET | N + V << D_ | UNREACHED,
    // SET X to FAR, SET X+8 to 0, SET B to -1.
    SET | X << D_ | UNREACHED,
    SET | X + 8 << D_,
    SET | B << D_ | MINUS_ONE,
    // The preparation over all edges i.
    EACH_I | EDGES << A_ | 4,
    LESS | S + I << D_ | B + I << A_ | B + I + 1,
    RUN | VERTICES << A_ | 2,
    EQUAL | F + ROW_I + V << D_ | FROM + I << A_ | Y + V,
    EQUAL | T + ROW_I + V << D_ | B + I + 1 << A_ | Y + V,
    // n-1 passes, each over all edges i, and then for each v.
    AGAIN | OTHERS << A_ | 19,
    EACH_I | EDGES << A_ | 14,
    COPY | X + 1 << D_ | X << A_,
    RUN | VERTICES << A_ | 1,
    MOVEIF | X + 1 << D_ | F + ROW_I + V << A_ | D + V,
    ADD | X + 2 << D_ | X + 1 << A_ | WEIGHT + I,
    LESS | X + 4 << D_ | X + 1 << A_ | X,
    MOVEIF | X + 6 << D_ | S + I << A_ | X,
    LESS | X + 5 << D_ | X + 2 << A_ | X + 6,
    BOTH | X + 5 << D_ | X + 5 << A_ | X + 4,
    MOVEIF | X + 6 << D_ | X + 5 << A_ | X + 2,
    SET | X + 3 << D_ | I << A_,
    MOVEIF | X + 7 << D_ | X + 5 << A_ | X + 3,
    RUN | VERTICES << A_ | 2,
    MOVEIF | N + V << D_ | T + ROW_I + V << A_ | X + 6,
    MOVEIF | Q + V << D_ | T + ROW_I + V << A_ | X + 7,
    RUN | VERTICES << A_ | 3,
    LESS | X + 5 << D_ | N + V << A_ | D + V,
    MOVEIF | D + V << D_ | X + 5 << A_ | N + V,
    MOVEIF | P + V << D_ | X + 5 << A_ | Q + V,
    // The check over all edges i, and then for each v.
    EACH_I | EDGES << A_ | 11,
    COPY | X + 1 << D_ | X << A_,
    RUN | VERTICES << A_ | 1,
    MOVEIF | X + 1 << D_ | F + ROW_I + V << A_ | D + V,
    ADD | X + 2 << D_ | X + 1 << A_ | WEIGHT + I,
    LESS | X + 4 << D_ | X + 1 << A_ | X,
    MOVEIF | X + 6 << D_ | S + I << A_ | X,
    LESS | X + 5 << D_ | X + 2 << A_ | X + 6,
    BOTH | X + 5 << D_ | X + 5 << A_ | X + 4,
    MOVEIF | X + 6 << D_ | X + 5 << A_ | X + 2,
    RUN | VERTICES << A_ | 1,
    MOVEIF | N + V << D_ | T + ROW_I + V << A_ | X + 6,
    RUN | VERTICES << A_ | 2,
    LESS | X + 5 << D_ | N + V << A_ | D + V,
    MOVEIF | X + 8 << D_ | X + 5 << A_ | X + 5,
    // The verdict.
    OPEN | X + 8 << A_,
];

// The plan's words, written after its header word; the plan's length.
pub fn write(h: AcceptedHeader, plan: &mut [u64]) -> usize
    requires { (h.header.method ≡ 3) × (length_of h.header ≤ length plan.old) }
    ensures { Wrote (drop 1 (plan_of h.header)) plan.old plan.new 1 result }
{
    let n = h.header.vertices;
    let m = h.header.edges;
    let d = 3 * m + 1;
    let x = d + 5 * n;
    let s = x + 9;
    let env = [
        0,
        n,
        m,
        n - 1,
        0,
        m,
        2 * m + 1,
        d,
        d + n,
        d + 2 * n,
        d + 3 * n,
        d + 4 * n,
        x,
        s,
        s + m,
        s + m + n * m,
    ];
    tables::write_lines(&LINES, n, &env, h.header.source, plan, 1)
}
