// Method 4: its plan as lines, in document 02's order, and where its regions begin.
// Rests on headers, rows and tables.
ghost use Rattle.std.specs.Prelude.{◌≡◌, ◌≤◌, length, drop};
ghost use Rattle.plans.specs.Plan.{plan_of, length_of};
ghost use Rattle.tables.specs.Writing.{Wrote};

use headers::AcceptedHeader;
use rows::{
    A_, ADD, AGAIN, BOTH, COPY, D_, EACH_I, EACH_T, EDGES, EQUAL, I, LESS, MOVEIF, OPEN, ROW_I,
    ROW_T, ROW_V, RUN, SET, T, UNREACHED, V, VERTICES,
};

const FROM: u64 = 4 << 11;

const TO: u64 = 5 << 11;

const WEIGHT: u64 = 6 << 11;

const D: u64 = 7 << 11;

const C: u64 = 8 << 11;

const R: u64 = 9 << 11;

const Y: u64 = 10 << 11;

const X: u64 = 11 << 11;

const LINES: [u64; 44] = [
    // For each v, SET Y+v to v.
    RUN | VERTICES << A_ | 1,
    SET | Y + V << D_ | V << A_,
    // SET X to FAR, SET X+1 to FAR, 20 times ADD X+1 (X+1, X+1), SET X+2 to 0, SET X+5 to 0.
    SET | X << D_ | UNREACHED,
    SET | X + 1 << D_ | UNREACHED,
    AGAIN | 20 << A_ | 1,
    ADD | X + 1 << D_ | X + 1 << A_ | X + 1,
    SET | X + 2 << D_,
    SET | X + 5 << D_,
    // For each i, for each j, COPY D+in+j from X+1. For each v, COPY D+v(n+1) from X+2.
    EACH_I | VERTICES << A_ | 2,
    RUN | VERTICES << A_ | 1,
    COPY | D + ROW_I + V << D_ | X + 1 << A_,
    RUN | VERTICES << A_ | 1,
    COPY | D + ROW_V + V << D_ | X + 2 << A_,
    // Over all edges l: for each v COPY C+v from X+1, EQUAL X+4 (from l, Y+v), MOVEIF C+v (X+4, X+2), COPY R+v from X+1,
    // EQUAL X+4 (to l, Y+v), MOVEIF R+v (X+4, weight l);
    EACH_T | EDGES << A_ | 12,
    RUN | VERTICES << A_ | 6,
    COPY | C + V << D_ | X + 1 << A_,
    EQUAL | X + 4 << D_ | FROM + T << A_ | Y + V,
    MOVEIF | C + V << D_ | X + 4 << A_ | X + 2,
    COPY | R + V << D_ | X + 1 << A_,
    EQUAL | X + 4 << D_ | TO + T << A_ | Y + V,
    MOVEIF | R + V << D_ | X + 4 << A_ | WEIGHT + T,
    // then the update: for each i, for each j, ADD X+3 (C+i, R+j), LESS X+4 (X+3, D+in+j), MOVEIF D+in+j (X+4, X+3).
    EACH_I | VERTICES << A_ | 4,
    RUN | VERTICES << A_ | 3,
    ADD | X + 3 << D_ | C + I << A_ | R + V,
    LESS | X + 4 << D_ | X + 3 << A_ | D + ROW_I + V,
    MOVEIF | D + ROW_I + V << D_ | X + 4 << A_ | X + 3,
    // Over all stages k: for each v COPY C+v from D+vn+k, COPY R+v from D+kn+v;
    EACH_T | VERTICES << A_ | 8,
    RUN | VERTICES << A_ | 2,
    COPY | C + V << D_ | D + ROW_V + T << A_,
    COPY | R + V << D_ | D + ROW_T + V << A_,
    // then the update.
    EACH_I | VERTICES << A_ | 4,
    RUN | VERTICES << A_ | 3,
    ADD | X + 3 << D_ | C + I << A_ | R + V,
    LESS | X + 4 << D_ | X + 3 << A_ | D + ROW_I + V,
    MOVEIF | D + ROW_I + V << D_ | X + 4 << A_ | X + 3,
    // The circles: for each v LESS X+4 (D+vn+v, X+2), ADD X+5 (X+5, X+4). BOTH X+5 (X+5, X+5).
    RUN | VERTICES << A_ | 2,
    LESS | X + 4 << D_ | D + ROW_V + V << A_ | X + 2,
    ADD | X + 5 << D_ | X + 5 << A_ | X + 4,
    BOTH | X + 5 << D_ | X + 5 << A_ | X + 5,
    // The marks: for each i, for each j, LESS X+4 (X, D+in+j), MOVEIF D+in+j (X+4, X).
    EACH_I | VERTICES << A_ | 3,
    RUN | VERTICES << A_ | 2,
    LESS | X + 4 << D_ | X << A_ | D + ROW_I + V,
    MOVEIF | D + ROW_I + V << D_ | X + 4 << A_ | X,
    // The verdict.
    OPEN | X + 5 << A_,
];

// The plan's words, written after its header word; the plan's length.
pub fn write(h: AcceptedHeader, plan: &mut [u64]) -> usize
    requires { (h.header.method ≡ 4) × (length_of h.header ≤ length plan.old) }
    ensures { Wrote (drop 1 (plan_of h.header)) plan.old plan.new 1 result }
{
    let n = h.header.vertices;
    let m = h.header.edges;
    let d = 3 * m;
    let c = d + n * n;
    let env = [
        0,
        n,
        m,
        n - 1,
        0,
        m,
        2 * m,
        d,
        c,
        c + n,
        c + 2 * n,
        c + 3 * n,
    ];
    tables::write_lines(&LINES, n, &env, h.header.source, plan, 1)
}
