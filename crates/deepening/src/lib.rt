// A word's depth from those of its cells, wherever these are kept.
// Rests on ops.
#![tactic(auto)]

ghost use Rattle.std.specs.Prelude.{◌≡◌, ℕ, ◌^◌, ◌<◌, T};
ghost use Rattle.machine.specs.Word.{decode_at, admissible_at};
ghost use Rattle.machine.specs.Depth.{rounds};
ghost use Rattle.ops.specs.Op.{code};
ghost use Rattle.deepening.specs.Word.{read_of, depth_from, depth_by};

use ops::{Op, Operation};

// ---- what an op costs

const ROUNDS: [u64; 8] = [1, 0, 0, 6, 6, 1, 1, 1];

// The column "rounds" of the rules, by op. It is made once for a plan and lent, which is faster than to index the constant for every word
// (docs/PERFORMANCE.md).
#[derive(Clone, Copy)]
pub struct Column {
    costs: [u64; 8],
    ghost of_the_rules: { costs ≡ rounds },
}

impl Column {
    pub fn new() -> Column {
        Column { costs: ROUNDS }
    }
}

// The greatest of those that an op reads, where [a] is at x, [b] at y and [d] at z.
fn read_depth(op: Op, x: u64, y: u64, z: u64) -> u64
    ensures { result ≡ read_of (code op) x y z }
{
    match op {
        Op::Set => 0,
        Op::Copy => x,
        Op::MoveIf => x.max(y).max(z),
        Op::Open => x,
        _ => x.max(y),
    }
}

pub fn depth_from(column: &Column, op: Op, x: u64, y: u64, z: u64) -> u64
    requires { (x < 2 ^ 40) × (y < 2 ^ 40) × (z < 2 ^ 40) }
    ensures { result ≡ depth_from (code op) x y z }
{
    read_depth(op, x, y, z) + column.costs[op.code() as usize]
}

// ---- the cells' depths

// Where the depths of so many cells are kept, to be looked at.
pub trait Depths {
    ghost count: { Self → ℕ };

    ghost depths: { Self → ℕ → ℕ };

    fn at(&self, a: u64) -> u64
        requires { a < count self.now }
        ensures { (result ≡ depths self.now a) × (result < 2 ^ 40) };
}

// The depth of a word. An op other than SET that has no b or no d has 0 in its place, and there is a cell 0.
pub fn depth_of<D: Depths>(column: &Column, w: Operation, cells: &D) -> u64
    requires { T (admissible_at (D.count cells.now) (code w.op) w.d w.a w.b) }
    ensures { result ≡ depth_by (decode_at (code w.op) w.d w.a w.b) (D.depths cells.now) }
{
    let constant = w.op == Op::Set;
    if constant {
        return 1;
    }
    let x = cells.at(w.a);
    let y = cells.at(w.b);
    let z = cells.at(w.d);
    depth_from(column, w.op, x, y, z)
}
