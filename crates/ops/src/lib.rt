// Operation words made, taken apart, tested, carried out on a bank of cells, and logged.
// Rests on machine and fields.
#![tactic(auto)]

ghost use Rattle.std.specs.Prelude.{◌≡◌, ◌+◌, ◌^◌, ◌<◌, ◌≤◌, T, length, MatchOption};
ghost use Rattle.std.proofs.lemmas.List.Edits.{sets};
ghost use Rattle.fields.specs.Fields.{signed_of, join_of};
ghost use Rattle.machine.specs.Instruction as Instruction;
ghost use Rattle.machine.specs.Effect.{perform};
ghost use Rattle.machine.specs.Word.{FieldsAre, op_field, packed, decode_at, admissible_at, admissible};
ghost use Rattle.machine.specs.Value.{value_of};
ghost use Rattle.machine.specs.Log.{carry, carried, logged, opens};
ghost use Rattle.ops.specs.Op.{code};

// The ops, in the order of their codes.
#[derive(Clone, Copy, PartialEq, Eq)]
pub enum Op {
    Set,
    Copy,
    Add,
    Less,
    Equal,
    Both,
    MoveIf,
    Open,
}

impl Op {
    // The op of a code; a word's op field may hold one that is none, and a missing op has nothing to say, so it is no conversion with an error.
    pub fn parse(field: u64) -> Option<Op>
        ensures { MatchOption result (8 ≤ field) (λ op. code op ≡ field) }
    {
        let unknown = 7 < field;
        if unknown {
            return None;
        }
        Some(match field {
            0 => Op::Set,
            1 => Op::Copy,
            2 => Op::Add,
            3 => Op::Less,
            4 => Op::Equal,
            5 => Op::Both,
            6 => Op::MoveIf,
            _ => Op::Open,
        })
    }

    // And back.
    pub fn code(self) -> u64
        ensures { result ≡ code self }
    {
        self as u64
    }
}

// ---- words

// Four fields as one word, most significant first: an operation word, or a header word.
pub fn pack(op: u64, d: u64, a: u64, b: u64) -> u64
    requires { (op < 2 ^ 4) × (d < 2 ^ 20) × (a < 2 ^ 20) × (b < 2 ^ 20) }
    ensures { result ≡ packed op d a b }
{
    fields::join(fields::join(fields::join(op, d, 20), a, 20), b, 20)
}

// What `pack` put together, as numbers: a header word has a method where an operation word has the code of its op.
#[derive(Clone, Copy)]
pub struct Parts {
    pub op: u64,
    pub d: u64,
    pub a: u64,
    pub b: u64,
    pub ghost narrow: { (op < 2 ^ 4) × (d < 2 ^ 20) × (a < 2 ^ 20) × (b < 2 ^ 20) },
}

// A word taken apart.
pub fn split(word: u64) -> Parts
    ensures { FieldsAre word result.op result.d result.a result.b }
{
    Parts {
        op: fields::field(word, 60, 4),
        d: fields::field(word, 40, 20),
        a: fields::field(word, 20, 20),
        b: fields::field(word, 0, 20),
    }
}

// An operation word taken apart.
#[derive(Clone, Copy)]
pub struct Operation {
    pub op: Op,
    pub d: u64,
    pub a: u64,
    pub b: u64,
    pub ghost narrow: { (d < 2 ^ 20) × (a < 2 ^ 20) × (b < 2 ^ 20) },
}

impl Operation {
    // A word as an operation, where its op field holds the code of one.
    pub fn parse(word: u64) -> Option<Operation>
        ensures { MatchOption result (8 ≤ op_field word) (λ w. FieldsAre word (code w.op) w.d w.a w.b) }
    {
        let w = split(word);
        let op = Op::parse(w.op)?;
        Some(Operation {
            op,
            d: w.d,
            a: w.a,
            b: w.b,
        })
    }

    // The same of a word that is one, as each that cells admit.
    pub fn of(word: u64) -> Operation
        requires { op_field word < 8 }
        ensures { FieldsAre word (code result.op) result.d result.a result.b }
    {
        Operation::parse(word).unwrap()
    }
}

// Whether a word is an OPEN.
pub fn opens(word: u64) -> bool
    ensures { result ≡ opens word }
{
    matches!(Op::parse(fields::field(word, 60, 4)), Some(Op::Open))
}

// Whether an operation is an instruction that a bank of `count` cells can carry out.
fn admits_fields(count: u64, w: Operation) -> bool
    ensures { result ≡ admissible_at count (code w.op) w.d w.a w.b }
{
    match w.op {
        Op::Set => w.d < count,
        Op::Open => w.d == 0 && w.b == 0 && w.a < count,
        Op::Copy => w.b == 0 && w.d < count && w.a < count,
        _ => w.d < count && w.a < count && w.b < count,
    }
}

// Whether a bank of `count` cells can carry out a word.
pub fn admits(word: u64, count: usize) -> bool
    ensures { result ≡ admissible count word }
{
    match Operation::parse(word) {
        Some(w) => admits_fields(count as u64, w),
        None => false,
    }
}

// ---- carrying out

// What an op from COPY to BOTH leaves in [d], from [a] and [b].
fn value(op: Op, x: i64, y: i64) -> i64
    requires { (0 < code op) × (code op < 6) }
    ensures { result ≡ value_of (code op) x y }
{
    match op {
        Op::Copy => x,
        Op::Add => x.wrapping_add(y),
        Op::Less => {
            let below = x < y;
            i64::from(below)
        }
        Op::Equal => i64::from(x == y),
        Op::Both => i64::from(x != 0 && y != 0),
        Op::Set | Op::MoveIf | Op::Open => unreachable!(),
    }
}

// MOVEIF, the most frequent instruction: nothing more is read or written where [a] is 0.
fn move_if(cells: &mut [i64], d: u64, a: u64, b: u64)
    requires { (d < length cells.old) × (a < length cells.old) × (b < length cells.old) }
    ensures { cells.new ≡ perform (Instruction.MOVEIF d a b) cells.old }
{
    let test = cells[a as usize];
    let unmoved = test == 0;
    if unmoved {
        return;
    }
    let moved = cells[b as usize];
    cells[d as usize] = moved;
}

// The number that SET writes: the 40 bits of a and b together.
fn constant(a: u64, b: u64) -> i64
    requires { (a < 2 ^ 20) × (b < 2 ^ 20) }
    ensures { result ≡ signed_of 40 (join_of a b 20) }
{
    fields::signed(fields::join(a, b, 20), 40)
}

// An instruction, by its fields, carried out.
fn step_fields(cells: &mut [i64], w: Operation)
    requires { T (admissible_at (length cells.old) (code w.op) w.d w.a w.b) }
    ensures { cells.new ≡ carry (decode_at (code w.op) w.d w.a w.b) cells.old }
{
    // By tests, MOVEIF's first, and no `match`: a jump to one of eight places is seldom foretold, and a run took up to 1.4 times as long.
    let moves = w.op == Op::MoveIf;
    if moves {
        move_if(cells, w.d, w.a, w.b);
        return;
    }
    let sets = w.op == Op::Set;
    if sets {
        let k = constant(w.a, w.b);
        cells[w.d as usize] = k;
        return;
    }
    let publishes = w.op == Op::Open;
    if publishes {
        return;
    }
    let x = cells[w.a as usize];
    let y = cells[w.b as usize];
    let v = value(w.op, x, y);
    cells[w.d as usize] = v;
}

// An admissible word carried out on the cells.
pub fn step(cells: &mut [i64], word: u64)
    requires { T (admissible (length cells.old) word) }
    ensures { cells.new ≡ carried word cells.old }
{
    let w = Operation::of(word);
    step_fields(cells, w)
}

// ---- logging

// An admissible word written to the log, with the published cell after an OPEN; the place after them. The log and the place stay two: one caller
// writes words, and a struct of both would only be made, lent and taken apart there.
pub fn append(cells: &[i64], log: &mut [u64], at: usize, word: u64) -> usize
    requires { T (admissible (length cells.now) word) × (at + length (logged word cells.now) ≤ length log.old) }
    ensures { (result ≡ at + length (logged word cells.now)) × (log.new ≡ sets log.old at (logged word cells.now)) }
{
    log[at] = word;
    let w = Operation::of(word);
    if let Op::Open = w.op {
        let cell = cells[w.a as usize];
        log[at + 1] = fields::bits(cell, 64);
        return at + 2;
    }
    at + 1
}
