// Rows: a plan's lines made ready for a header's counts and cells, one row each. The words that rows stand for are in specs.
// One set of functions for every method. Rests on plans (outlines), ops and fields.
#![tactic(auto)]

ghost use Rattle.std.specs.Prelude.{◌≡◌, map, ◌+◌, ◌^◌, ◌<◌, ◌≤◌, length, take, slice_index, EachIndex};
ghost use Rattle.machine.specs.Instruction.{All};
ghost use Rattle.rows.specs.Code.{place_of, flags_of, set_number, set_other, set_step, word_step, set_row, instruction_row, over_of, row_of_code};

use ops::Op;

// A word that moves with the counters: where they are 0, what a step of each adds, and what is added unless the inner counter is the source.
#[derive(Clone, Copy)]
pub struct Moving {
    pub base: u64,
    pub outer: u64,
    pub middle: u64,
    pub inner: u64,
    pub other: u64,
}

// The counters of the loops around a row, the outermost first.
#[derive(Clone, Copy)]
pub enum Level {
    Outer,
    Middle,
    Inner,
}

// What a loop counts: a counter, nothing, or the inner counter where all its rows are words, a run.
#[derive(Clone, Copy)]
pub enum Over {
    Counter(Level),
    Nothing,
    Run,
}

// A row of a table: a word, or a loop over the `rows` rows that follow, which turns `turns` times.
#[derive(Clone, Copy)]
pub enum Row {
    Word(Moving),
    Loop { over: Over, turns: u64, rows: usize },
}

// A word of nothing, for a table that is not filled yet.
pub const EMPTY: Row = Row::Word(Moving {
    base: 0,
    outer: 0,
    middle: 0,
    inner: 0,
    other: 0,
});

// ---- a plan's lines: op << 60 | d << D_ | a << A_ | b, like an operation word, and loops
// Numbers, not an enum: one word a line, as a document's line reads, and its row is made of many bits of it at once.

pub const SET: u64 = 0 << 60;

pub const COPY: u64 = 1 << 60;

pub const ADD: u64 = 2 << 60;

pub const LESS: u64 = 3 << 60;

pub const EQUAL: u64 = 4 << 60;

pub const BOTH: u64 = 5 << 60;

pub const MOVEIF: u64 = 6 << 60;

pub const OPEN: u64 = 7 << 60;

// The number of rows in b, a times: over a counter, over none, and over the inner one where all of them are words.
pub const EACH_T: u64 = 8 << 60;

pub const EACH_I: u64 = 9 << 60;

pub const EACH_V: u64 = 10 << 60;

pub const AGAIN: u64 = 11 << 60;

pub const RUN: u64 = 12 << 60;

pub const D_: u32 = 40;

pub const A_: u32 = 20;

// Counters in an operand: the outer, the middle and the inner one, and n times each.
pub const T: u64 = 1 << 5;

pub const I: u64 = 1 << 6;

pub const V: u64 = 1 << 7;

pub const ROW_T: u64 = 1 << 8;

pub const ROW_I: u64 = 1 << 9;

pub const ROW_V: u64 = 1 << 10;

// Counts: n, m and n - 1. A method's regions come after them, from 4 << 11 on.
pub const VERTICES: u64 = 1 << 11;

pub const EDGES: u64 = 2 << 11;

pub const OTHERS: u64 = 3 << 11;

// SET's number, in b, where it is not that of a: FAR, -1, and 0 where the inner counter is the source, else FAR.
pub const UNREACHED: u64 = 1;

pub const MINUS_ONE: u64 = 2;

pub const FROM_SOURCE: u64 = 3;

// ---- SET's numbers as a row has them, and a mask

const FAR: u64 = plans::FAR as u64;

// The 40 bits of -1.
const RAW_MINUS_ONE: u64 = 1099511627775;

// The lowest bit of each operand.
const ONES: u64 = 1099512676353;

// ---- operands

// One bit of each operand.
fn flags(code: u64, bit: u32) -> u64
    requires { bit < 20 }
    ensures { (result ≡ flags_of bit code) × (result < 2 ^ 41) }
{
    (code >> bit) & ONES
}

// SET's number.
fn number_of(code: u64) -> u64
    ensures { (result ≡ set_number code) × (result < 2 ^ 40) }
{
    let b = fields::field(code, 0, 20);
    match b {
        0 => fields::field(code, 20, 5),
        UNREACHED => FAR,
        MINUS_ONE => RAW_MINUS_ONE,
        _ => 0,
    }
}

fn other_of(code: u64) -> u64
    ensures { result ≡ set_other code }
{
    let b = fields::field(code, 0, 20);
    if b == FROM_SOURCE { FAR } else { 0 }
}

// What a loop's line counts: numbers above those of the ops.
fn over_of(op: u64) -> Over
    ensures { result ≡ over_of op }
{
    match op {
        8 => Over::Counter(Level::Outer),
        9 => Over::Counter(Level::Middle),
        10 => Over::Counter(Level::Inner),
        12 => Over::Run,
        _ => Over::Nothing,
    }
}

// ---- lines

// What lines are made ready for: n, and what a count or an operand's first cell is looked up in.
#[derive(Clone, Copy)]
struct Places<'a> {
    width: u64,
    env: &'a [u64],
    ghost narrow: { width < 2 ^ 19 },
    ghost near: { EachIndex env.now (λ i. slice_index env.now i < 2 ^ 19) },
}

impl Places<'_> {
    // The operand at a shift, where the counters are 0: an entry of env, 0 where there is none, and an offset.
    fn place(&self, code: u64, shift: u32) -> u64
        requires { shift ≤ 40 }
        ensures { (result ≡ place_of self.now.env.now shift code) × (result < 2 ^ 20) }
    {
        let offset = fields::field(code, shift, 5);
        let k = fields::field(code, 11 + shift, 5) as usize;
        if k < self.env.len() {
            return self.env[k] + offset;
        }
        offset
    }

    // Words and SETs apart: a word packs three operands of 20 bits, a SET a cell of 20 and a number of 40.

    // What a step of a counter adds to the operands.
    fn word_step(&self, code: u64, level: u32) -> u64
        requires { level < 3 }
        ensures { result ≡ word_step self.now.width code level }
    {
        flags(code, 5 + level) + self.width * flags(code, 8 + level)
    }

    // What a step of a counter adds to SET's cell and to its number.
    fn set_step(&self, code: u64, level: u32) -> u64
        requires { level < 3 }
        ensures { result ≡ set_step self.now.width code level }
    {
        let once = fields::field(code, 5 + level + 40, 1);
        let rows = fields::field(code, 8 + level + 40, 1);
        fields::join(
            once + self.width * rows,
            fields::field(code, 25 + level, 1),
            40,
        )
    }

    fn instruction(&self, code: u64, op: u64) -> Moving
        requires { op < 2 ^ 4 }
        ensures { result ≡ instruction_row self.now.width self.now.env.now code op }
    {
        let d = self.place(code, 40);
        let a = self.place(code, 20);
        let b = self.place(code, 0);
        Moving {
            base: ops::pack(op, d, a, b),
            outer: self.word_step(code, 0),
            middle: self.word_step(code, 1),
            inner: self.word_step(code, 2),
            other: 0,
        }
    }

    fn set(&self, code: u64) -> Moving
        ensures { result ≡ set_row self.now.width self.now.env.now code }
    {
        Moving {
            base: fields::join(self.place(code, 40), number_of(code), 40),
            outer: self.set_step(code, 0),
            middle: self.set_step(code, 1),
            inner: self.set_step(code, 2),
            other: other_of(code),
        }
    }

    // The row of a line.
    fn row(&self, code: u64) -> Row
        ensures { result ≡ row_of_code self.now.width self.now.env.now code }
    {
        let op = fields::field(code, 60, 4);
        match Op::parse(op) {
            Some(named) => Row::Word(match named {
                Op::Set => self.set(code),
                _ => self.instruction(code, op),
            }),
            None => Row::Loop {
                over: over_of(op),
                turns: self.place(code, 20),
                rows: fields::field(code, 0, 20) as usize,
            },
        }
    }
}

// The rows of a plan's lines, one for each.
pub fn assemble(lines: &[u64], width: u64, env: &[u64], table: &mut [Row])
    requires { (width < 2 ^ 19) × All (λ x. x < 2 ^ 19) env.now × (length lines.now ≤ length table.old) }
    ensures { (length table.new ≡ length table.old) × (take (length lines.now) table.new ≡ map (row_of_code width env.now) lines.now) }
{
    let places = Places { width, env };
    // An index: over pairs, by `table.iter_mut().zip(lines)`, the proof did not close, since what is written has no name in the invariant.
    for (k, line) in lines.iter().enumerate() {
        table[k] = places.row(*line);
    }
}
