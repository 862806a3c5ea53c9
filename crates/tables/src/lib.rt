// Tables: the words of a plan's lines, written to a buffer. The lines' rows lie in a table, and their loops are carried out, not expanded
// there. One set of functions for every method. Rests on rows and plans (counters).
#![tactic(auto)]

ghost use Rattle.std.specs.Prelude.{◌≡◌, ◌+◌, ◌-◌, ◌*◌, ◌^◌, ◌<◌, ◌≤◌, length};
ghost use Rattle.plans.specs.Outline.{inner, counted_to};
ghost use Rattle.rows.specs.Table.{word_of, moving_of, turned};
ghost use Rattle.rows.specs.declared.Over.TheVariants.{Counter, Nothing};
ghost use Rattle.rows.specs.declared.Row.TheVariants.{Loop};
ghost use Rattle.tables.specs.Writing.{block, running, looping, unrolled, first_of, word_along, Spacious, Spaced, Ready, RoomAt, Wrote, Repeated, lines_words, Writable};

use plans::Counters;
use rows::{Level, Moving, Over, Row};

// ---- words

// A word at the outer and the middle counter, the inner one being 0.
fn first_of(word: Moving, k: Counters) -> u64
    requires { first_of word k < 2 ^ 64 }
    ensures { result ≡ first_of word k }
{
    word.base + word.outer * k.outer + word.middle * k.middle
}

// The word at the inner counter j.
fn along(first: u64, step: u64, other: u64, source: u64, j: u64) -> u64
    requires { word_along first step other source j < 2 ^ 64 }
    ensures { result ≡ word_along first step other source j }
{
    let w = first + step * j;
    if j == source {
        return w;
    }
    w + other
}

// The words that stand from `at` to `mid`, `count` times.
fn repeat(count: u64, out: &mut [u64], at: usize, mid: usize) -> usize
    requires { (0 < count) × (at ≤ mid) × (at + count * (mid - at) ≤ length out.old) }
    ensures { Repeated count out.old out.new at mid result }
{
    let size = mid - at;
    let end = at + count as usize * size;
    // An index: what is copied has just been written.
    for i in mid..end {
        out[i] = out[i - size];
    }
    end
}

// ---- rows

// A row of a run: a word. A loop, which no plan has there, counts for a word of its turns and its rows, as in the definition, which has to say
// something of every row.
fn moving_of(row: Row) -> Moving
    ensures { result ≡ moving_of row }
{
    match row {
        Row::Word(word) => word,
        Row::Loop { turns, rows, .. } => Moving {
            base: turns,
            outer: rows as u64,
            middle: 0,
            inner: 0,
            other: 0,
        },
    }
}

// The counters in turn j of a loop over one of them.
fn turn(level: Level, j: u64, k: Counters) -> Counters
    ensures { result ≡ turned (Counter level) j k }
{
    match level {
        Level::Outer => Counters { outer: j, ..k },
        Level::Middle => Counters { middle: j, ..k },
        Level::Inner => Counters { inner: j, ..k },
    }
}

// What rows are written out for: the source, and the counters of the loops around them.
// They are written to a buffer and a place, not to a struct of both: in one, the place lies in memory, and `write_plan` takes 5 to 10 % longer
// at 4 and 8 vertices.
#[derive(Clone, Copy)]
struct Writer {
    source: u64,
    k: Counters,
}

impl Writer {
    fn word(&self, word: Moving) -> u64
        requires { word_of self.now.source word self.now.k < 2 ^ 64 }
        ensures { result ≡ word_of self.now.source word self.now.k }
    {
        let first = first_of(word, self.k);
        along(first, word.inner, word.other, self.source, self.k.inner)
    }

    // A word at each value of the inner counter, `size` places apart, as far as `end`.
    fn column(&self, word: Moving, size: usize, out: &mut [u64], at: usize, end: usize)
        requires { Spacious (λ j. word_of self.now.source word (counted_to inner j self.now.k)) size at end out.old }
        ensures { Spaced (λ j. word_of self.now.source word (counted_to inner j self.now.k)) size at end out.old out.new }
    {
        let first = first_of(word, self.k);
        let Moving { inner, other, .. } = word;
        let source = self.source;
        let mut q = at;
        let mut j: u64 = 0;
        // Two places move at once. A `for` over j, or over q by `step_by`, takes a tenth longer in method 4.
        while q < end {
            out[q] = along(first, inner, other, source, j);
            q += size;
            j += 1;
        }
    }

    // A loop whose rows are all words, over the inner counter: row by row, so that what a row does not change is found once.
    fn run(&self, turns: u64, rows: &[Row], out: &mut [u64], at: usize) -> usize
        requires { RoomAt (running self.now.source turns rows.now self.now.k) out.old at }
        ensures { Wrote (running self.now.source turns rows.now self.now.k) out.old out.new at result }
    {
        let end = at + turns as usize * rows.len();
        if end == at {
            return end;
        }
        for (i, row) in rows.iter().enumerate() {
            self.column(moving_of(*row), rows.len(), out, at + i, end);
        }
        end
    }

    // A loop over a counter: its rows in each turn.
    #[cycle(again_each_looped_words)]
    fn each(&self, level: Level, turns: u64, rows: &[Row], out: &mut [u64], at: usize) -> usize
        requires { Ready rows.now (looping self.now.source (Counter level) turns rows.now self.now.k) out.old at }
        ensures { Wrote (looping self.now.source (Counter level) turns rows.now self.now.k) out.old out.new at result }
    {
        let mut next = at;
        for j in 0..turns {
            let now = Writer {
                k: turn(level, j, self.k),
                ..*self
            };
            next = now.words(rows, out, next);
        }
        next
    }

    // A loop of no counter: every turn has the same words, so they are made once and copied.
    #[cycle(again_each_looped_words)]
    fn again(&self, turns: u64, rows: &[Row], out: &mut [u64], at: usize) -> usize
        requires { Ready rows.now (looping self.now.source Nothing turns rows.now self.now.k) out.old at }
        ensures { Wrote (looping self.now.source Nothing turns rows.now self.now.k) out.old out.new at result }
    {
        if turns == 0 {
            return at;
        }
        let mid = self.words(rows, out, at);
        repeat(turns, out, at, mid)
    }

    // A loop, by what it counts.
    #[cycle(again_each_looped_words)]
    fn looped(&self, over: Over, turns: u64, rows: &[Row], out: &mut [u64], at: usize) -> usize
        requires { Ready rows.now (unrolled self.now.source (Loop over turns (length rows.now)) rows.now self.now.k) out.old at }
        ensures { Wrote (unrolled self.now.source (Loop over turns (length rows.now)) rows.now self.now.k) out.old out.new at result }
    {
        match over {
            Over::Counter(level) => self.each(level, turns, rows, out, at),
            Over::Nothing => self.again(turns, rows, out, at),
            Over::Run => self.run(turns, rows, out, at),
        }
    }

    // Rows one after the other, each loop with its own.
    #[cycle(again_each_looped_words)]
    fn words(&self, rows: &[Row], out: &mut [u64], at: usize) -> usize
        requires { Ready rows.now (block self.now.source rows.now self.now.k) out.old at }
        ensures { Wrote (block self.now.source rows.now self.now.k) out.old out.new at result }
    {
        let mut rest = rows;
        let mut next = at;
        while let [row, after @ ..] = rest {
            match *row {
                Row::Word(word) => {
                    out[next] = self.word(word);
                    next += 1;
                    rest = after;
                }
                Row::Loop { over, turns, rows } => {
                    next = self.looped(over, turns, &after[..rows], out, next);
                    rest = &after[rows..];
                }
            }
        }
        next
    }
}

// The words of a plan's lines, written from `at` on; the place after them. Their rows go to `table`.
pub fn write(
    lines: &[u64],
    width: u64,
    env: &[u64],
    source: u64,
    table: &mut [Row],
    out: &mut [u64],
    at: usize,
) -> usize
    requires { (length lines.now ≤ length table.old) × Writable width env.now lines.now source out.old at }
    ensures { Wrote (lines_words width env.now lines.now source) out.old out.new at result }
{
    rows::assemble(lines, width, env, table);
    let start = Writer {
        source,
        k: Counters {
            outer: 0,
            middle: 0,
            inner: 0,
        },
    };
    start.words(&table[..lines.len()], out, at)
}

// The same, with a table as long as the lines.
pub fn write_lines<const LINES: usize>(
    lines: &[u64; LINES],
    width: u64,
    env: &[u64],
    source: u64,
    out: &mut [u64],
    at: usize,
) -> usize
    requires { (48 * LINES < 2 ^ 63) × Writable width env.now lines.now source out.old at }
    ensures { Wrote (lines_words width env.now lines.now source) out.old out.new at result }
{
    let mut table = [rows::EMPTY; LINES];
    write(lines, width, env, source, &mut table, out, at)
}
