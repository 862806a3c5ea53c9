// The greatest depth of words, with the cells' depths in the cells, whose numbers wait in the log: no room but what is lent.
// Rests on deepening, ops and fields.
#![tactic(auto)]

ghost use Rattle.std.specs.Prelude.{◌≡◌, ◌^◌, ◌<◌, ◌≤◌, T, length, get_or, drop};
ghost use Rattle.machine.specs.Word.{admissible};
ghost use Rattle.machine.specs.Log.{Admitted};
ghost use Rattle.machine.specs.Depth.{depth_of};
ghost use Rattle.deepening.specs.Word.{NoDeeper};
ghost use Rattle.marks.specs.Place.{writes_to, depths_at, put_back, undone, Saved};
ghost use Rattle.deepening.specs.Worked.{WorkedOut};

use deepening::{Column, Depths};
use ops::{Op, Operation};

// Whether a word writes a cell.
fn writes(word: u64, cell: u64) -> bool
    ensures { result ≡ writes_to word cell }
{
    if ops::opens(word) {
        return false;
    }
    let w = ops::split(word);
    w.d == cell
}

// The cells' depths before word k, as their marks tell them.
#[derive(Clone, Copy)]
struct Marked<'a> {
    words: &'a [u64],
    cells: &'a [i64],
    k: usize,
    ghost within: { k ≤ length words.now },
}

impl<'a> Depths for Marked<'a> {
    ghost count = { λ m. length m.cells.now };

    ghost depths = { λ m. depths_at m.words.now m.cells.now m.k };

    fn at(&self, a: u64) -> u64 {
        let mark = self.cells[a as usize].cast_unsigned();
        let by = fields::field(mark, 0, 24) as usize;
        if self.k <= by {
            return 0;
        }
        if writes(self.words[by], a) {
            return fields::field(mark, 24, 40);
        }
        0
    }
}

// The depth of word k. The cell that the word writes is saved in the log and takes the mark.
// A twin of charge's: a mark takes the words, the log and the word's number along, so that a trait to write depths would be longer than both.
fn deepen(column: &Column, words: &[u64], cells: &mut [i64], log: &mut [u64], k: usize) -> u64
    requires { (k < length words.now) × (k < length log.old) × (length words.now ≤ 2 ^ 24)
        × T (admissible (length cells.old) (get_or words.now k 0)) × NoDeeper (2 ^ 31) (depths_at words.now cells.old k) }
    ensures { Saved words.now k cells.old log.old result cells.new log.new }
{
    let w = Operation::of(words[k]);
    let depth = deepening::depth_of(column, w, &Marked { words, cells, k });
    if let Op::Open = w.op {
        return depth;
    }
    let d = w.d as usize;
    log[k] = cells[d].cast_unsigned();
    cells[d] = fields::join(depth, k as u64, 24).cast_signed();
    depth
}

// Words, cells and log are lent side by side: a struct of the three would have to say of cells and log that they stay those that were lent.

// The greatest of all words, with every cell that they write marked.
fn deepen_all(words: &[u64], cells: &mut [i64], log: &mut [u64]) -> u64
    requires { Admitted (length cells.old) words.now × (length words.now ≤ 2 ^ 24) × (length words.now ≤ length log.old) }
    ensures { (result ≡ depth_of words.now) × (undone words.now log.new (length words.now) cells.new ≡ cells.old) × (drop (length words.now) log.new ≡ drop (length words.now) log.old) }
{
    let column = Column::new();
    let mut rounds: u64 = 0;
    // An index: the mark holds the word's number.
    for k in 0..words.len() {
        rounds = rounds.max(deepen(&column, words, cells, log, k));
    }
    rounds
}

// A word's cell as it was saved.
fn put_back(word: u64, saved: u64, cells: &mut [i64])
    requires { T (admissible (length cells.old) word) }
    ensures { cells.new ≡ put_back word saved cells.old }
{
    let w = Operation::of(word);
    if let Op::Open = w.op {
        return;
    }
    cells[w.d as usize] = saved.cast_signed();
}

// The cells as they were before the first word, from the last one back.
fn restore(words: &[u64], cells: &mut [i64], log: &[u64])
    requires { Admitted (length cells.old) words.now × (length words.now ≤ length log.now) }
    ensures { cells.new ≡ undone words.now log.now (length words.now) cells.old }
{
    // An index: words and log, which is longer, are gone over from the words' end.
    for k in (0..words.len()).rev() {
        put_back(words[k], log[k], cells);
    }
}

// The greatest of all words; the cells are as they were.
pub fn greatest(words: &[u64], cells: &mut [i64], log: &mut [u64]) -> u64
    requires { Admitted (length cells.old) words.now × (length words.now ≤ 2 ^ 24) × (length words.now ≤ length log.old) }
    ensures { WorkedOut words.now cells.old log.old result cells.new log.new }
{
    let rounds = deepen_all(words, cells, log);
    restore(words, cells, log);
    rounds
}
