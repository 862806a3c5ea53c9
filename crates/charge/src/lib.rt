// The charge of operation words: their greatest depth (document 02, ask 4). The cells' depths are in a local table where the words keep to the
// cells of one and are worth clearing it, else in the lent cells, whose numbers wait in the lent log and are put back.
// Rests on marks, deepening and ops.
#![tactic(auto)]

mod table;

ghost use Rattle.std.specs.Prelude.{◌≡◌, ◌^◌, ◌≤◌, length};
ghost use Rattle.machine.specs.Word.{admissible};
ghost use Rattle.machine.specs.Log.{Admitted};
ghost use Rattle.charge.specs.Table.{enough};
ghost use Rattle.deepening.specs.Worked.{WorkedOut};

use table::{FEW, MANY};

// From so many words on, clearing the larger table takes less time than it saves.
const SHORT: usize = 256;

// Whether every word keeps to the first `count` cells.
fn fits(words: &[u64], count: usize) -> bool
    ensures { result ≡ enough count words.now }
{
    words.iter().all(
        |word: &u64| -> bool
            ensures { result ≡ admissible count word.now }
        { ops::admits(*word, count) },
    )
}

// The rounds of operation words that the cells admit. What is asked is said of three lent slices together, so no type has it.
pub fn depth_of(words: &[u64], cells: &mut [i64], log: &mut [u64]) -> u64
    requires { Admitted (length cells.old) words.now × (length words.now ≤ 2 ^ 24) × (length words.now ≤ length log.old) }
    ensures { WorkedOut words.now cells.old log.old result cells.new log.new }
{
    if cells.len() <= FEW {
        return table::among::<FEW>(words);
    }
    if words.len() < SHORT {
        return marks::greatest(words, cells, log);
    }
    if cells.len() <= MANY || fits(words, MANY) {
        return table::among::<MANY>(words);
    }
    marks::greatest(words, cells, log)
}
