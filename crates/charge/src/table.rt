// The greatest depth of words, with the cells' depths in a local table.
// Rests on deepening and ops.
ghost use Rattle.std.specs.Prelude.{◌≡◌, ◌^◌, ◌<◌, ◌≤◌, T, length};
ghost use Rattle.machine.specs.Word.{admissible};
ghost use Rattle.machine.specs.Log.{Admitted};
ghost use Rattle.machine.specs.Depth.{depth_of};
ghost use Rattle.deepening.specs.Word.{Deepens, NoDeeper};
ghost use Rattle.charge.specs.Table.{depths_in};

use deepening::{Column, Depths};
use ops::{Op, Operation};

// The cells of a table: of one that is cleared in no time, and of one that every method's plan keeps to. 2 and 64 KiB.
pub const FEW: usize = 512;

pub const MANY: usize = 16384;

// The depths of so many cells.
#[derive(Drop)]
struct Table<const CELLS: usize> {
    depths: [u32; CELLS],
}

impl<const CELLS: usize> Depths for Table<CELLS> {
    ghost count = { λ _. CELLS };

    ghost depths = { λ t. depths_in t.depths };

    fn at(&self, a: u64) -> u64 {
        u64::from(self.depths[a as usize])
    }
}

impl<const CELLS: usize> Table<CELLS> {
    // The depth of a word, which the cell that the word writes takes.
    // A twin of that of marks, which says why they are two.
    fn deepen(&mut self, column: &Column, word: u64) -> u64
        requires { T (admissible CELLS word) × NoDeeper (2 ^ 31) (depths_in self.old.depths) }
        ensures { Deepens word (depths_in self.old.depths) result (depths_in self.new.depths) }
    {
        let w = Operation::of(word);
        let depth = deepening::depth_of(column, w, self);
        if let Op::Open = w.op {
            return depth;
        }
        self.depths[w.d as usize] = depth as u32;
        depth
    }

    // The greatest of all words, from depths that are 0.
    fn deepen_all(&mut self, words: &[u64]) -> u64
        requires { Admitted CELLS words.now × (length words.now ≤ 2 ^ 24) × NoDeeper 0 (depths_in self.old.depths) }
        ensures { result ≡ depth_of words.now }
    {
        let column = Column::new();
        let mut rounds: u64 = 0;
        for word in words {
            rounds = rounds.max(self.deepen(&column, *word));
        }
        rounds
    }
}

// The greatest depth of words on so many cells.
pub fn among<const CELLS: usize>(words: &[u64]) -> u64
    requires { (CELLS ≤ 2 ^ 20) × Admitted CELLS words.now × (length words.now ≤ 2 ^ 24) }
    ensures { result ≡ depth_of words.now }
{
    let mut table = Table::<CELLS> { depths: [0; CELLS] };
    table.deepen_all(words)
}
