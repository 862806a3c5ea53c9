// A request's words from the bytes that a program read: eight bytes a word, most significant first.
// Rests on printing for what bytes make.
#![tactic(auto)]

ghost use Rattle.std.specs.Prelude.{◌≡◌, ◌+◌, ◌≤◌, length};
ghost use Rattle.lists.specs.Buffers.{overwritten};
ghost use Rattle.printing.specs.Bytes.{joined_from, whole_count, whole_words, handed_over};

// The longest request and one word more.
const WORDS: usize = 1026;

// The word of the eight bytes from place `at` on, most significant first.
fn join_bytes(bytes: &[u8], at: usize) -> u64
    requires { at + 8 ≤ length bytes.now }
    ensures { result ≡ joined_from bytes.now at 8 }
{
    let mut eight = [0u8; 8];
    eight.copy_from_slice(&bytes[at..at + 8]);
    u64::from_be_bytes(eight)
}

// How many whole words bytes of this number have, of those that are read.
fn whole_count(size: usize) -> usize
    ensures { result ≡ whole_count size }
{
    (size / 8).min(WORDS)
}

// How many words they count as.
#[tactic(auto, unfolding(printing::specs::Bytes::handed_over))]
pub fn handed_over(size: usize) -> usize
    ensures { result ≡ handed_over size }
{
    if size < 8 {
        return 0;
    }
    let whole = size % 8 == 0;
    if whole {
        return whole_count(size);
    }
    WORDS
}

// The whole words, written to the start of `words`.
pub fn to_words(bytes: &[u8], words: &mut [u64])
    requires { whole_count (length bytes.now) ≤ length words.old }
    ensures { words.new ≡ overwritten (whole_words bytes.now) words.old }
{
    let count = whole_count(bytes.len());
    // A place among the bytes, as in the definition; a chunk of eight would have to be found to be those at its place.
    for (k, word) in words[..count].iter_mut().enumerate() {
        *word = join_bytes(bytes, 8 * k);
    }
}
