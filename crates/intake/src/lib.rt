// Intake: a request's words laid into cells, by strips that follow from the header.
// Rests on headers, requests, plans and fields.
#![tactic(auto)]

ghost use Rattle.std.specs.Prelude.{◌≡◌, [], ◌∷◌, ◌++◌, ◌≤◌, pos, length, drop};
ghost use Rattle.std.proofs.lemmas.List.Edits.{sets};
ghost use Rattle.plans.specs.Plan.{word_count_of, cells_of};
ghost use Rattle.intake.specs.Intake.{strip, edge_strips, strips_of, part_of, copied, starting_cells, strip_numbers, StripFits, padded};

use headers::{AcceptedHeader, Method};

// A field of a word. Entry is method 2's weight, -1 as FAR; Whole, all 64 bits, is method 5's destination.
#[derive(Clone, Copy)]
pub enum Part {
    From,
    To,
    Weight,
    Entry,
    Whole,
}

// `count` cells from `at` on, each with one part of one word, of the words from `word` on.
#[derive(Clone, Copy)]
pub struct Strip {
    pub at: usize,
    pub count: usize,
    pub word: usize,
    pub part: Part,
}

impl Strip {
    fn new(at: usize, count: usize, word: usize, part: Part) -> Strip
        ensures { result ≡ strip at count word part }
    {
        Strip {
            at,
            count,
            word,
            part,
        }
    }
}

// The strips of m edges: from-vertices from cell 0 on, to-vertices and weights from these; and one more.
fn edge_strips(m: usize, to: usize, weight: usize, last: Strip) -> [Strip; 4]
    ensures { result ≡ edge_strips m to weight ++ (last ∷ []) }
{
    [
        Strip::new(0, m, 0, Part::From),
        Strip::new(to, m, 0, Part::To),
        Strip::new(weight, m, 0, Part::Weight),
        last,
    ]
}

// The strips of the header's method (a `match`, as `headers::Method` says), then empty ones: an array, since nothing is allocated, and of one
// length, so that one loop lays them.
fn strips_of(h: AcceptedHeader) -> [Strip; 4]
    ensures { result ≡ padded (strips_of h.header) }
{
    let n = h.header.vertices as usize;
    let m = h.header.edges as usize;
    let empty = Strip::new(0, 0, 0, Part::From);
    match headers::method_of(h) {
        Method::BellmanFord => edge_strips(m, m, 2 * m, empty),
        Method::Dijkstra => [Strip::new(0, n * n, 0, Part::Entry), empty, empty, empty],
        Method::Jacobi => edge_strips(m, m + 1, 2 * m + 1, empty),
        Method::FloydWarshall => edge_strips(m, m, 2 * m, empty),
        Method::Routed => edge_strips(
            m,
            m,
            2 * m,
            Strip::new(3 * m + 3 * n + 8, 1, m, Part::Whole),
        ),
    }
}

// A number from a word. A `match`: a function for each part would be a line and a contract more.
fn part_of(part: Part, word: u64) -> i64
    ensures { result ≡ part_of part word }
{
    match part {
        Part::From => fields::field(word, 56, 8) as i64,
        Part::To => fields::field(word, 48, 8) as i64,
        Part::Weight => requests::weight(word),
        Part::Entry => {
            let value = requests::weight(word);
            if value == plans::NO_EDGE {
                plans::FAR
            } else {
                value
            }
        }
        Part::Whole => word.cast_signed(),
    }
}

// A strip laid, from the words after the header.
fn lay_strip(strip: Strip, words: &[u64], cells: &mut [i64])
    requires { StripFits (length words.now) (length cells.old) strip }
    ensures { cells.new ≡ sets cells.old strip.at (strip_numbers strip words.now) }
{
    for i in 0..strip.count {
        cells[strip.at + i] = part_of(strip.part, words[strip.word + i]);
    }
}

// The first `count` cells at 0. A count beside the cells, as the definition has it, here and in a strip.
fn clear(count: usize, cells: &mut [i64])
    requires { count ≤ length cells.old }
    ensures { cells.new ≡ copied count (λ k. pos 0) cells.old }
{
    cells[..count].fill(0);
}

// The needed cells laid, from the words after the header; the others stay.
fn lay_words(h: AcceptedHeader, words: &[u64], cells: &mut [i64])
    requires { (length words.now ≡ word_count_of h.header) × (cells_of h.header ≤ length cells.old) }
    ensures { cells.new ≡ starting_cells h.header words.now cells.old }
{
    let f = headers::figures_of(h);
    clear(f.cells, cells);
    let strips = strips_of(h);
    for strip in &strips {
        lay_strip(*strip, words, cells);
    }
}

// The same from a request.
pub fn lay(h: AcceptedHeader, request: &[u64], cells: &mut [i64])
    requires { (length (drop 1 request.now) ≡ word_count_of h.header) × (cells_of h.header ≤ length cells.old) }
    ensures { cells.new ≡ starting_cells h.header (drop 1 request.now) cells.old }
{
    match request {
        [_, words @ ..] => lay_words(h, words, cells),
        [] => lay_words(h, &[], cells),
    }
}
