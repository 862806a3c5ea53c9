// Requests: what a header asks for, and which refusal a request meets.
// Rests on answers, fields, headers, limits and plans.
#![tactic(auto)]

ghost use Rattle.std.specs.Prelude.{◌≡◌, ◌<◌, leb, length, drop, IfOk};
ghost use Rattle.std.proofs.Math.Option.{none};
ghost use Rattle.answers.specs.Refusal.{Weight, need, found};
ghost use Rattle.plans.specs.Plan.{word_count_of, every_kind};
ghost use Rattle.headers.specs.Figures.{Figured};
ghost use Rattle.limits.specs.Word as Word;
ghost use Rattle.limits.specs.Word.{placed_count};
ghost use Rattle.limits.specs.Refusal.{log_length_of, room_for, asked_of, sizes_refusal, in_range, edge_refusal, sorted_refusal, entry_refusal, word_refusal, words_refusal, last_refusal, request_refusal};
ghost use Rattle.limits.specs.Sizes.{sizes_told};
ghost use Rattle.limits.specs.WithinLimits.{header_in};
ghost use Rattle.requests.specs.Sizes.{told_by_sizes};

use answers::Refusal;
use headers::{AcceptedHeader, Figures, Method};
use limits::Lengths;

// ---- sizes that follow from the header

// The words of the log: the plan's and the published one, where there is one.
fn log_length(h: AcceptedHeader, f: Figures) -> usize
    requires { Figured h.header f }
    ensures { result ≡ log_length_of h.header }
{
    match f.verdict {
        Some(_) => f.length + 1,
        None => f.length,
    }
}

// What a header asks for.
fn lengths_of(h: AcceptedHeader, f: Figures) -> Lengths
    requires { Figured h.header f }
    ensures { result ≡ asked_of h.header }
{
    Lengths {
        cells: f.cells,
        log: log_length(h, f),
        distances: f.distances.count,
        parents: f.parents.count,
        route: f.route.count,
    }
}

// The lengths that a header, whose first word alone is looked at, asks for.
pub fn sizes_needed(header: &[u64]) -> Result<Lengths, Refusal>
    ensures { told_by_sizes result ≡ sizes_told header.now }
{
    let [word, ..] = header else {
        return Err(Refusal::Method);
    };
    let h = headers::check_header(headers::read_header(*word))?;
    let f = headers::figures_of(h);
    Ok(lengths_of(h, f))
}

// ---- refusals

// Whether no results buffer is shorter than asked.
fn results_enough(asked: Lengths, lent: Lengths) -> bool
    ensures { result ≡ every_kind (λ k. leb (room_for asked k) (room_for lent k)) }
{
    asked.distances <= lent.distances && asked.parents <= lent.parents && asked.route <= lent.route
}

// 5 to 8.
fn check_sizes(h: AcceptedHeader, words: usize, lent: Lengths) -> Result<(), Refusal>
    ensures { found result ≡ sizes_refusal h.header words lent }
{
    let f = headers::figures_of(h);
    let asked = lengths_of(h, f);
    if words != f.words {
        return Err(Refusal::Words);
    }
    if lent.cells < asked.cells {
        return Err(Refusal::Cells);
    }
    if lent.log < asked.log {
        return Err(Refusal::Log);
    }
    if !results_enough(asked, lent) {
        return Err(Refusal::Results);
    }
    Ok(())
}

// The weight (price) of a word.
pub fn weight(word: u64) -> i64
    ensures { result ≡ Word.weight_of word }
{
    fields::signed(fields::field(word, 0, 32), 32)
}

// 11, of a weight that is to be from `least` to the greatest.
fn check_weight(least: i64, place: usize, word: u64) -> Result<(), Refusal>
    ensures { found result ≡ need (in_range least word) (Weight place) none }
{
    let value = weight(word);
    if value < least || plans::MOST_WEIGHT < value {
        return Err(Refusal::Weight(place));
    }
    Ok(())
}

// An edge of n vertices: 10, 13, 14 and 11.
fn check_edge(n: u64, place: usize, word: u64) -> Result<(), Refusal>
    ensures { found result ≡ edge_refusal n place word }
{
    if fields::field(word, 32, 16) != 0 {
        return Err(Refusal::SpareBits(place));
    }
    if n <= fields::field(word, 56, 8) {
        return Err(Refusal::FromVertex(place));
    }
    if n <= fields::field(word, 48, 8) {
        return Err(Refusal::ToVertex(place));
    }
    check_weight(-plans::MOST_WEIGHT, place, word)
}

// An edge of n vertices that comes after another: 10, 13, 14 and 11, then 15 where it leads to a lower vertex than that one.
fn check_sorted(n: u64, place: usize, before: u64, word: u64) -> Result<(), Refusal>
    ensures { found result ≡ sorted_refusal n place before word }
{
    check_edge(n, place, word)?;
    if fields::field(word, 48, 8) < fields::field(before, 48, 8) {
        return Err(Refusal::Unsorted(place));
    }
    Ok(())
}

// An entry of the table: 10 and 11.
fn check_entry(place: usize, word: u64) -> Result<(), Refusal>
    ensures { found result ≡ entry_refusal place word }
{
    if fields::field(word, 32, 32) != 0 {
        return Err(Refusal::SpareBits(place));
    }
    check_weight(plans::NO_EDGE, place, word)
}

// The word at a place, by the method (a `match`, as `headers::Method` says); `before` is the one before it.
fn check_word(h: AcceptedHeader, place: usize, before: u64, word: u64) -> Result<(), Refusal>
    ensures { found result ≡ word_refusal h.header place before word }
{
    match headers::method_of(h) {
        Method::Dijkstra => check_entry(place, word),
        Method::Jacobi => check_sorted(h.header.vertices, place, before, word),
        _ => check_edge(h.header.vertices, place, word),
    }
}

// Words upward from place 0, without the header. Before the first word stands 0, so that every word has one before it.
fn check_words(h: AcceptedHeader, words: &[u64]) -> Result<(), Refusal>
    ensures { found result ≡ words_refusal h.header 0 0 words.now }
{
    let mut before = 0;
    for (place, word) in words.iter().enumerate() {
        check_word(h, place, before, *word)?;
        before = *word;
    }
    Ok(())
}

// How many words have a place, an edge's or an entry's each, by the method.
fn placed_count(h: AcceptedHeader) -> usize
    ensures { result ≡ placed_count h.header.method h.header.vertices h.header.edges }
{
    match headers::method_of(h) {
        Method::Dijkstra => (h.header.vertices * h.header.vertices) as usize,
        _ => h.header.edges as usize,
    }
}

// 16: method 5's destination, the word after the edges.
fn check_last(h: AcceptedHeader, words: &[u64]) -> Result<(), Refusal>
    requires { length words.now ≡ word_count_of h.header }
    ensures { found result ≡ last_refusal h.header words.now }
{
    let Method::Routed = headers::method_of(h) else {
        return Ok(());
    };
    if h.header.vertices <= words[h.header.edges as usize] {
        return Err(Refusal::Destination);
    }
    Ok(())
}

// The first refusal of a request, by the lengths of the lent buffers, or its header as one that is accepted.
pub fn check(request: &[u64], lent: Lengths) -> Result<AcceptedHeader, Refusal>
    ensures { (found result ≡ request_refusal request.now lent) × IfOk result (λ accepted. accepted.header ≡ header_in request.now) }
{
    let [header, words @ ..] = request else {
        return Err(Refusal::Method);
    };
    let h = headers::check_header(headers::read_header(*header))?;
    check_sizes(h, words.len(), lent)?;
    check_words(h, &words[..placed_count(h)])?;
    check_last(h, words)?;
    Ok(h)
}
