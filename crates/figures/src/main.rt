// Larger networks through the engine: 32 yards in every method, 60 lanes in methods 1 and 4, 128 in method 3, 59 in method 5, and the figures of
// their runs.
// Rests on engine, listings and replies; tests/model has the same networks, and expects the same figures.
#![tactic(auto)]

ghost use Rattle.std.specs.Prelude.{◌≡◌, List, ℕ, ◌^◌, ◌<◌, ◌≤◌, length};
ghost use Rattle.plans.specs.Plan.{Accepted};
ghost use Rattle.engine.specs.Answer.{told_by_run};
ghost use Rattle.text.specs.Appended.{Room, Appended};

use engine::{Failure, Report};
use headers::AcceptedHeader;
use plans::Header;
use text::Text;

// -1 in the 32 bits of a price; in a table it says that there is no lane.
const MINUS_ONE: u64 = 4294967295;

// The checksum's modulus, a prime.
const MODULUS: u64 = 1000000007;

// The networks, by what they are there for.
#[derive(Clone, Copy)]
enum Case {
    // A chain against the order of its lanes, then lanes anywhere: rebates, and many passes that change something.
    Chain,
    // One circle through every yard, of total -1, which the lane of this number closes.
    Circle(u64),
    // Circles of price 0, ties, and unreached yards full of rebates.
    Ties,
    // A table with a price for about one entry in eight, and yards that are never entered.
    Sparse,
    // A table with a price for every entry, dear for long lanes.
    Dense,
    // A circle through all yards and three lanes more to each, sorted: no loss, and many passes that change something.
    SortedChain,
    // That circle with a loss of 1, sorted.
    SortedCircle,
    // As Ties, sorted; to four of the unreached yards there is no lane.
    SortedTies,
    // One circle through every yard but 0, of total -1. No lane leads from yard 0 or to it.
    Apart,
}

// Where the draws stand.
#[derive(Clone, Copy)]
struct Draws {
    x: u64,
    ghost small: { x < 2 ^ 31 },
}

impl Draws {
    // The next draw, a number below `k`.
    fn below(&mut self, k: u64) -> u64
        requires { 0 < k }
        ensures { result < k }
    {
        self.x = (self.x * 1103515245 + 12345) % 2147483648;
        self.x / 65536 % k
    }
}

// Yards are below 32 and lanes' numbers below 128, said where they are taken: a type for either would be taken apart at once.

// The word of a lane, its price as 32 bits.
fn lane(from: u64, to: u64, price: u64) -> u64
    requires { (from < 32) × (to < 32) × (price < 2 ^ 32) }
{
    fields::join(fields::join(from, to, 8), price, 48)
}

// The price whose 32 bits are `base`, raised by the way up from height `low` to height `high`. Heights cancel out on closed walks.
fn raised(base: u64, low: u64, high: u64) -> u64
    requires { (base < 2 ^ 32) × (low < 2 ^ 32) × (high < 2 ^ 32) }
    ensures { result < 2 ^ 32 }
{
    (4294967296 + base + high - low) % 4294967296
}

// The height of a yard in the first two cases.
fn steep(v: u64) -> u64
    requires { v < 32 }
    ensures { result < 1009 }
{
    (373 * v + 500) % 1009
}

// The height of a yard in the third case, the same for every three yards.
fn stepped(v: u64) -> u64
    requires { v < 32 }
    ensures { result < 11 }
{
    v / 3 * 7 % 11
}

// A lane between steep heights.
fn climb(from: u64, to: u64, base: u64) -> u64
    requires { (from < 32) × (to < 32) × (base < 2 ^ 32) }
{
    lane(from, to, raised(base, steep(from), steep(to)))
}

// A climb between any two yards from yard `first` on, its base at least `least`.
fn anywhere(draws: &mut Draws, first: u64, least: u64) -> u64
    requires { (first < 2) × (least < 2) }
{
    let from = first + draws.below(32 - first);
    let to = first + draws.below(32 - first);
    climb(from, to, least + draws.below(400))
}

// Lane `i` of the chain's request. No base is negative, so no circle has a loss.
fn chain(draws: &mut Draws, i: u64) -> u64 {
    if i < 31 {
        return climb(30 - i, 31 - i, draws.below(30));
    }
    anywhere(draws, 0, 0)
}

// Lane `i` of the request with a circle from yard `first` on. Only the circle that the last lane closes has a loss: lanes anywhere have a base of
// 1 or more.
fn circle(draws: &mut Draws, i: u64, first: u64, last: u64) -> u64
    requires { first < 2 }
{
    if i < 31 - first {
        return climb(30 - i, 31 - i, 0);
    }
    if i < last {
        return anywhere(draws, first, 1);
    }
    climb(31, first, MINUS_ONE)
}

// Lane `i` of the ties' request. The first twelve go round by threes on one height, so their price is 0; the yards from 24 on are entered
// from there only.
fn ties(draws: &mut Draws, i: u64) -> u64 {
    if i < 12 {
        return lane(i, i / 3 * 3 + (i + 1) % 3, 0);
    }
    let from = draws.below(32);
    if from < 24 {
        let to = draws.below(24);
        return lane(from, to, raised(draws.below(3), stepped(from), stepped(to)));
    }
    let to = draws.below(32);
    lane(from, to, MINUS_ONE - draws.below(3))
}

// Entry `i` of the sparse table, by rows. The yards from 28 on are entered from there only.
fn sparse(draws: &mut Draws, i: u64) -> u64 {
    let entry = draws.below(8);
    let price = draws.below(1000);
    if entry == 0 && (28 <= i / 32 || i % 32 < 28) {
        return price;
    }
    MINUS_ONE
}

// Entry `i` of the dense table, by rows.
fn dense(draws: &mut Draws, i: u64) -> u64
    requires { i < 1024 }
{
    let gap = (i / 32).abs_diff(i % 32);
    gap * gap + draws.below(4)
}

// Lane `i` of the sorted chain's request: four to each yard, the first of them from the yard before it.
fn sorted_chain(draws: &mut Draws, i: u64) -> u64
    requires { i < 128 }
{
    let to = i / 4;
    if i % 4 == 0 {
        return climb((to + 31) % 32, to, draws.below(30));
    }
    let from = draws.below(32);
    climb(from, to, 100 + draws.below(400))
}

// Lane `i` of the sorted circle's request. Lane 0 closes the circle; lanes anywhere have a base of 1 or more.
fn sorted_circle(draws: &mut Draws, i: u64) -> u64
    requires { i < 128 }
{
    let to = i / 4;
    if i == 0 {
        return climb(31, 0, MINUS_ONE);
    }
    if i % 4 == 0 {
        return climb(to - 1, to, 0);
    }
    let from = draws.below(32);
    climb(from, to, 1 + draws.below(400))
}

// Lane `i` of the sorted ties' request.
fn sorted_ties(draws: &mut Draws, i: u64) -> u64
    requires { i < 128 }
{
    if 96 <= i {
        let from = 24 + draws.below(8);
        return lane(from, 24 + (i - 96) / 8 * 2, MINUS_ONE - draws.below(3));
    }
    let to = i / 4;
    if i % 4 == 0 {
        return lane(to / 3 * 3 + (to + 2) % 3, to, 0);
    }
    let from = draws.below(32);
    if from < 24 {
        return lane(from, to, raised(draws.below(3), stepped(from), stepped(to)));
    }
    lane(from, to, MINUS_ONE - draws.below(3))
}

// Word `i` of a case's request, counted after the header.
fn word_of(case: Case, draws: &mut Draws, i: u64) -> u64
    requires { i < 1024 }
{
    // A `match`: the arms are calls with arguments of their own. A sorted case has 128 lanes.
    match case {
        Case::Chain => chain(draws, i),
        Case::Circle(last) => circle(draws, i, 0, last),
        Case::Ties => ties(draws, i),
        Case::Sparse => sparse(draws, i),
        Case::Dense => dense(draws, i),
        Case::SortedChain => sorted_chain(draws, i % 128),
        Case::SortedCircle => sorted_circle(draws, i % 128),
        Case::SortedTies => sorted_ties(draws, i % 128),
        Case::Apart => circle(draws, i, 1, 59),
    }
}

// A case's request, as long as what is lent.
fn build(case: Case, seed: u64, header: u64, request: &mut [u64])
    requires { (seed < 2 ^ 31) × (1 ≤ length request.old) × (length request.old ≤ 1025) }
{
    request[0] = header;
    let mut draws = Draws { x: seed };
    for (i, word) in request[1..].iter_mut().enumerate() {
        *word = word_of(case, &mut draws, i as u64);
    }
}

// A checksum over the first `length` words of a log, or over all where there are no more, so that no length is too large.
fn checksum(log: &[u64], length: usize) -> u64 {
    let mut sum: u64 = 0;
    for word in &log[..length.min(log.len())] {
        sum = (sum * 31 + word % MODULUS) % MODULUS;
    }
    sum
}

// `method yards lanes source rounds length verdict checksum`
fn put_figures(text: &mut Text<'_>, h: Header, report: Report, log: &[u64])
    requires { Room 168 text.old }
    ensures { (figures : List ℕ) × Appended 168 figures text.old text.new }
{
    let line = [
        h.method,
        h.vertices,
        h.edges,
        h.source,
        report.rounds,
        report.log_length as u64,
        report.verdict,
        checksum(log, report.log_length),
    ];
    text.put_numbers(&line);
}

// A run's figures and, where there are results, its rows and its route.
fn put_run(
    text: &mut Text<'_>,
    h: Header,
    answer: Result<Report, Failure>,
    log: &[u64],
    distances: &[i64; 1024],
    parents: &[i64; 32],
    route: &[i64; 31],
)
    requires { Room 67416 text.old × ((told_by_run answer).number ≡ 0 → Accepted h) }
    ensures { (printed : List ℕ) × Appended 67416 printed text.old text.new }
{
    match answer {
        Ok(report) => {
            put_figures(text, h, report, log);
            listings::put_rows(text, true, AcceptedHeader { header: h }, distances, parents);
            listings::put_route(text, h, route);
        }
        Err(Failure::NegativeCycle(report)) => put_figures(text, h, report, log),
        Err(Failure::Refused(_)) => text.put_bytes(b"refused\n"),
    }
}

// Runs a request and prints that. Of these, method 3 needs the most cells, and method 1 the longest log. What `console::Desk` lends is smaller,
// and its text another, so the five arrays are made here too.
fn show(rt: &impl Print, request: &[u64])
    requires { 1 ≤ length request.now }
{
    let h = headers::read_header(request[0]);
    let mut cells = [0i64; 8874];
    let mut log = [0u64; 497321];
    let mut distances = [0i64; 1024];
    let mut parents = [0i64; 32];
    let mut route = [0i64; 31];
    let answer = engine::run(
        request,
        &mut cells,
        &mut log,
        &mut distances,
        &mut parents,
        &mut route,
    );
    let mut buffer = [0u8; 67416];
    let mut text = Text::new(&mut buffer);
    put_run(&mut text, h, answer, &log, &distances, &parents, &route);
    let size = text.len();
    let _ = rt.write_all(&buffer[..size]);
}

// A case's request of method 5, run: the destination takes the place of the last word built.
fn show_route(
    rt: &impl Print,
    case: Case,
    seed: u64,
    header: u64,
    destination: u64,
    request: &mut [u64],
)
    requires { (seed < 2 ^ 31) × (1 ≤ length request.old) × (length request.old ≤ 1025) }
{
    build(case, seed, header, request);
    let last = request.len() - 1;
    request[last] = destination;
    show(rt, request);
}

fn main(rt: HostRuntime) {
    let mut lanes = [0u64; 61];
    build(Case::Chain, 252, 0x1000200003C00000, &mut lanes);
    show(&rt, &lanes);
    build(Case::Circle(59), 2, 0x1000200003C00000, &mut lanes);
    show(&rt, &lanes);
    build(Case::Ties, 110, 0x1000200003C00005, &mut lanes);
    show(&rt, &lanes);
    let mut table = [0u64; 1025];
    build(Case::Sparse, 4, 0x2000200000000000, &mut table);
    show(&rt, &table);
    build(Case::Dense, 5, 0x200020000000001F, &mut table);
    show(&rt, &table);
    let mut sorted = [0u64; 129];
    build(Case::SortedChain, 577, 0x3000200008000000, &mut sorted);
    show(&rt, &sorted);
    build(Case::SortedCircle, 2, 0x3000200008000000, &mut sorted);
    show(&rt, &sorted);
    build(Case::SortedTies, 282, 0x3000200008000005, &mut sorted);
    show(&rt, &sorted);
    show_route(&rt, Case::Chain, 1000, 0x5000200003B00000, 31, &mut lanes);
    show_route(&rt, Case::Circle(58), 2, 0x5000200003B00000, 31, &mut lanes);
    show_route(&rt, Case::Ties, 940, 0x5000200003B00005, 10, &mut lanes);
    build(Case::Chain, 1000, 0x4000200003C00000, &mut lanes);
    show(&rt, &lanes);
    build(Case::Apart, 7, 0x4000200003C00000, &mut lanes);
    show(&rt, &lanes);
}
