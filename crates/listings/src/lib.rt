// The lines of a run's results and of its log.
// Rests on lines, printing and text.
#![tactic(auto)]

ghost use Rattle.std.specs.Prelude.{◌≡◌, ◌+◌, ◌*◌, ◌<◌, ◌≤◌, length};
ghost use Rattle.text.specs.Appended.{Room, Appended};
ghost use Rattle.plans.specs.Blocks.{flat};
ghost use Rattle.printing.specs.Texts.{rows_text, steps_text, route_text, words_text};
ghost use Rattle.listings.specs.Rows.{yard_at, pairs_text};

use headers::{AcceptedHeader, Method};
use plans::Header;
use text::Text;

// Five loops of one or two calls each: one loop for all would take a closure, and its contract one of that closure's for each text written.

// A line for each of the first `count` vertices.
fn put_yards(text: &mut Text<'_>, all: bool, count: usize, distances: &[i64], parents: &[i64])
    requires { Room (65 * count) text.old × (count ≤ length distances.now) × (count ≤ length parents.now) }
    ensures { Appended (65 * count) (flat count (yard_at all distances.now parents.now)) text.old text.new }
{
    for v in 0..count {
        lines::put_yard(text, all, v as u64, distances[v], parents[v]);
    }
}

// The row of one source in a table of `n` rows.
fn put_pairs(text: &mut Text<'_>, all: bool, from: usize, n: usize, distances: &[i64])
    requires { Room (65 * n) text.old × (from * n + n ≤ length distances.now) }
    ensures { Appended (65 * n) (pairs_text all n distances.now from) text.old text.new }
{
    let first = from * n;
    for to in 0..n {
        lines::put_pair(text, all, from as u64, to as u64, distances[first + to]);
    }
}

// A row for each of `n` sources.
fn put_table(text: &mut Text<'_>, all: bool, n: usize, distances: &[i64; 1024])
    requires { Room (65 * 1024) text.old × (n ≤ 32) }
    ensures { Appended (65 * 32 * n) (flat n (pairs_text all n distances.now)) text.old text.new }
{
    for from in 0..n {
        put_pairs(text, all, from, n, distances);
    }
}

// The results of a run but its route: in method 4 every pair, in every other method every yard.
pub fn put_rows(
    text: &mut Text<'_>,
    all: bool,
    h: AcceptedHeader,
    distances: &[i64; 1024],
    parents: &[i64; 32],
)
    requires { Room (65 * 1024) text.old }
    ensures { Appended (65 * 1024) (rows_text all h.header distances.now parents.now) text.old text.new }
{
    let n = h.header.vertices as usize;
    let by_pairs = headers::method_of(h) == Method::FloydWarshall;
    if by_pairs {
        put_table(text, all, n, distances);
    } else {
        put_yards(text, all, n, distances, parents);
    }
}

// The first `count` places of a route.
fn put_steps(text: &mut Text<'_>, count: usize, route: &[i64])
    requires { Room (22 * count) text.old × (count ≤ length route.now) }
    ensures { Appended (22 * count) (steps_text count route.now) text.old text.new }
{
    for edge in &route[..count] {
        lines::put_step(text, *edge);
    }
}

// `route` and the edges shown; nothing but in method 5.
pub fn put_route(text: &mut Text<'_>, h: Header, route: &[i64; 31])
    requires { Room 688 text.old × (0 < h.vertices) × (h.vertices ≤ 32) }
    ensures { Appended 688 (route_text h route.now) text.old text.new }
{
    let unrouted = !matches!(Method::try_from(h.method), Ok(Method::Routed));
    if unrouted {
        return;
    }
    text.put_bytes(b"route");
    put_steps(text, h.vertices as usize - 1, route);
    text.put_byte(b'\n');
}

// The first `count` words, a line each. A count beside them, here and above, since the definitions speak of a log's or a result's first ones.
pub fn put_words(text: &mut Text<'_>, words: &[u64], count: usize)
    requires { Room (17 * count) text.old × (count ≤ length words.now) }
    ensures { Appended (17 * count) (words_text count words.now) text.old text.new }
{
    for word in &words[..count] {
        text.put_hex(*word);
        text.put_byte(b'\n');
    }
}
