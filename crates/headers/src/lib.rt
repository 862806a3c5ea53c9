// A header: taken apart, refused or accepted, and the figures that follow from it, by its method.
// Rests on answers, ops and plans.
#![tactic(auto)]

mod accepted;
mod method1;
mod method2;
mod method3;
mod method4;
mod method5;

ghost use Rattle.std.specs.Prelude.{◌≡◌, IfOk};
ghost use Rattle.plans.specs.Limits.{most_edges, source_count};
ghost use Rattle.plans.specs.Plan.{header_of};
ghost use Rattle.answers.specs.Refusal.{found};
ghost use Rattle.headers.specs.Method.{number_of, Numbered};
ghost use Rattle.headers.specs.Refusal.{header_refusal};
ghost use Rattle.headers.specs.Figures.{Figured};

pub use accepted::AcceptedHeader;
use answers::Refusal;
use plans::{Header, Span};

// The methods (document 01, and asks 3, 5 and 8): what a header's method number stands for. What differs by method is a `match` on them, each arm a
// function for headers of that method: a closure, a trait or a type for each would say the same five times over.
#[derive(Clone, Copy, PartialEq, Eq)]
pub enum Method {
    BellmanFord,
    Dijkstra,
    Jacobi,
    FloydWarshall,
    Routed,
}

impl TryFrom<u64> for Method {
    type Error = Refusal;

    ghost try_from_gives = { Numbered };

    fn try_from(number: u64) -> Result<Self, Refusal> {
        match number {
            1 => Ok(Method::BellmanFord),
            2 => Ok(Method::Dijkstra),
            3 => Ok(Method::Jacobi),
            4 => Ok(Method::FloydWarshall),
            5 => Ok(Method::Routed),
            _ => Err(Refusal::Method),
        }
    }
}

// What follows from a header: the words after it, the plan's cells and words (the header word among them), the cell that its last word opens,
// where there is one, and the cells that results are copied from.
#[derive(Clone, Copy)]
pub struct Figures {
    pub words: usize,
    pub cells: usize,
    pub length: usize,
    pub verdict: Option<usize>,
    pub distances: Span,
    pub parents: Span,
    pub route: Span,
}

// The cells of a kind of results that a method does not give. No Option: 0 places are asked for, and 0 cells copied.
const NONE_GIVEN: Span = Span { first: 0, count: 0 };

// A header word taken apart.
pub fn read_header(word: u64) -> Header
    ensures { result ≡ header_of word }
{
    let w = ops::split(word);
    Header {
        method: w.op,
        vertices: w.d,
        edges: w.a,
        source: w.b,
    }
}

fn most_edges(method: Method) -> u64
    ensures { result ≡ most_edges (number_of method) }
{
    match method {
        Method::Dijkstra => 0,
        _ => plans::MOST_EDGES,
    }
}

// How many sources a header may name, of n vertices; method 4 has them all, and names 0.
fn source_count(method: Method, n: u64) -> u64
    ensures { result ≡ source_count (number_of method) n }
{
    match method {
        Method::FloydWarshall => 1,
        _ => n,
    }
}

// Refusals 1 to 4, or the header as one that is accepted.
pub fn check_header(h: Header) -> Result<AcceptedHeader, Refusal>
    ensures { (found result ≡ header_refusal h) × IfOk result (λ accepted. accepted.header ≡ h) }
{
    let method = Method::try_from(h.method)?;
    if h.vertices < 1 || plans::MOST_VERTICES < h.vertices {
        return Err(Refusal::Vertices);
    }
    if most_edges(method) < h.edges {
        return Err(Refusal::Edges);
    }
    if source_count(method, h.vertices) <= h.source {
        return Err(Refusal::Source);
    }
    Ok(AcceptedHeader { header: h })
}

// An accepted header's method is one of the five. It is no field of the header's type: those that make the type from a header which a run has
// accepted (replies, figures) would have to find it there.
pub fn method_of(h: AcceptedHeader) -> Method
    ensures { number_of result ≡ h.header.method }
{
    Method::try_from(h.header.method).unwrap()
}

// Of the header's method.
pub fn figures_of(h: AcceptedHeader) -> Figures
    ensures { Figured h.header result }
{
    match method_of(h) {
        Method::BellmanFord => method1::figures(h),
        Method::Dijkstra => method2::figures(h),
        Method::Jacobi => method3::figures(h),
        Method::FloydWarshall => method4::figures(h),
        Method::Routed => method5::figures(h),
    }
}
