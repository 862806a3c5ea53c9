// The header of a request and of its plan, and the limits. The rest of this crate is theory: the plans of the methods and the laws about them.
// Rests on fields and machine.
#![tactic(auto)]

// The mark of an unreached vertex: the greatest number that SET writes.
pub const FAR: i64 = 549755813887;

// The greatest counts.
pub const MOST_VERTICES: u64 = 32;

pub const MOST_EDGES: u64 = 128;

// The greatest weight; the least of an edge is as far below 0 (document 01: the range of prices).
pub const MOST_WEIGHT: i64 = 100000000;

// The weight that stands for no edge in a table.
pub const NO_EDGE: i64 = -1;

// What is public of a request (document 01, "Request words": method, n yards, m lanes, source).
#[derive(Clone, Copy)]
pub struct Header {
    pub method: u64,
    pub vertices: u64,
    pub edges: u64,
    pub source: u64,
}

// A row of cells: `count` of them, from cell `first` on.
#[derive(Clone, Copy)]
pub struct Span {
    pub first: usize,
    pub count: usize,
}

// The counters of the loops around a line of a plan, the outermost first.
#[derive(Clone, Copy)]
pub struct Counters {
    pub outer: u64,
    pub middle: u64,
    pub inner: u64,
}
