// Theory, with the lengths of buffers: the limits of a request, each with its number, and which refusal a request meets.
// Rests on answers, headers and plans.
#![tactic(auto)]

// Lengths of a request's buffers, lent or asked for: cells, words of the log, and places of the results buffers, kind by kind.
#[derive(Clone, Copy)]
pub struct Lengths {
    pub cells: usize,
    pub log: usize,
    pub distances: usize,
    pub parents: usize,
    pub route: usize,
}
