// Answers in document 01's terms: the refusals, each with its number and, where there is one, its place.
// Rests on nothing.
#![tactic(auto)]

ghost use Rattle.std.specs.Prelude.{◌≡◌};
ghost use Rattle.answers.specs.Refusal.{rule_of, place_of, option_of};

// Why a request, a plan or a buffer is refused (document 01, "Who caused it"), by what is at fault; those that are about one word have its place.
// 12 comes with a run's own answer, so it is not among them.
#[derive(Clone, Copy, PartialEq, Eq)]
pub enum Refusal {
    Method,
    Vertices,
    Edges,
    Source,
    Words,
    Cells,
    Log,
    Results,
    Operation(usize),
    SpareBits(usize),
    Weight(usize),
    FromVertex(usize),
    ToVertex(usize),
    Unsorted(usize),
    Destination,
}

impl Refusal {
    pub fn number(self) -> u64
        ensures { result ≡ (rule_of self).number }
    {
        match self {
            Refusal::Method => 1,
            Refusal::Vertices => 2,
            Refusal::Edges => 3,
            Refusal::Source => 4,
            Refusal::Words => 5,
            Refusal::Cells => 6,
            Refusal::Log => 7,
            Refusal::Results => 8,
            Refusal::Operation(_) => 9,
            Refusal::SpareBits(_) => 10,
            Refusal::Weight(_) => 11,
            Refusal::FromVertex(_) => 13,
            Refusal::ToVertex(_) => 14,
            Refusal::Unsorted(_) => 15,
            Refusal::Destination => 16,
        }
    }

    // Its place, where there is one.
    pub fn place(self) -> Option<usize>
        ensures { option_of result ≡ place_of (rule_of self) }
    {
        match self {
            Refusal::Operation(place)
            | Refusal::SpareBits(place)
            | Refusal::Weight(place)
            | Refusal::FromVertex(place)
            | Refusal::ToVertex(place)
            | Refusal::Unsorted(place) => Some(place),
            _ => None,
        }
    }
}
