// Method 5: its figures.
// Rests on accepted headers.
ghost use Rattle.std.specs.Prelude.{◌≡◌};
ghost use Rattle.headers.specs.Figures.{figures_of};

use crate::{AcceptedHeader, Figures};
use plans::Span;

pub fn figures(h: AcceptedHeader) -> Figures
    requires { h.header.method ≡ 5 }
    ensures { result ≡ figures_of h.header }
{
    let n = h.header.vertices as usize;
    let m = h.header.edges as usize;
    let d = 3 * m;
    Figures {
        words: m + 1,
        cells: d + 5 * n + 8,
        length: 3 * (n * n) + 2 * n + 4 + m * (8 * (n * n) + 5 * n),
        verdict: Some(d + 3 * n + 7),
        distances: Span { first: d, count: n },
        parents: Span {
            first: d + n,
            count: n,
        },
        route: Span {
            first: d + 4 * n + 9,
            count: n - 1,
        },
    }
}
