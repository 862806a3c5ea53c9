// Method 3: its figures.
// Rests on accepted headers.
ghost use Rattle.std.specs.Prelude.{◌≡◌};
ghost use Rattle.headers.specs.Figures.{figures_of};

use crate::{AcceptedHeader, Figures, NONE_GIVEN};
use plans::Span;

pub fn figures(h: AcceptedHeader) -> Figures
    requires { h.header.method ≡ 3 }
    ensures { result ≡ figures_of h.header }
{
    let n = h.header.vertices as usize;
    let m = h.header.edges as usize;
    let d = 3 * m + 1;
    Figures {
        words: m,
        cells: 2 * (n * m) + 4 * m + 5 * n + 10,
        length: 3 * (n * n) + 3 * n + 5 + m * (3 * (n * n) + 10 * n - 1),
        verdict: Some(d + 5 * n + 8),
        distances: Span { first: d, count: n },
        parents: Span {
            first: d + n,
            count: n,
        },
        route: NONE_GIVEN,
    }
}
