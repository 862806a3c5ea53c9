// Method 2: its figures.
// Rests on accepted headers.
ghost use Rattle.std.specs.Prelude.{◌≡◌};
ghost use Rattle.headers.specs.Figures.{figures_of};

use crate::{AcceptedHeader, Figures, NONE_GIVEN};
use plans::Span;

pub fn figures(h: AcceptedHeader) -> Figures
    requires { h.header.method ≡ 2 }
    ensures { result ≡ figures_of h.header }
{
    let n = h.header.vertices as usize;
    let d = n * n;
    Figures {
        words: d,
        cells: d + 5 * n + 6,
        length: d * n + 11 * d + 6 * n + 3,
        verdict: None,
        distances: Span { first: d, count: n },
        parents: Span {
            first: d + n,
            count: n,
        },
        route: NONE_GIVEN,
    }
}
