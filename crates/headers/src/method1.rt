// Method 1: its figures.
// Rests on accepted headers.
ghost use Rattle.std.specs.Prelude.{◌≡◌};
ghost use Rattle.headers.specs.Figures.{figures_of};

use crate::{AcceptedHeader, Figures, NONE_GIVEN};
use plans::Span;

pub fn figures(h: AcceptedHeader) -> Figures
    requires { h.header.method ≡ 1 }
    ensures { result ≡ figures_of h.header }
{
    let n = h.header.vertices as usize;
    let m = h.header.edges as usize;
    let d = 3 * m;
    let x = d + 3 * n;
    Figures {
        words: m,
        cells: x + 8,
        length: 3 * n + 4 + m * (8 * (n * n) + 3 * n - 1),
        verdict: Some(x + 7),
        distances: Span { first: d, count: n },
        parents: Span {
            first: d + n,
            count: n,
        },
        route: NONE_GIVEN,
    }
}
