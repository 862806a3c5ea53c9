// Method 4: its figures.
// Rests on accepted headers.
ghost use Rattle.std.specs.Prelude.{◌≡◌};
ghost use Rattle.headers.specs.Figures.{figures_of};

use crate::{AcceptedHeader, Figures, NONE_GIVEN};
use plans::Span;

pub fn figures(h: AcceptedHeader) -> Figures
    requires { h.header.method ≡ 4 }
    ensures { result ≡ figures_of h.header }
{
    let n = h.header.vertices as usize;
    let m = h.header.edges as usize;
    let d = 3 * m;
    let table = n * n;
    Figures {
        words: m,
        cells: d + table + 3 * n + 6,
        length: 3 * (table * n) + 5 * table + 4 * n + 27 + m * (3 * table + 6 * n),
        verdict: Some(d + table + 3 * n + 5),
        distances: Span {
            first: d,
            count: table,
        },
        parents: NONE_GIVEN,
        route: NONE_GIVEN,
    }
}
