// The rounds of a header's plan, by its method.
// Rests on headers, for accepted ones, the methods and how large the figures get, and on plans.
#![tactic(auto)]

ghost use Rattle.std.specs.Prelude.{◌≡◌};
ghost use Rattle.plans.specs.Plan.{rounds_of_plan};

use headers::{AcceptedHeader, Method};

fn method1(h: AcceptedHeader) -> u64
    requires { h.header.method ≡ 1 }
    ensures { result ≡ rounds_of_plan h.header }
{
    let n = h.header.vertices;
    let m = h.header.edges;
    if m == 0 {
        return 2;
    }
    m * (n * n + 9 * n - 9) + n + 16
}

fn method2(h: AcceptedHeader) -> u64
    requires { h.header.method ≡ 2 }
    ensures { result ≡ rounds_of_plan h.header }
{
    let n = h.header.vertices;
    9 * (n * n) + 13 * n + 1
}

fn method3(h: AcceptedHeader) -> u64
    requires { h.header.method ≡ 3 }
    ensures { result ≡ rounds_of_plan h.header }
{
    let n = h.header.vertices;
    let m = h.header.edges;
    if m == 0 {
        return 8 * n + 1;
    }
    9 * (n * m) + n * n + 8 * n + 7
}

fn method4(h: AcceptedHeader) -> u64
    requires { h.header.method ≡ 4 }
    ensures { result ≡ rounds_of_plan h.header }
{
    let n = h.header.vertices;
    let m = h.header.edges;
    if m == 0 {
        return 7 * n + 9;
    }
    7 * n + 7 * m + 16
}

fn method5(h: AcceptedHeader) -> u64
    requires { h.header.method ≡ 5 }
    ensures { result ≡ rounds_of_plan h.header }
{
    let n = h.header.vertices;
    let m = h.header.edges;
    if m == 0 {
        return u64::max(2, n * n + 5 * n - 5);
    }
    m * ((n - 1) * (n + 9)) + u64::max(m * n + n + 16, m + n * n + 5 * n + 1)
}

// The rounds of the header's plan, and so of every run of it: a `match` and functions for headers of a method, as `headers::Method` says.
pub fn rounds_of(h: AcceptedHeader) -> u64
    ensures { result ≡ rounds_of_plan h.header }
{
    match headers::method_of(h) {
        Method::BellmanFord => method1(h),
        Method::Dijkstra => method2(h),
        Method::Jacobi => method3(h),
        Method::FloydWarshall => method4(h),
        Method::Routed => method5(h),
    }
}
