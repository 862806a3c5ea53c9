// The desk's program and `host_log` but for what they read from and write to: from an argument and a request's bytes to the text of its answer, or of
// its log.
// Rests on input, engine, printing and replies.
#![tactic(auto)]

mod reading;

ghost use Rattle.std.specs.Prelude.{◌≡◌};
ghost use Rattle.limits.specs.WithinLimits.{header_in};
ghost use Rattle.plans.specs.Plan.{by_kind};
ghost use Rattle.demands.specs.Run.{outcome};
ghost use Rattle.engine.specs.Answer.{Met};
ghost use Rattle.printing.specs.Bytes.{request_of};
ghost use Rattle.printing.specs.Desk.{desk_lent, desk_text, host_text};
ghost use Rattle.console.specs.Lent.{lent_by};
ghost use Rattle.console.specs.Printed.{Printed};

use engine::{Failure, Report};
use plans::Header;
pub use reading::read_full;
use text::Text;

// A request's answer, and its header.
#[derive(Clone, Copy)]
struct Served {
    header: Header,
    answer: Result<Report, Failure>,
}

// What a run is lent.
#[derive(Drop)]
struct Desk {
    cells: [i64; 1190],
    log: [u64; 8192],
    distances: [i64; 1024],
    parents: [i64; 32],
    route: [i64; 31],
}

impl Desk {
    fn new() -> Desk
        ensures { lent_by result ≡ desk_lent }
    {
        Desk {
            cells: [0; 1190],
            log: [0; 8192],
            distances: [0; 1024],
            parents: [0; 32],
            route: [0; 31],
        }
    }

    // The request that bytes make, run.
    fn run(&mut self, bytes: &[u8]) -> Served
        ensures { (result.header ≡ header_in (request_of bytes.now)) × Met (outcome (request_of bytes.now) (lent_by self.old)) result.answer self.new.cells self.new.log (by_kind self.new.distances self.new.parents self.new.route) }
    {
        let mut words = [0u64; 1026];
        input::to_words(bytes, &mut words);
        let count = input::handed_over(bytes.len());
        let answer = engine::run(
            &words[..count],
            &mut self.cells,
            &mut self.log,
            &mut self.distances,
            &mut self.parents,
            &mut self.route,
        );
        let header = headers::read_header(words[0]);
        Served { header, answer }
    }
}

// What the desk's program prints for its first argument, empty where there is none, and the bytes that it read, from the start of `text`; the
// text's length is returned.
pub fn desk_text(argument: &[u8], bytes: &[u8], text: &mut [u8; 67374]) -> usize
    ensures { Printed (desk_text argument.now bytes.now) text.old text.new result }
{
    let all = text::same(argument, b"all");
    let mut desk = Desk::new();
    let served = desk.run(bytes);
    let mut printed = Text::new(text);
    replies::put_answer(
        &mut printed,
        all,
        served.header,
        served.answer,
        &desk.distances,
        &desk.parents,
        &desk.route,
    );
    printed.len()
}

// What `host_log` prints for the bytes that it read: the log that the host has of the run.
pub fn host_text(bytes: &[u8], text: &mut [u8; 139264]) -> usize
    ensures { Printed (host_text bytes.now) text.old text.new result }
{
    let mut desk = Desk::new();
    let served = desk.run(bytes);
    let mut printed = Text::new(text);
    replies::put_log(&mut printed, served.answer, &desk.log);
    printed.len()
}
