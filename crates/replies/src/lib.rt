// The text of an answer, and of a run's log.
// Rests on engine, listings and text.
#![tactic(auto)]

mod failing;

ghost use Rattle.std.specs.Prelude.{◌≡◌, ◌≤◌, Ok, length, get_or};
ghost use Rattle.text.specs.Appended.{Room, Appended};
ghost use Rattle.answers.specs.Refusal.{option_of};
ghost use Rattle.answers.specs.Told.{told_in};
ghost use Rattle.plans.specs.Plan.{Accepted};
ghost use Rattle.engine.specs.Answer.{values_of, told_by_run};
ghost use Rattle.printing.specs.Texts.{results_text, refusal_text, told_text, told_log};

use engine::Report;
pub use failing::{Fails, OtherRefusal};
use headers::AcceptedHeader;
use plans::Header;
use text::Text;

// `method yards lanes source rounds verdict`, the rows, and the route. The results come in three arrays, as a run is lent them: a
// struct of the three would be made for each call and taken apart in it.
fn put_results(
    text: &mut Text<'_>,
    all: bool,
    h: AcceptedHeader,
    r: Report,
    distances: &[i64; 1024],
    parents: &[i64; 32],
    route: &[i64; 31],
)
    requires { Room 67374 text.old }
    ensures { Appended 67374 (results_text all h.header (values_of r) distances.now parents.now route.now) text.old text.new }
{
    let public = h.header;
    let line = [
        public.method,
        public.vertices,
        public.edges,
        public.source,
        r.rounds,
        r.verdict,
    ];
    text.put_numbers(&line);
    listings::put_rows(text, all, h, distances, parents);
    listings::put_route(text, public, route);
}

// `refused number place`, of any number.
pub fn put_refusal(text: &mut Text<'_>, number: u64, place: Option<usize>)
    requires { Room 50 text.old }
    ensures { Appended 50 (refusal_text number (option_of place)) text.old text.new }
{
    text.put_bytes(b"refused ");
    match place {
        Some(k) => text.put_numbers(&[number, k as u64]),
        None => text.put_numbers(&[number]),
    }
}

// What the desk's program prints of an answer. A loss circle is refused too, by 12: it has no results.
pub fn put_answer<F: Fails + Copy>(
    text: &mut Text<'_>,
    all: bool,
    h: Header,
    answer: Result<Report, F>,
    distances: &[i64; 1024],
    parents: &[i64; 32],
    route: &[i64; 31],
)
    requires { Room 67374 text.old × ((told_in (λ r. told_by_run (Ok r)) F.told answer).number ≡ 0 → Accepted h) }
    ensures { Appended 67374 (told_text all h (told_in (λ r. told_by_run (Ok r)) F.told answer) distances.now parents.now route.now) text.old text.new }
{
    match answer {
        Ok(report) => {
            put_results(
                text,
                all,
                AcceptedHeader { header: h },
                report,
                distances,
                parents,
                route,
            );
        }
        Err(failure) => put_refusal(text, failure.number(), failure.place()),
    }
}

// What `host_log` prints: the log of a request that ran, with a loss circle too, or the refusal.
pub fn put_log<F: Fails + Copy>(text: &mut Text<'_>, answer: Result<Report, F>, log: &[u64])
    requires { Room 139264 text.old × (length log.now ≡ 8192) × (get_or (told_in (λ r. told_by_run (Ok r)) F.told answer).values 1 0 ≤ 8192) }
    ensures { Appended 139264 (told_log (told_in (λ r. told_by_run (Ok r)) F.told answer) log.now) text.old text.new }
{
    match answer {
        Ok(report) => listings::put_words(text, log, report.log_length),
        Err(failure) => match failure.log_length() {
            Some(length) => listings::put_words(text, log, length),
            None => put_refusal(text, failure.number(), failure.place()),
        },
    }
}
