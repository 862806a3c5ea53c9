// What is written for one yard, one pair of yards and one step of a route.
// Rests on printing and text.
#![tactic(auto)]

ghost use Rattle.std.specs.Prelude.{◌≡◌, [], ◌∷◌, ◌++◌};
ghost use Rattle.text.specs.Appended.{Room, Appended};
ghost use Rattle.printing.specs.Texts.{distance_text, parent_text, yard_text, pair_text, left_out, listed_text, step_text};
ghost use Rattle.lines.specs.Shown.{shown};

use text::Text;

// The distance of a vertex that is reached.
fn reached(distance: i64) -> Option<i64>
    ensures { shown result ≡ distance_text distance }
{
    let unreached = distance == plans::FAR;
    if unreached { None } else { Some(distance) }
}

// The parent of a vertex that has one.
fn known(parent: i64) -> Option<i64>
    ensures { shown result ≡ parent_text parent }
{
    let missing = parent < 0;
    if missing { None } else { Some(parent) }
}

// A number, or a dash where there is none, and the byte after it.
fn put_shown(text: &mut Text<'_>, number: Option<i64>, after: u8)
    requires { Room 22 text.old }
    ensures { Appended 22 (shown number ++ after ∷ []) text.old text.new }
{
    match number {
        Some(number) => text.put_signed(number),
        None => text.put_byte(b'-'),
    }
    text.put_byte(after);
}

// Whether a vertex has no line.
// `all` goes along with the text from here up and is no part of it: here alone it is looked at.
fn left_out(all: bool, distance: i64) -> bool
    ensures { result ≡ left_out all distance }
{
    !all && distance == plans::FAR
}

// `yard distance parent`, where the yard is listed.
pub fn put_yard(text: &mut Text<'_>, all: bool, v: u64, distance: i64, parent: i64)
    requires { Room 65 text.old }
    ensures { Appended 65 (listed_text all distance (yard_text v distance parent)) text.old text.new }
{
    if left_out(all, distance) {
        return;
    }
    text.put_number(v);
    text.put_byte(b' ');
    put_shown(text, reached(distance), b' ');
    put_shown(text, known(parent), b'\n');
}

// `from to distance`, where the pair is listed.
pub fn put_pair(text: &mut Text<'_>, all: bool, from: u64, to: u64, distance: i64)
    requires { Room 65 text.old }
    ensures { Appended 65 (listed_text all distance (pair_text from to distance)) text.old text.new }
{
    if left_out(all, distance) {
        return;
    }
    text.put_number(from);
    text.put_byte(b' ');
    text.put_number(to);
    text.put_byte(b' ');
    put_shown(text, reached(distance), b'\n');
}

// A blank and the number of an edge; nothing for -1.
pub fn put_step(text: &mut Text<'_>, edge: i64)
    requires { Room 22 text.old }
    ensures { Appended 22 (step_text edge) text.old text.new }
{
    let padding = edge < 0;
    if padding {
        return;
    }
    text.put_byte(b' ');
    text.put_signed(edge);
}
