// Distances saved before prices came in hundredths, converted to today's (document 02, ask 7).
// Rests on answers and on plans, for the mark of an unreached vertex.
#![tactic(auto)]

ghost use Rattle.std.specs.Prelude.{◌≡◌, true, map};
ghost use Rattle.std.proofs.Math.Option.{none};
ghost use Rattle.answers.specs.Refusal.{found};
ghost use Rattle.saved.specs.Saved.{convertible, converted, saved_refusal, conversion_outcome, MetConversion};

use answers::Refusal;

// The mark of an unreached vertex as it was.
const OLD_FAR: i64 = 274877906944;

// The greatest distance either way as it was: of 31 edges at 1,000,000.
const OLD_MOST: i64 = 31000000;

// How many of today's units the old one is.
const FACTOR: i64 = 100;

// Whether a word is the old mark or a distance of old.
fn may_convert(word: i64) -> bool
    ensures { result ≡ convertible word }
{
    if word == OLD_FAR {
        return true;
    }
    if word < -OLD_MOST {
        return false;
    }
    word <= OLD_MOST
}

// 11, with the lowest place of a word that is neither.
fn check(saved: &[i64]) -> Result<(), Refusal>
    ensures { found result ≡ saved_refusal 0 saved.now }
{
    for (place, word) in saved.iter().enumerate() {
        let bad = !may_convert(*word);
        if bad {
            return Err(Refusal::Weight(place));
        }
    }
    Ok(())
}

// One word converted.
fn convert_word(word: i64) -> i64
    requires { convertible word ≡ true }
    ensures { result ≡ converted word }
{
    if word == OLD_FAR {
        return plans::FAR;
    }
    FACTOR * word
}

// All words converted.
fn convert_words(saved: &mut [i64])
    requires { saved_refusal 0 saved.old ≡ none }
    ensures { saved.new ≡ map converted saved.old }
{
    for word in saved.iter_mut() {
        *word = convert_word(*word);
    }
}

// Saved distances converted in place. Every word is tested before the first is changed; a refusal leaves all of them.
pub fn convert(saved: &mut [i64]) -> Result<(), Refusal>
    ensures { MetConversion (conversion_outcome saved.old) result saved.new }
{
    check(saved)?;
    convert_words(saved);
    Ok(())
}
