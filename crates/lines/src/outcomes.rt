// Outcomes of one line: a refusal and a verdict, from the start of the place on.

ghost use Rattle.policy.specs.Judge.{verdict_numbers};
ghost use Rattle.lines.specs.Text.{refused_text, verdict_text};
ghost use Rattle.lines.specs.Printing.{PutsAll, most_line, Whole};

use super::spaced::put_numbers;
use super::words::{put_named, put_word};
use deployment::Refusal;
use policy::Verdict;

// "A bad file gives one line, as `refused 3 at 0`."
pub fn put_refused(place: &mut [u8], refusal: Refusal) -> usize
    ensures { Whole most_line place.old (refused_text refusal) place.new result }
{
    let number = u8::from(refusal.why) as usize;
    let mut next = put_named(place, 0, b"refused", number);
    next = put_named(place, next, b" at", refusal.at);
    put_word(place, next, b"\n")
}

// The number of a verdict and its values.
fn put_values(place: &mut [u8], at: usize, v: Verdict) -> usize
    ensures { PutsAll place.old at (verdict_numbers v) place.new result }
{
    match v {
        Verdict::Broken(fault, step) => {
            put_numbers(place, at, &[u8::from(fault) as usize, step])
        }
        Verdict::Elsewhere(commands) => {
            put_numbers(place, at, &[Verdict::ELSEWHERE as usize, commands])
        }
        Verdict::Unordered(step, rule) => {
            put_numbers(place, at, &[Verdict::UNORDERED as usize, step, rule])
        }
        Verdict::NotFull => put_numbers(place, at, &[Verdict::NOT_FULL as usize]),
        Verdict::Safe => put_numbers(place, at, &[Verdict::SAFE as usize]),
    }
}

// "one line, as `verdict 30 1 2`, `verdict 22 5` or `verdict 32`"
pub fn put_verdict(place: &mut [u8], v: Verdict) -> usize
    ensures { Whole most_line place.old (verdict_text v) place.new result }
{
    let mut next = put_word(place, 0, b"verdict");
    next = put_values(place, next, v);
    put_word(place, next, b"\n")
}
