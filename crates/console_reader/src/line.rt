// One line of console text: words, compared by the table of `lines`, numbers, read by `numerals`, and the line feed.

ghost use Rattle.std.specs.Prelude.{◌≤◌, ◌≡◌, length, drop};
ghost use Rattle.policy.specs.Command.{codes_of};
ghost use Rattle.deployment.specs.FieldValues.{lent};
ghost use Rattle.numerals.specs.Found.{NumberFound};
ghost use Rattle.console_text.specs.Reading.{starts, second_read, line_read, any_read};
ghost use Rattle.console_reader.specs.Found.{if_good, LineFound};

use commands::allows;
use console::Maker;
use lines::phrases::phrase_of;
use numerals::{Number, number_at};
use policy::Command;

// A line's code, its two numbers and the position behind it.
#[derive(Clone, Copy)]
pub struct Line {
    pub code: u8,
    pub one: usize,
    pub two: usize,
    pub end: usize,
}

// Whether the text has this word from a position on.
fn stands(text: &[u8], at: usize, word: &[u8]) -> bool
    requires { at ≤ length text.now }
    ensures { result ≡ starts word.now (drop at text.now) }
{
    if text.len() - at < word.len() {
        return false;
    }
    for k in 0..word.len() {
        if text[at + k] != word[k] {
            return false;
        }
    }
    true
}

// The second number behind its word, if there is one.
fn second_at(text: &[u8], at: usize, between: Option<&[u8]>) -> Option<Number>
    requires { at ≤ length text.now }
    ensures { NumberFound text.now (if_good (second_read (lent between.entry) (drop at text.now))) result }
{
    let Some(word) = between else {
        return Some(Number { value: 0, end: at });
    };
    if !stands(text, at, word) {
        return None;
    }
    number_at(text, at + word.len())
}

// The line of a command of this code.
fn line_at(text: &[u8], at: usize, maker: Maker, code: u8) -> Option<Line>
    requires { at ≤ length text.now }
    ensures { LineFound text.now (line_read maker code (drop at text.now)) result }
{
    let phrase = phrase_of(maker, code);
    if !stands(text, at, phrase.name) {
        return None;
    }
    let one = number_at(text, at + phrase.name.len())?;
    let two = second_at(text, one.end, phrase.between)?;
    if !stands(text, two.end, b"\n") {
        return None;
    }
    Some(Line {
        code,
        one: one.value,
        two: two.value,
        end: two.end + 1,
    })
}

// The line of a command of one of the type's codes.
pub fn line_of(text: &[u8], at: usize, kind: u8, maker: Maker) -> Option<Line>
    requires { at ≤ length text.now }
    ensures { LineFound text.now (any_read maker (codes_of kind) (drop at text.now)) result }
{
    for code in Command::APP..Command::MOV + 1 {
        if allows(kind, code) {
            if let Some(line) = line_at(text, at, maker, code) {
                return Some(line);
            }
        }
    }
    None
}
