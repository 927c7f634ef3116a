// Policies, default, keep list and script: how many, and what.

ghost use Rattle.std.specs.Prelude.{◌≡◌, ℕ, List, cond, ◌++◌, drop, get_or};
ghost use Rattle.std.proofs.Math.Option.{some};
ghost use Rattle.deployment.specs.Values.{numbers_of, script_of};
ghost use Rattle.deployment.specs.FieldValues.{lent};
ghost use Rattle.reader.specs.Answers.{value_at};
ghost use Rattle.replay.specs.Answers.{Readable};
ghost use Rattle.lines.specs.Text.{spaced_all};
ghost use Rattle.lines.specs.Printing.{Puts};
ghost use Rattle.policy.specs.declared.Action.TheVariants.{Deny, Permit};
ghost use Rattle.showing.specs.Text.{numbers_text, list_text, policies_text, default_text, numbers_given, keep_text, script_given, script_text};

use commands::commands;
use format::{listed, number_at};
use lines::steps::put_lines;
use lines::words::{put_named, put_number, put_spaced, put_word};
use reader::Span;
use reader::file::value;
use rule_lines::heads::{LINE_END, put_head, put_sign};

// The numbers of a list value behind the first, each behind a blank.
fn put_following(place: &mut [u8], at: usize, list: &[u8]) -> usize
    ensures { Puts place.old at (spaced_all (drop 1 (numbers_of list.now))) place.new result }
{
    let mut next = at;
    for k in 1..listed(list) {
        next = put_spaced(place, next, number_at(list, k) as usize);
    }
    next
}

// The numbers of a list value on one line; no line where there are none.
fn put_numbers(place: &mut [u8], at: usize, list: &[u8]) -> usize
    ensures { Puts place.old at (numbers_text (numbers_of list.now)) place.new result }
{
    if listed(list) == 0 {
        return at;
    }
    let mut next = put_number(place, at, number_at(list, 0) as usize);
    next = put_following(place, next, list);
    put_sign(place, next, LINE_END)
}

// A word and how many numbers a list value has, and under it the numbers.
fn put_list(place: &mut [u8], at: usize, word: &[u8], list: &[u8]) -> usize
    ensures { Puts place.old at (word.now ++ list_text (numbers_of list.now)) place.new result }
{
    let next = put_head(place, at, word, listed(list));
    put_numbers(place, next, list)
}

// Both policies.
pub fn put_policies(place: &mut [u8], at: usize, file: &[u8], initial: Span, target: Span) -> usize
    ensures { Puts place.old at
        (policies_text (numbers_of (value_at initial file.now)) (numbers_of (value_at target file.now)))
        place.new result }
{
    let next = put_list(place, at, b"initial", value(file, initial));
    put_list(place, next, b"target", value(file, target))
}

// The default of both policies: permit where a default is there. Kept as a flag: no value goes with it.
pub fn put_default(place: &mut [u8], at: usize, has: bool) -> usize
    ensures { Puts place.old at (default_text (cond has Permit Deny)) place.new result }
{
    if has {
        return put_word(place, at, b"default permit\n");
    }
    put_word(place, at, b"default deny\n")
}

// The keep list, or that it is absent.
pub fn put_keep(place: &mut [u8], at: usize, keep: Option<&[u8]>) -> usize
    ensures { Puts place.old at (keep_text (numbers_given (lent keep.entry))) place.new result }
{
    match keep {
        Some(keep) => put_list(place, at, b"keep", keep),
        None => put_word(place, at, b"keep absent\n"),
    }
}

// The type of a script value that is read: its first byte.
fn type_of(script: &[u8]) -> usize
    requires { Readable script.now }
    ensures { result ≡ get_or script.now 0 0 }
{
    script[0] as usize
}

// The type of a script value that is read, how many commands it has, and a line for each.
fn put_commands(place: &mut [u8], at: usize, script: &[u8]) -> usize
    requires { Readable script.now }
    ensures { Puts place.old at (script_text (script_of script.now)) place.new result }
{
    let mut next = put_named(place, at, b"script type", type_of(script));
    next = put_head(place, next, b" commands", commands(script));
    put_lines(place, next, script)
}

// The script, or that it is absent.
pub fn put_script(place: &mut [u8], at: usize, script: Option<&[u8]>) -> usize
    requires { (value : List ℕ) → lent script ≡ some value → Readable value }
    ensures { Puts place.old at (script_text (script_given (lent script.entry))) place.new result }
{
    match script {
        Some(script) => put_commands(place, at, script),
        None => put_word(place, at, b"script absent\n"),
    }
}
