// The steps of a script, a line each: its number and its command.

ghost use Rattle.deployment.specs.Values.{script_of};
ghost use Rattle.replay.specs.Answers.{commands_of, Readable};
ghost use Rattle.lines.specs.Text.{line_text, lines_text};
ghost use Rattle.lines.specs.Printing.{Puts};

use super::phrases::put_command;
use super::words::{put_number, put_word};
use commands::{command_at, commands};
use console::Maker;
use policy::Command;

// "A line gives the step, the command's name and its numbers."
fn put_line(place: &mut [u8], at: usize, step: usize, c: Command) -> usize
    ensures { Puts place.old at (line_text step c) place.new result }
{
    let mut next = put_number(place, at, step);
    next = put_word(place, next, b" ");
    next = put_command(place, next, Maker::A, c);
    put_word(place, next, b"\n")
}

// A line for each command of a script value that is read.
pub fn put_lines(place: &mut [u8], at: usize, script: &[u8]) -> usize
    ensures { Readable script.now
        → Puts place.old at (lines_text 1 (commands_of (script_of script.now))) place.new result }
{
    let mut next = at;
    for k in 0..commands(script) {
        let Some(c) = command_at(script, k) else {
            return next;
        };
        next = put_line(place, next, k + 1, c);
    }
    next
}
