// A script as console text, one command a line, in the words of a maker: of a script value here, of a file in files.rt. What the text is stands in
// `console_text`. No entry has a `requires`.

#![tactic(auto)]

ghost use Rattle.std.specs.Prelude.{◌≡◌};
ghost use Rattle.deployment.specs.Values.{script_of};
ghost use Rattle.deployment.specs.FieldValues.{left_by};
ghost use Rattle.replay.specs.Answers.{commands_of, Readable};
ghost use Rattle.lines.specs.Printing.{Puts};
ghost use Rattle.console.specs.Makers.{said};
ghost use Rattle.console_text.specs.Text.{line_of, script_text};
ghost use Rattle.console_text.specs.Answers.{text_left, text_of_value};
ghost use Rattle.console_writer.specs.Printing.{Fit};

use commands::{command_at, commands};
use console::Maker;
use deployment::Refusal;
use lines::phrases::put_command;
use lines::whole::whole_text;
use lines::words::put_word;
use policy::Command;
use values::script_checked;

pub mod files;

// No text of a script is longer, for either maker: a place of so many bytes is never too small.
pub const MOST_TEXT: usize = 49152;

// "each line ends in a line feed"
fn put_line(place: &mut [u8], at: usize, maker: Maker, c: Command) -> usize
    ensures { Puts place.old at (line_of maker (said maker c)) place.new result }
{
    let next = put_command(place, at, maker, c);
    put_word(place, next, b"\n")
}

// A line for each command of a script value that is read.
fn put_script(script: &[u8], maker: Maker, place: &mut [u8]) -> usize
    ensures { Readable script.now
        → Puts place.old 0 (script_text maker (commands_of (script_of script.now))) place.new result }
{
    let mut next = 0;
    for k in 0..commands(script) {
        let Some(c) = command_at(script, k) else {
            return next;
        };
        next = put_line(place, next, maker, c);
    }
    next
}

// The text of a script value that is accepted, in the first bytes of the place.
fn write_text(script: &[u8], maker: Maker, place: &mut [u8]) -> Result<usize, Refusal>
    ensures { Fit script.now
        → left_by result place.new ≡ text_left maker (commands_of (script_of script.now)) place.old }
{
    whole_text(|place| put_script(script, maker, place), MOST_TEXT, place)
}

// The text of a script value: 4, 11, and last 13.
pub fn script_text(script: &[u8], maker: Maker, place: &mut [u8]) -> Result<usize, Refusal>
    ensures { left_by result place.new ≡ text_of_value maker script.now place.old }
{
    script_checked(script)?;
    write_text(script, maker, place)
}
