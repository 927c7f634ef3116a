// Console text, read back as a script: told type and maker, the entry writes a script field. What a text is read as stands in `console_text`.
// The text is gone through twice: the first time nothing is put, so that a text that is turned away leaves the place alone.

#![tactic(auto)]

ghost use Rattle.std.specs.Prelude.{◌≤◌, ◌≡◌, List, length, drop};
ghost use Rattle.policy.specs.Policy.{most_commands};
ghost use Rattle.policy.specs.declared.Command.{Command};
ghost use Rattle.deployment.specs.FieldValues.{left_by};
ghost use Rattle.console_text.specs.Reading.{understood, most_second, heard_coded, command_read, read_from};
ghost use Rattle.console_text.specs.Answers.{script_left, script_of_text};
ghost use Rattle.console_reader.specs.Found.{NextFound, AllFound};

use commands::{decode, is_type};
use console::{Maker, second_heard};
use deployment::{Refusal, Why};
use format::{COMMAND_BYTES, HEAD_BYTES, SCRIPT_BYTES};
use line::{Line, line_of};
use plans::field::{close, put};
use policy::Command;

mod line;

// "2,048 commands in a script"
const MOST_COMMANDS: u16 = 2048;

// No script field is longer: a place of so many bytes is never too small.
pub const MOST_FIELD: usize = HEAD_BYTES + SCRIPT_BYTES;

// "a number above 65,535"
const MOST_NUMBER: usize = 65535;

// A command, and the position behind its line.
#[derive(Clone, Copy)]
struct Next {
    command: Command,
    end: usize,
}

// "then 56 for a number above 65,535 (b above 65,536)": the most that the second number may be.
#[tactic(auto, unfolding(console_text::specs::Reading::most_second))]
fn most_second(maker: Maker, code: u8) -> usize
    ensures { result ≡ most_second maker code }
{
    match maker {
        Maker::A => MOST_NUMBER,
        Maker::B => {
            if code == Command::MOV {
                MOST_NUMBER + 1
            } else {
                MOST_NUMBER
            }
        }
    }
}

// The second number of a line's command as document 01 counts it: that of a move is the maker's own.
#[tactic(auto, unfolding(console_text::specs::Reading::heard_coded))]
fn second_of(maker: Maker, line: Line) -> usize
    ensures { result ≡ (heard_coded maker (record { code = line.code; one = line.one; two = line.two })).two }
{
    if line.code == Command::MOV {
        return second_heard(maker, line.one, line.two);
    }
    line.two
}

// The command whose line stands at a position, and the position behind it: 55, then 56.
fn next_at(text: &[u8], at: usize, kind: u8, maker: Maker) -> Result<Next, Why>
    requires { at ≤ length text.now }
    ensures { NextFound text.now (command_read maker kind (drop at text.now)) result }
{
    let line = line_of(text, at, kind, maker).ok_or(Why::NoCommand)?;
    if MOST_NUMBER < line.one || most_second(maker, line.code) < line.two {
        return Err(Why::Beyond);
    }
    let second = second_of(maker, line);
    let command = decode(kind, line.code, line.one as u16, second as u16).ok_or(Why::NoCommand)?;
    Ok(Next {
        command,
        end: line.end,
    })
}

// All lines, one after another, and then 4 at a 2,049th command: the records are put behind the head of a script field, as far as the place has room.
fn put_commands(text: &[u8], kind: u8, maker: Maker, place: &mut [u8]) -> Result<u16, Refusal>
    ensures { AllFound (read_from maker kind most_commands 1 text.now) result place.old place.new }
{
    let mut at = 0;
    let mut n = 0u16;
    // Kept as a `while`: a step is as long as the line that is read.
    while at < text.len() {
        let line = n as usize + 1;
        let next = next_at(text, at, kind, maker).map_err(|why| Refusal { why, at: line })?;
        if n == MOST_COMMANDS {
            return Err(Refusal {
                why: Why::Length,
                at: line,
            });
        }
        put(place, n, next.command);
        n += 1;
        at = next.end;
    }
    Ok(n)
}

// The script field of a text, in the first bytes of the place: 11 at 0 for a type that there isn't, then 55, 56 and 4 by line, and last 13.
pub fn text_script(text: &[u8], kind: u8, maker: Maker, place: &mut [u8]) -> Result<usize, Refusal>
    ensures { left_by result place.new ≡ script_of_text maker kind text.now place.old }
{
    if !is_type(kind) {
        return Err(Refusal {
            why: Why::Coding,
            at: 0,
        });
    }
    let mut nowhere = [0u8; 0];
    let n = put_commands(text, kind, maker, &mut nowhere)?;
    put_field(text, kind, maker, n, place)
}

// The script field of a text of so many commands; last 13.
fn put_field(
    text: &[u8],
    kind: u8,
    maker: Maker,
    n: u16,
    place: &mut [u8],
) -> Result<usize, Refusal>
    requires { (commands : List Command) × (read_from maker kind most_commands 1 text.now ≡ understood commands) × (length commands ≡ n) }
    ensures { left_by result place.new ≡ script_left kind (read_from maker kind most_commands 1 text.now) place.old }
{
    let needed = HEAD_BYTES + 1 + COMMAND_BYTES * (n as usize);
    if place.len() < needed {
        return Err(Refusal {
            why: Why::Room,
            at: needed,
        });
    }
    put_commands(text, kind, maker, place)?;
    close(place, kind, 0, n);
    Ok(needed)
}
