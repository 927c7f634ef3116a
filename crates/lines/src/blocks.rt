// A plan, in a block: its head and its commands.

ghost use Rattle.deployment.specs.Values.{script_of};
ghost use Rattle.replay.specs.Answers.{commands_of, Readable};
ghost use Rattle.lines.specs.Text.{head_text, block_text};
ghost use Rattle.lines.specs.Printing.{Puts};

use super::steps::put_lines;
use super::words::{put_named, put_word};
use commands::commands;

// "The head gives the type, both lengths, rules kept, commands."
fn put_head(
    place: &mut [u8],
    at: usize,
    kind: usize,
    initial: usize,
    target: usize,
    kept: usize,
    commands: usize,
) -> usize
    ensures { Puts place.old at (head_text kind initial target kept commands) place.new result }
{
    let mut next = put_named(place, at, b"type", kind);
    next = put_named(place, next, b" initial", initial);
    next = put_named(place, next, b" target", target);
    next = put_named(place, next, b" kept", kept);
    next = put_named(place, next, b" commands", commands);
    put_word(place, next, b"\n")
}

// The head of a plan, and a line for each command of its script value.
pub fn put_block(
    place: &mut [u8],
    at: usize,
    kind: usize,
    initial: usize,
    target: usize,
    kept: usize,
    script: &[u8],
) -> usize
    ensures { Readable script.now
        → Puts place.old at (block_text kind initial target kept (commands_of (script_of script.now))) place.new result }
{
    let next = put_head(place, at, kind, initial, target, kept, commands(script));
    put_lines(place, next, script)
}
