// `textscript MAKER TYPE`: the script field of the console text on standard input.

#![tactic(auto)]

use asked::{What, called_maker, called_what};
use console::Maker;
use console_reader::{MOST_FIELD, text_script};
use policy::Command;
use std::env::Env;
use streams::{MOST_READ, answer_input, print_whole};

// The type that the call names; nothing where it asks for the file's script, or has more words than two, or fewer.
fn called_type<R: Env>(rt: &R) -> Option<u8> {
    match called_what(rt)? {
        What::One => Some(Command::APPEND_DELETE),
        What::Two => Some(Command::INSERT_DELETE_MOVE),
        What::Own => None,
    }
}

fn main(rt: HostRuntime) {
    let (Some(maker), Some(kind)) = (called_maker(&rt), called_type(&rt)) else {
        print_whole(&rt, b"usage: textscript MAKER TYPE: A or B, then 1 or 2\n");
        return;
    };
    let mut text = [0u8; MOST_READ];
    let mut place = [0u8; MOST_FIELD];
    answer_input(&rt, &mut text, &mut place, |text, place| {
        text_script(text, kind, maker, place)
    });
}
