// Runs the entries of console text on files and prints each whole answer. Each argument names a file, and the end of its name tells the calls: `.value` is a
// script value, written for both makers; `.A1.text` is a text, read for maker A as type 1, and so on; another is a deployment file, whose script and plans are
// written for both makers. What is written is printed as it is; then the same call is lent one byte too little. Each line of a call ends by whether all other
// bytes are as they were.

#![tactic(auto)]

use cases::{
    MOST_READ, NAME_ROOM, argument, argument_count, filled, print_answer, print_bytes,
    read_argument,
};
use console::Maker;
use console_reader::text_script;
use console_writer::{files, script_text};
use deployment::Refusal;
use std::env::Env;
use std::rt::Files;

// What a lent place holds before a call.
const LENT: u8 = 165;

// The bytes of a room, more than any text has.
const ROOM_BYTES: usize = 65536;

// The last letters of `.value` and `.text`, and how far from the end of `.A1.text` its maker and its type stand.
const VALUE_ENDS: u8 = b'e';

const TEXT_ENDS: u8 = b't';

const MAKER_BACK: usize = 7;

const TYPE_BACK: usize = 6;

const MAKER_B: u8 = b'B';

const ZERO: u8 = b'0';

#[derive(Clone, Copy)]
enum Call {
    Script(Maker),
    Text(Maker, u8),
    Own(Maker),
    PlanOne(Maker),
    PlanTwo(Maker),
}

fn called(call: Call, input: &[u8], place: &mut [u8]) -> Result<usize, Refusal> {
    match call {
        Call::Script(maker) => script_text(input, maker, place),
        Call::Text(maker, kind) => text_script(input, kind, maker, place),
        Call::Own(maker) => files::script_text(input, maker, place),
        Call::PlanOne(maker) => files::plan_one_text(input, maker, place),
        Call::PlanTwo(maker) => files::plan_two_text(input, maker, place),
    }
}

// The call with the first bytes of a room as its place, or with all of it where it has fewer.
fn called_with(call: Call, input: &[u8], room: &mut [u8], size: usize) -> Result<usize, Refusal> {
    if room.len() < size {
        return called(call, input, room);
    }
    called(call, input, &mut room[..size])
}

fn print<R: Print>(rt: &R, word: &[u8]) {
    print_bytes(rt, word);
}

fn print_for<R: Print>(rt: &R, word: &[u8], maker: Maker) {
    print(rt, word);
    match maker {
        Maker::A => print(rt, b"A"),
        Maker::B => print(rt, b"B"),
    }
}

fn print_name<R: Print>(rt: &R, call: Call) {
    match call {
        Call::Script(maker) => print_for(rt, b"script ", maker),
        Call::Text(maker, kind) => print(rt, b"text"),
        Call::Own(maker) => print_for(rt, b"own ", maker),
        Call::PlanOne(maker) => print_for(rt, b"plan 1 ", maker),
        Call::PlanTwo(maker) => print_for(rt, b"plan 2 ", maker),
    }
}

// A call that is lent the first bytes of a room; its answer.
fn print_lent<R: Print>(rt: &R, call: Call, input: &[u8], size: usize) -> Result<usize, Refusal> {
    let mut room = filled(LENT);
    let answer = called_with(call, input, &mut room, size);
    print_name(rt, call);
    print_answer(rt, answer, &room, LENT);
    answer
}

fn print_call<R: Print>(rt: &R, call: Call, input: &[u8]) {
    if let Ok(n) = print_lent(rt, call, input, ROOM_BYTES) {
        if 0 < n {
            let _ = print_lent(rt, call, input, n - 1);
        }
    }
}

fn print_value<R: Print>(rt: &R, input: &[u8]) {
    print_call(rt, Call::Script(Maker::A), input);
    print_call(rt, Call::Script(Maker::B), input);
}

fn print_file<R: Print>(rt: &R, input: &[u8]) {
    print_call(rt, Call::Own(Maker::A), input);
    print_call(rt, Call::Own(Maker::B), input);
    print_call(rt, Call::PlanOne(Maker::A), input);
    print_call(rt, Call::PlanOne(Maker::B), input);
    print_call(rt, Call::PlanTwo(Maker::A), input);
    print_call(rt, Call::PlanTwo(Maker::B), input);
}

fn maker_named(letter: u8) -> Maker {
    if letter == MAKER_B {
        return Maker::B;
    }
    Maker::A
}

fn print_text<R: Print>(rt: &R, name: &[u8], input: &[u8]) {
    let n = name.len();
    if n < MAKER_BACK {
        return;
    }
    let maker = maker_named(name[n - MAKER_BACK]);
    let digit = name[n - TYPE_BACK];
    if digit < ZERO {
        return;
    }
    print_call(rt, Call::Text(maker, digit - ZERO), input);
}

fn print_calls<R: Print>(rt: &R, name: &[u8], input: &[u8]) {
    let n = name.len();
    if n == 0 {
        return;
    }
    let last = name[n - 1];
    if last == VALUE_ENDS {
        print_value(rt, input);
    } else if last == TEXT_ENDS {
        print_text(rt, name, input);
    } else {
        print_file(rt, input);
    }
}

fn print_argument<R: Env + Files + Print>(rt: &R, i: usize) {
    let mut input = [0u8; MOST_READ];
    let got = read_argument(rt, i, &mut input);
    let mut name = [0u8; NAME_ROOM];
    let n = argument(rt, i, &mut name);
    print_calls(rt, &name[..n], &input[..got]);
}

// Kept: the calls go by the file's name too, which `each_file` doesn't hand over.
fn main(rt: HostRuntime) {
    for i in 1..argument_count(&rt) {
        print_argument(&rt, i);
    }
}
