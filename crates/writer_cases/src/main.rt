// Runs the writer on rows of cases and prints its answer to each: the refusal, or how many bytes were written, a checksum of them and
// how they are read back; and whether every other byte is as it was. Each argument names a file with one row. A case: two bytes for the
// size of the place, one that fills it, three that say whether there is a default, a keep list and a script; then the six values, a row.

#![tactic(auto)]

ghost use Rattle.std.specs.Prelude.{◌≤◌, length};

use cases::{
    bytes_at, checksum, each_case, each_file, filled, given, next_place, print_bytes, print_kept,
    print_number, print_reading, print_refusal,
};
use deployment::Refusal;
use entries::lists::{Values, write};
use format::two;
use reader::Span;
use reader::file::{read, value};

const HEAD_BYTES: usize = 6;

// The answer, and what was left in the room, whose first bytes are the place.
fn print_answer<R: Print>(rt: &R, answer: Result<usize, Refusal>, room: &[u8], byte: u8) {
    match answer {
        Err(refusal) => {
            print_refusal(rt, refusal);
            print_kept(rt, room, byte);
            print_bytes(rt, b"\n");
        }
        Ok(n) => {
            let size = room.len();
            let written = value(room, Span { start: 0, size: n });
            print_number(rt, b"wrote ", n);
            print_number(rt, b" sum ", checksum(written, false) as usize);
            print_kept(rt, value(room, Span { start: n, size }), byte);
            print_bytes(rt, b" ");
            print_reading(rt, read(written));
        }
    }
}

// What the writer answers to a case when the first bytes of the room are the place.
fn tried(case: &[u8], room: &mut [u8]) -> Result<usize, Refusal>
    requires { (6 ≤ length case.now) × (65536 ≤ length room.old) }
{
    let size = two(case[0], case[1]) as usize;
    let initial = next_place(case, HEAD_BYTES);
    let target = next_place(case, initial);
    let default = next_place(case, target);
    let keep = next_place(case, default);
    let script = next_place(case, keep);
    let values = Values {
        rules: bytes_at(case, HEAD_BYTES),
        initial: bytes_at(case, initial),
        target: bytes_at(case, target),
        default: given(case[3] == 1, bytes_at(case, default)),
        keep: given(case[4] == 1, bytes_at(case, keep)),
        script: given(case[5] == 1, bytes_at(case, script)),
    };
    write(&values, &mut room[..size])
}

fn print_case<R: Print>(rt: &R, case: &[u8]) {
    if case.len() < HEAD_BYTES {
        return;
    }
    let byte = case[2];
    let mut room = filled(byte);
    let answer = tried(case, &mut room);
    print_answer(rt, answer, &room, byte);
}

fn main(rt: HostRuntime) {
    each_file(&rt, |row| each_case(row, |case| print_case(&rt, case)));
}
