// What `vectors` and the case programs share: the files that their arguments name, rows, rooms, checksums, and the lines that they print.
// A row is a two-byte length and that many bytes, again and again.

#![tactic(auto)]

ghost use Rattle.std.specs.Prelude.{◌≡◌, ◌≤◌, ◌-◌, cond, length, take};
ghost use Rattle.std.proofs.Math.Option.{none, some};
ghost use Rattle.deployment.specs.FieldValues.{lent};

use deployment::Refusal;
use format::two;
use reader::file::value;
use reader::{Layout, Span};
use std::env::{Env, FillError};
use std::fs;
use std::io::Read;
use std::rt::Files;
pub use streams::MOST_READ;

// Room for an argument; a longer one is taken for an empty one.
pub const NAME_ROOM: usize = 4096;

const LENGTH_BYTES: usize = 2;

// A checksum is a polynomial in BASE modulo the largest prime of two bytes, or of four.
const BASE: u64 = 257;

const TWO_BYTE_PRIME: u64 = 65521;

const FOUR_BYTE_PRIME: u64 = 4294967291;

// How many arguments the program was started with, its own name among them.
pub fn argument_count<R: Env>(rt: &R) -> usize {
    let mut name = [0u8; NAME_ROOM];
    for i in 0..usize::MAX {
        if let Err(FillError::NotPresent) = rt.arg(i, &mut name) {
            return i;
        }
    }
    usize::MAX
}

// Puts the i-th argument at the start of `name`; its length, 0 where there is none.
pub fn argument<R: Env>(rt: &R, i: usize, name: &mut [u8]) -> usize
    ensures { result ≤ length name.new }
{
    rt.arg(i, name).unwrap_or(0)
}

// Prints bytes. A write that fails is passed over.
pub fn print_bytes<R: Print>(rt: &R, bytes: &[u8]) {
    let _ = rt.write_all(bytes);
}

// Reads until the place is full, the input ends or a read fails; how many bytes there are now at the start of the place.
fn read_full<R: Read>(input: &mut R, place: &mut [u8]) -> usize
    ensures { result ≤ length place.new }
{
    let mut done = 0;
    // Kept: a turn goes on behind as many bytes as came.
    while done < place.len() {
        let n = input.read(&mut place[done..]).unwrap_or(0);
        if n == 0 {
            break;
        }
        done += n;
    }
    done
}

// Reads as much of the file with this name as the place has room for; nothing where it can't be opened.
fn read_named<R: Files>(rt: &R, name: &[u8], place: &mut [u8]) -> usize
    ensures { result ≤ length place.new }
{
    let Ok(path) = str::from_utf8(name) else {
        return 0;
    };
    let Ok(mut file) = fs::open(rt, path) else {
        return 0;
    };
    read_full(&mut file, place)
}

// Prints the i-th argument, the name of a file, and reads as much of the file as `place` has room for.
pub fn read_argument<R: Env + Files + Print>(rt: &R, i: usize, place: &mut [u8]) -> usize
    ensures inside { result ≤ length place.new }
    ensures whole { result ≡ length (take result place.new) }
{
    let mut name = [0u8; NAME_ROOM];
    let n = argument(rt, i, &mut name);
    print_bytes(rt, &name[..n]);
    print_bytes(rt, b"\n");
    read_named(rt, &name[..n], place)
}

// Prints each argument, the name of a file, and what is made of the file, as much as is read.
pub fn each_file<R: Env + Files + Print, F: Fn(&[u8])>(rt: &R, print_file: F)
    requires { F.IsAlwaysCallable print_file }
{
    for i in 1..argument_count(rt) {
        let mut file = [0u8; MOST_READ];
        let got = read_argument(rt, i, &mut file);
        print_file(&file[..got]);
    }
}

// The length at the head of a row; 0 where there is none.
fn first_size(row: &[u8]) -> u16 {
    if row.len() < LENGTH_BYTES {
        return 0;
    }
    two(row[0], row[1])
}

// The bytes whose length stands at a place of a row; what there is of them where the row is shorter.
pub fn bytes_at<'a>(row: &'a [u8], at: usize) -> &'a [u8] {
    let len = row.len();
    if len <= at {
        return &row[len..];
    }
    let rest = &row[at..];
    let size = first_size(rest) as usize;
    value(
        rest,
        Span {
            start: LENGTH_BYTES,
            size,
        },
    )
}

// Bytes that may be absent, as a case has them: with a flag beside them.
pub fn given(is: bool, bytes: &[u8]) -> Option<&[u8]>
    ensures { lent result ≡ cond is (some bytes.now) none }
{
    if is { Some(bytes) } else { None }
}

// The place behind these bytes, further on while the row lasts.
pub fn next_place(row: &[u8], at: usize) -> usize
    ensures { length row.now - result ≤ length row.now - at - 1 }
{
    let len = row.len();
    if len <= at {
        return len;
    }
    let size = LENGTH_BYTES + first_size(&row[at..]) as usize;
    if len - at < size {
        return len;
    }
    at + size
}

// Takes the cases of a row one after another.
pub fn each_case<F: Fn(&[u8])>(row: &[u8], print_case: F)
    requires { F.IsAlwaysCallable print_case }
{
    let mut at = 0;
    // Kept: a turn goes on behind a case, which says itself how long it is.
    while at < row.len() {
        print_case(bytes_at(row, at));
        at = next_place(row, at);
    }
}

// A checksum with one more byte.
fn summed(sum: u32, byte: u8, wide: bool) -> u32 {
    let more = sum as u64 * BASE + byte as u64;
    if wide {
        return (more % FOUR_BYTE_PRIME) as u32;
    }
    (more % TWO_BYTE_PRIME) as u32
}

// The checksum of bytes: in four bytes where it is to be wide, else in two.
pub fn checksum(bytes: &[u8], wide: bool) -> u32 {
    let mut sum = 1;
    for byte in bytes {
        sum = summed(sum, *byte, wide);
    }
    sum
}

// A room for any answer, all of whose bytes are the same.
pub fn filled(byte: u8) -> [u8; 65536]
    ensures { 65536 ≡ length result }
{
    [byte; 65536]
}

fn is_filled(room: &[u8], byte: u8) -> bool {
    for b in room {
        if *b != byte {
            return false;
        }
    }
    true
}

// Prints whether the bytes of a room are as they were.
pub fn print_kept<R: Print>(rt: &R, room: &[u8], byte: u8) {
    if is_filled(room, byte) {
        print_bytes(rt, b" kept");
    } else {
        print_bytes(rt, b" changed");
    }
}

pub fn print_number<R: Print>(rt: &R, word: &[u8], n: usize) {
    print_bytes(rt, word);
    let _ = rt.print(n);
}

pub fn print_refusal<R: Print>(rt: &R, refusal: Refusal) {
    print_number(rt, b"refused ", u8::from(refusal.why) as usize);
    print_number(rt, b" at ", refusal.at);
}

fn print_span<R: Print>(rt: &R, word: &[u8], span: Option<Span>) {
    print_bytes(rt, word);
    match span {
        Some(span) => {
            print_number(rt, b" ", span.start);
            print_number(rt, b" ", span.size);
        }
        None => print_bytes(rt, b" none"),
    }
}

// What was answered and left in a room, whose first bytes were lent: the refusal, or the bytes that were written, as they are; and whether the others
// are as they were.
pub fn print_answer<R: Print>(rt: &R, answer: Result<usize, Refusal>, room: &[u8], byte: u8) {
    match answer {
        Err(refusal) => {
            print_bytes(rt, b" ");
            print_refusal(rt, refusal);
            print_kept(rt, room, byte);
        }
        Ok(n) => {
            let size = room.len();
            print_number(rt, b" wrote ", n);
            print_kept(rt, value(room, Span { start: n, size }), byte);
            print_bytes(rt, b"\n");
            print_bytes(rt, value(room, Span { start: 0, size: n }));
        }
    }
    print_bytes(rt, b"\n");
}

// What is read of a file: the refusal, or where its values stand.
pub fn print_reading<R: Print>(rt: &R, reading: Result<Layout, Refusal>) {
    match reading {
        Err(refusal) => {
            print_refusal(rt, refusal);
        }
        Ok(layout) => {
            print_number(rt, b"rules ", layout.rules);
            print_span(rt, b" initial", Some(layout.initial));
            print_span(rt, b" target", Some(layout.target));
            print_span(rt, b" default", layout.default);
            print_span(rt, b" keep", layout.keep);
            print_span(rt, b" script", layout.script);
        }
    }
    print_bytes(rt, b"\n");
}
