// Standard input read whole, and text printed: what the programs do with descriptors, and nothing else.

#![tactic(auto)]

ghost use Rattle.std.specs.Prelude.{◌≡◌, length, take, pos, negsuc, IfOk, OnErr};
ghost use Rattle.streams.specs.Reading.{by_number, Fitting, Within, piece_of, next_of};

use deployment::Refusal;
use lines::outcomes::put_refused;
use std::io;
use std::io::Read;
use std::ops::ControlFlow;

// The most bytes of an input that the programs read; `fromiptables` alone reads more.
pub const MOST_READ: usize = 65536;

// Room for a refusal's line.
const LINE_ROOM: usize = 4096;

// Reading failed.
#[derive(Clone, Copy, Debug, PartialEq, Eq)]
pub struct Unreadable;

// The answer of a read: how many bytes came, or that it failed (also where a signal interrupts it).
fn answer_of(read: io::Result<usize>) -> Result<usize, Unreadable>
    ensures came { IfOk read (λ n. result ≡ by_number (pos n)) }
    ensures failed { OnErr read (result ≡ by_number (negsuc 0)) }
{
    read.map_err(|_| Unreadable)
}

// What a read into a part tells by its answer: how many bytes came, none where the input has ended.
fn piece_of(answer: Result<usize, Unreadable>, part: &[u8]) -> Result<usize, Unreadable>
    ensures { result ≡ piece_of answer (length part.now) }
{
    Ok(answer?.min(part.len()))
}

// One read into the place, from `done` on.
fn read_piece<R: Read>(input: &mut R, place: &mut [u8], done: usize) -> Result<usize, Unreadable>
    ensures { Fitting result done (length place.new) }
{
    if place.len() < done {
        return Ok(0);
    }
    let answer = answer_of(input.read(&mut place[done..]));
    piece_of(answer, &place[done..])
}

// What a piece that comes behind `done` bytes means: so many bytes more and another read, or that the reading is over with this answer.
// One that failed makes all of the input unreadable, whatever came before it.
fn next_of(
    piece: Result<usize, Unreadable>,
    done: usize,
) -> ControlFlow<Result<usize, Unreadable>, usize>
    ensures { result ≡ next_of piece done }
{
    match piece {
        Ok(0) => ControlFlow::Break(Ok(done)),
        Ok(n) => ControlFlow::Continue(n),
        Err(Unreadable) => ControlFlow::Break(Err(Unreadable)),
    }
}

// Reads an input, such as standard input, to its end, or as far as the place goes, in as many pieces as it comes in; how many bytes came.
pub fn read_input<R: Read>(input: &mut R, place: &mut [u8]) -> Result<usize, Unreadable>
    ensures { Within result (length place.new) }
{
    let size = place.len();
    let mut done = 0;
    // Kept: a turn goes on behind as many bytes as came.
    while done < size {
        let piece = read_piece(input, place, done);
        match next_of(piece, done) {
            ControlFlow::Continue(n) => done += n,
            ControlFlow::Break(input) => return input,
        }
    }
    Ok(done)
}

// The first n bytes of a place; all of it where it is shorter.
pub fn first<'a>(place: &'a [u8], n: usize) -> &'a [u8]
    ensures { result.now ≡ take n place.now }
{
    &place[..n.min(place.len())]
}

// Prints a text whole, or says on standard error that it isn't: a text that is cut off can read as another.
pub fn print_whole<R: Print + Eprint>(rt: &R, text: &[u8]) {
    if rt.write_all(text).is_err() {
        let _ = rt.eprintln("cannot write the answer");
    }
}

// Prints the text that was written into the place.
pub fn print<R: Print + Eprint>(rt: &R, place: &[u8], written: Result<usize, Refusal>) {
    if let Ok(n) = written {
        print_whole(rt, first(place, n));
    }
}

// Prints what was written into the place, or the refusal's line.
pub fn print_answer<R: Print + Eprint>(rt: &R, place: &[u8], written: Result<usize, Refusal>) {
    match written {
        Ok(n) => print_whole(rt, first(place, n)),
        Err(refusal) => {
            let mut line = [0u8; LINE_ROOM];
            let n = put_refused(&mut line, refusal);
            print_whole(rt, first(&line, n));
        }
    }
}

// The one answer to input that can't be read.
pub fn print_unreadable<R: Print + Eprint>(rt: &R) {
    print_whole(rt, b"unreadable input\n");
}

// Reads standard input whole, and hands it with a lent place to `answer`; prints what was written there, or that the input
// can't be read.
pub fn answer_input<F: FnOnce(&[u8], &mut [u8]) -> Result<usize, Refusal>>(
    rt: &HostRuntime,
    input: &mut [u8],
    place: &mut [u8],
    answer: F,
)
    requires { F.IsAlwaysCallable answer }
{
    match read_input(&mut rt.stdin(), input) {
        Ok(n) => {
            let written = answer(first(input, n), place);
            print_answer(rt, place, written);
        }
        Err(Unreadable) => print_unreadable(rt),
    }
}
