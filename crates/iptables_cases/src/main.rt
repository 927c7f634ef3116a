// Brings in listings and prints each whole answer. Each argument names a listing. What is written is printed as it is; then the same call is lent one byte
// too little. Each line of a call ends by whether all other bytes are as they were.

#![tactic(auto)]

use cases::{each_file, filled, print_answer, print_bytes};
use deployment::Refusal;
use iptables_reader::from_iptables;

// What a lent place holds before a call.
const LENT: u8 = 165;

// The bytes of a room, more than any file of a listing has.
const ROOM_BYTES: usize = 65536;

// The call with the first bytes of a room as its place, or with all of it where it has fewer.
fn called_with(listing: &[u8], room: &mut [u8], size: usize) -> Result<usize, Refusal> {
    if room.len() < size {
        return from_iptables(listing, room);
    }
    from_iptables(listing, &mut room[..size])
}

// A call that is lent the first bytes of a room; its answer.
fn print_lent<R: Print>(rt: &R, listing: &[u8], size: usize) -> Result<usize, Refusal> {
    let mut room = filled(LENT);
    let answer = called_with(listing, &mut room, size);
    print_bytes(rt, b"listing");
    print_answer(rt, answer, &room, LENT);
    answer
}

fn print_calls<R: Print>(rt: &R, listing: &[u8]) {
    if let Ok(n) = print_lent(rt, listing, ROOM_BYTES) {
        if 0 < n {
            let _ = print_lent(rt, listing, n - 1);
        }
    }
}

fn main(rt: HostRuntime) {
    each_file(&rt, |listing| print_calls(&rt, listing));
}
