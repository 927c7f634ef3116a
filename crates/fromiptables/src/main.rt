// `fromiptables`: the deployment file of the iptables listing on standard input.

#![tactic(auto)]

use iptables_reader::{MOST_FILE, from_iptables};
use streams::{first, print_answer, print_unreadable, print_whole, read_input};

// The longest listing that is read, and room to see that one is longer.
const MOST_LISTING: usize = 262144;

const LISTING_ROOM: usize = MOST_LISTING + 1;

fn main(rt: HostRuntime) {
    let mut listing = [0u8; LISTING_ROOM];
    let Ok(n) = read_input(&mut rt.stdin(), &mut listing) else {
        print_unreadable(&rt);
        return;
    };
    if MOST_LISTING < n {
        print_whole(&rt, b"listing longer than 262144 bytes\n");
        return;
    }
    let mut place = [0u8; MOST_FILE];
    let written = from_iptables(first(&listing, n), &mut place);
    print_answer(&rt, &place, written);
}
