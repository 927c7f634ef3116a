// `showlist`: what the deployment file on standard input contains, as text to read.

#![tactic(auto)]

use showing::{MOST_SHOWN, show_text};
use streams::{MOST_READ, answer_input};

fn main(rt: HostRuntime) {
    let mut file = [0u8; MOST_READ];
    let mut place = [0u8; MOST_SHOWN];
    answer_input(
        &rt,
        &mut file,
        &mut place,
        |file, place| show_text(file, place),
    );
}
