// `planlist`: both plans for the deployment file on standard input.

#![tactic(auto)]

use listing::{MOST_TEXT, plan_text};
use streams::{MOST_READ, answer_input};

fn main(rt: HostRuntime) {
    let mut file = [0u8; MOST_READ];
    let mut place = [0u8; MOST_TEXT];
    answer_input(
        &rt,
        &mut file,
        &mut place,
        |file, place| plan_text(file, place),
    );
}
