// `judgelist`: the verdict on the script in the deployment file on standard input.

#![tactic(auto)]

use listing::{MOST_TEXT, judge_text};
use streams::{MOST_READ, answer_input};

fn main(rt: HostRuntime) {
    let mut file = [0u8; MOST_READ];
    let mut place = [0u8; MOST_TEXT];
    answer_input(
        &rt,
        &mut file,
        &mut place,
        |file, place| judge_text(file, place),
    );
}
