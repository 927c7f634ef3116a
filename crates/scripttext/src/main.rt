// `scripttext MAKER WHAT`: a script as text for a maker's console, of the deployment file on standard input.

#![tactic(auto)]

use asked::{What, called_maker, called_what};
use console::Maker;
use console_writer::MOST_TEXT;
use console_writer::files::{plan_one_text, plan_two_text, script_text};
use deployment::Refusal;
use streams::{MOST_READ, answer_input, print_whole};

// The text of a plan for the file's policies, or of its own script.
fn text_of(file: &[u8], maker: Maker, what: What, place: &mut [u8]) -> Result<usize, Refusal> {
    match what {
        What::One => plan_one_text(file, maker, place),
        What::Two => plan_two_text(file, maker, place),
        What::Own => script_text(file, maker, place),
    }
}

fn main(rt: HostRuntime) {
    let (Some(maker), Some(what)) = (called_maker(&rt), called_what(&rt)) else {
        print_whole(
            &rt,
            b"usage: scripttext MAKER WHAT: A or B, then 1, 2 or own\n",
        );
        return;
    };
    let mut file = [0u8; MOST_READ];
    let mut place = [0u8; MOST_TEXT];
    answer_input(&rt, &mut file, &mut place, |file, place| {
        text_of(file, maker, what, place)
    });
}
