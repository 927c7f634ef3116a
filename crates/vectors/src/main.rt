// Prints, for each file that an argument names, its name and what `planlist`, `judgelist` and `showlist` print for it.

#![tactic(auto)]

use cases::each_file;
use listing::{judge_text, plan_text};
use showing::{MOST_SHOWN, show_text};
use streams::print;

// All texts of a file.
fn print_texts<R: Print + Eprint>(rt: &R, file: &[u8]) {
    let mut place = [0u8; MOST_SHOWN];
    let planned = plan_text(file, &mut place);
    print(rt, &place, planned);
    let judged = judge_text(file, &mut place);
    print(rt, &place, judged);
    let shown = show_text(file, &mut place);
    print(rt, &place, shown);
}

fn main(rt: HostRuntime) {
    each_file(&rt, |file| print_texts(&rt, file));
}
