// Reads rows of cases and prints what the reader answers to each: its refusal, or where its values stand.
// Each argument names a file with one row; a case is a file.

#![tactic(auto)]

use cases::{each_case, each_file, print_reading};
use reader::file::read;

fn main(rt: HostRuntime) {
    each_file(
        &rt,
        |row| each_case(row, |file| print_reading(&rt, read(file))),
    );
}
