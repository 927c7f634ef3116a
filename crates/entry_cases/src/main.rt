// Runs the entries on rows of cases and prints each whole answer, with a checksum of the place that was lent. Each argument names a row. A case is twelve
// numbers of two bytes (is it about field values, is there a default, is there a keep list, is there a script, the size of the place, a flow whose addresses
// have two numbers each), then its parts, themselves a row: the file; or the rules, both policies, the default, the keep list and the script; and last flows,
// for entries that take many.

#![tactic(auto)]

use cases::{
    bytes_at, checksum, each_case, each_file, given, next_place, print_bytes, print_number,
    print_reading, print_refusal,
};
use deployment::{Refusal, Why};
use entries::lists::Values;
use entries::{files, lists};
use format::number_at;
use plans::Plan;
use policy::{Action, Decision, Flow, Verdict};
use replay::Stop;

// What a lent place holds before a call.
const LENT: u8 = 165;

// The answers that fill a place.
#[derive(Clone, Copy, Debug, PartialEq, Eq)]
enum Filling {
    Replay,
    PlanOne,
    PlanTwo,
    ByInitial,
    ByTarget,
}

// Which word of the lines is which; a line's end stands with the next line's word.
const READ: usize = 0;

const TO_JUDGE: usize = 1;

const INITIAL_IS: usize = 2;

const TARGET_IS: usize = 3;

const JUDGE: usize = 4;

const REPLAY: usize = 5;

const PLAN_ONE: usize = 6;

const PLAN_TWO: usize = 7;

const BY_INITIAL: usize = 8;

const BY_TARGET: usize = 9;

const PLACE: usize = 10;

const END: usize = 11;

const PERMIT: usize = 12;

const DENY: usize = 13;

const GOOD: usize = 14;

const CHECK: usize = 15;

const VERDICT: usize = 16;

const ELSEWHERE: usize = 17;

const UNORDERED: usize = 18;

const NOT_FULL: usize = 19;

const SAFE: usize = 20;

const SPACE: usize = 21;

const BROKEN: usize = 22;

const AT: usize = 23;

const ENDED: usize = 24;

const KEPT: usize = 25;

const COMMANDS: usize = 26;

const AND_BYTES: usize = 27;

const BYTES: usize = 28;

// Which number of a case is which; an address is two of them.
const OVER_LISTS: usize = 0;

const HAS_DEFAULT: usize = 1;

const HAS_KEEP: usize = 2;

const HAS_SCRIPT: usize = 3;

const ROOM: usize = 4;

const PROTOCOL: usize = 5;

const SOURCE: usize = 6;

const SOURCE_LOW: usize = 7;

const SOURCE_PORT: usize = 8;

const DESTINATION: usize = 9;

const DESTINATION_LOW: usize = 10;

const DESTINATION_PORT: usize = 11;

// Where the parts of a case begin.
const PARTS: usize = 24;

// Which part is which.
const FILE: usize = 0;

const FILE_FLOWS: usize = 1;

const RULES: usize = 0;

const INITIAL: usize = 1;

const TARGET: usize = 2;

const DEFAULT: usize = 3;

const KEEP: usize = 4;

const SCRIPT: usize = 5;

const FLOWS: usize = 6;

// The place where the part with this number starts, of those that start at a place of a row.
fn part_place(row: &[u8], from: usize, number: usize) -> usize {
    let mut at = from;
    for _ in 0..number {
        at = next_place(row, at);
    }
    at
}

fn part<'a>(case: &'a [u8], number: usize) -> &'a [u8] {
    bytes_at(case, part_place(case, PARTS, number))
}

fn word<'a>(words: &'a [u8], number: usize) -> &'a [u8] {
    bytes_at(words, part_place(words, 0, number))
}

fn print<R: Print>(rt: &R, words: &[u8], number: usize) {
    print_bytes(rt, word(words, number));
}

fn say<R: Print>(rt: &R, words: &[u8], number: usize, n: usize) {
    print_number(rt, word(words, number), n);
}

fn print_decision<R: Print>(rt: &R, words: &[u8], decision: Decision) {
    match decision.action {
        Action::Permit => say(rt, words, PERMIT, decision.place),
        Action::Deny => say(rt, words, DENY, decision.place),
    }
}

fn print_decided<R: Print>(rt: &R, words: &[u8], answer: Result<Decision, Refusal>) {
    match answer {
        Err(refusal) => print_refusal(rt, refusal),
        Ok(decision) => print_decision(rt, words, decision),
    }
}

fn print_verdict<R: Print>(rt: &R, words: &[u8], verdict: Verdict) {
    match verdict {
        Verdict::Broken(fault, step) => {
            say(rt, words, VERDICT, u8::from(fault) as usize);
            say(rt, words, SPACE, step);
        }
        Verdict::Elsewhere(count) => say(rt, words, ELSEWHERE, count),
        Verdict::Unordered(step, place) => {
            say(rt, words, UNORDERED, step);
            say(rt, words, SPACE, place);
        }
        Verdict::NotFull => print(rt, words, NOT_FULL),
        Verdict::Safe => print(rt, words, SAFE),
    }
}

fn print_judged<R: Print>(rt: &R, words: &[u8], answer: Result<Verdict, Refusal>) {
    match answer {
        Err(refusal) => print_refusal(rt, refusal),
        Ok(verdict) => print_verdict(rt, words, verdict),
    }
}

fn print_checking<R: Print>(rt: &R, words: &[u8], answer: Result<(), Why>) {
    match answer {
        Ok(()) => print(rt, words, GOOD),
        Err(why) => {
            say(rt, words, CHECK, u8::from(why) as usize);
            print(rt, words, END);
        }
    }
}

fn print_ran<R: Print>(rt: &R, words: &[u8], answer: Result<usize, Stop<Refusal>>) {
    match answer {
        Err(Stop::Turned(refusal)) => print_refusal(rt, refusal),
        Ok(bytes) => say(rt, words, ENDED, bytes),
        Err(Stop::Broken(fault, step)) => {
            say(rt, words, BROKEN, u8::from(fault) as usize);
            say(rt, words, AT, step);
        }
    }
}

fn print_planned<R: Print>(rt: &R, words: &[u8], answer: Result<Plan, Refusal>) {
    match answer {
        Err(refusal) => print_refusal(rt, refusal),
        Ok(plan) => {
            say(rt, words, KEPT, plan.kept);
            say(rt, words, COMMANDS, plan.commands);
            say(rt, words, AND_BYTES, plan.bytes);
        }
    }
}

fn print_written<R: Print>(rt: &R, words: &[u8], answer: Result<usize, Refusal>) {
    match answer {
        Err(refusal) => print_refusal(rt, refusal),
        Ok(bytes) => say(rt, words, BYTES, bytes),
    }
}

fn joined(high: u16, low: u16) -> u32 {
    high as u32 * 65536 + low as u32
}

fn flow(case: &[u8]) -> Flow {
    Flow {
        protocol: (number_at(case, PROTOCOL) % 256) as u8,
        source: joined(number_at(case, SOURCE), number_at(case, SOURCE_LOW)),
        source_port: number_at(case, SOURCE_PORT),
        destination: joined(
            number_at(case, DESTINATION),
            number_at(case, DESTINATION_LOW),
        ),
        destination_port: number_at(case, DESTINATION_PORT),
    }
}

fn read_file<R: Print>(rt: &R, words: &[u8], file: &[u8], flow: Flow) {
    print(rt, words, READ);
    print_reading(rt, files::read(file));
    print(rt, words, TO_JUDGE);
    print_reading(rt, files::read_to_judge(file));
    print(rt, words, INITIAL_IS);
    print_decided(rt, words, files::decide(file, false, flow));
    print(rt, words, TARGET_IS);
    print_decided(rt, words, files::decide(file, true, flow));
    print(rt, words, JUDGE);
    print_judged(rt, words, files::judge(file));
}

// A part that is there if the number says so.
fn part_if<'a>(case: &'a [u8], flag: usize, number: usize) -> Option<&'a [u8]> {
    given(number_at(case, flag) == 1, part(case, number))
}

fn values<'a>(case: &'a [u8]) -> Values<'a> {
    Values {
        rules: part(case, RULES),
        initial: part(case, INITIAL),
        target: part(case, TARGET),
        default: part_if(case, HAS_DEFAULT, DEFAULT),
        keep: part_if(case, HAS_KEEP, KEEP),
        script: part_if(case, HAS_SCRIPT, SCRIPT),
    }
}

fn check_lists(case: &[u8]) -> Result<(), Why> {
    lists::check(&values(case))
}

fn decide_list(case: &[u8], list: usize, flow: Flow) -> Result<Decision, Refusal> {
    lists::decide(
        part(case, RULES),
        part(case, list),
        part_if(case, HAS_DEFAULT, DEFAULT),
        flow,
    )
}

// The judge's script is there whatever the case says.
fn judge_lists(case: &[u8]) -> Result<Verdict, Refusal> {
    let judged = Values {
        script: Some(part(case, SCRIPT)),
        ..values(case)
    };
    lists::judge(&judged)
}

fn read_lists<R: Print>(rt: &R, words: &[u8], case: &[u8], flow: Flow) {
    print_checking(rt, words, check_lists(case));
    print(rt, words, INITIAL_IS);
    print_decided(rt, words, decide_list(case, INITIAL, flow));
    print(rt, words, TARGET_IS);
    print_decided(rt, words, decide_list(case, TARGET, flow));
    print(rt, words, JUDGE);
    print_judged(rt, words, judge_lists(case));
}

fn replay_lists(case: &[u8], place: &mut [u8]) -> Result<usize, Stop<Refusal>> {
    lists::replay(
        part(case, RULES),
        part(case, INITIAL),
        part_if(case, HAS_DEFAULT, DEFAULT),
        part(case, SCRIPT),
        place,
    )
}

fn decide_lists(case: &[u8], list: usize, place: &mut [u8]) -> Result<usize, Refusal> {
    lists::decide_flows(
        part(case, RULES),
        part(case, list),
        part_if(case, HAS_DEFAULT, DEFAULT),
        part(case, FLOWS),
        place,
    )
}

fn fill_by_lists<R: Print>(rt: &R, words: &[u8], case: &[u8], asked: Filling, place: &mut [u8]) {
    match asked {
        Filling::Replay => print_ran(rt, words, replay_lists(case, place)),
        Filling::PlanOne => print_planned(rt, words, lists::plan_one(&values(case), place)),
        Filling::PlanTwo => print_planned(rt, words, lists::plan_two(&values(case), place)),
        Filling::ByInitial => print_written(rt, words, decide_lists(case, INITIAL, place)),
        Filling::ByTarget => print_written(rt, words, decide_lists(case, TARGET, place)),
    }
}

fn decide_file(case: &[u8], of_target: bool, place: &mut [u8]) -> Result<usize, Refusal> {
    files::decide_flows(part(case, FILE), of_target, part(case, FILE_FLOWS), place)
}

fn fill_by_file<R: Print>(rt: &R, words: &[u8], case: &[u8], asked: Filling, place: &mut [u8]) {
    match asked {
        Filling::Replay => print_ran(rt, words, files::replay(part(case, FILE), place)),
        Filling::PlanOne => print_planned(rt, words, files::plan_one(part(case, FILE), place)),
        Filling::PlanTwo => print_planned(rt, words, files::plan_two(part(case, FILE), place)),
        Filling::ByInitial => print_written(rt, words, decide_file(case, false, place)),
        Filling::ByTarget => print_written(rt, words, decide_file(case, true, place)),
    }
}

fn is_over_lists(case: &[u8]) -> bool {
    number_at(case, OVER_LISTS) == 1
}

fn fill<R: Print>(rt: &R, words: &[u8], case: &[u8], asked: Filling, place: &mut [u8]) {
    if is_over_lists(case) {
        fill_by_lists(rt, words, case, asked, place);
    } else {
        fill_by_file(rt, words, case, asked, place);
    }
}

fn print_filled<R: Print>(rt: &R, words: &[u8], case: &[u8], asked: Filling, place: &mut [u8]) {
    fill(rt, words, case, asked, place);
    say(rt, words, PLACE, checksum(place, true) as usize);
}

// The word before the answer.
fn word_before(asked: Filling) -> usize {
    match asked {
        Filling::Replay => REPLAY,
        Filling::PlanOne => PLAN_ONE,
        Filling::PlanTwo => PLAN_TWO,
        Filling::ByInitial => BY_INITIAL,
        Filling::ByTarget => BY_TARGET,
    }
}

// The lent place is the first bytes of a room that has as many as two bytes can say.
fn print_lent<R: Print>(rt: &R, words: &[u8], case: &[u8], asked: Filling) {
    let mut room = [LENT; 65536];
    let size = number_at(case, ROOM) as usize;
    print(rt, words, word_before(asked));
    print_filled(rt, words, case, asked, &mut room[..size]);
}

fn print_read<R: Print>(rt: &R, words: &[u8], case: &[u8]) {
    if is_over_lists(case) {
        read_lists(rt, words, case, flow(case));
    } else {
        read_file(rt, words, part(case, FILE), flow(case));
    }
}

fn print_case<R: Print>(rt: &R, words: &[u8], case: &[u8]) {
    print_read(rt, words, case);
    print_lent(rt, words, case, Filling::Replay);
    print_lent(rt, words, case, Filling::PlanOne);
    print_lent(rt, words, case, Filling::PlanTwo);
    print_lent(rt, words, case, Filling::ByInitial);
    print_lent(rt, words, case, Filling::ByTarget);
    print(rt, words, END);
}

fn main(rt: HostRuntime) {
    // The words of all lines are a row, each behind its length.
    let words =
        b"\x00\x05read \x00\x0eread to judge \x00\x08initial \x00\x08\ntarget \x00\x07\njudge \x00\x08\nreplay \x00\x08\nplan 1 \x00\x08\nplan 2 \x00\x12\nflows by initial \x00\x11\nflows by target \x00\x07 place \x00\x01\n\x00\x07permit \x00\x05deny \x00\x0bcheck good\n\x00\x06check \x00\x08verdict \x00\x0bverdict 24 \x00\x0bverdict 30 \x00\x0averdict 31\x00\x0averdict 32\x00\x01 \x00\x07broken \x00\x04 at \x00\x06ended \x00\x05kept \x00\x0a commands \x00\x07 bytes \x00\x06bytes ";
    each_file(
        &rt,
        |row| each_case(row, |case| print_case(&rt, words, case)),
    );
}
