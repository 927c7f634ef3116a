// The catalogue: its count, and a line for each rule.

ghost use Rattle.std.specs.Prelude.{◌≡◌, ◌+◌, ◌*◌, ◌≤◌, ◌++◌, length, take};
ghost use Rattle.deployment.specs.Values.{rule_of, range_at};
ghost use Rattle.deployment.specs.Catalogue.{catalogue_of};
ghost use Rattle.lines.specs.Printing.{Puts};
ghost use Rattle.rule_lines.specs.Text.{action_text, end_text, ends_text, rule_text, rules_text, catalogue_text};

use super::heads::{LINE_END, put_head, put_sign};
use super::ranges::{ADDRESS_WIDTH, PORT_WIDTH, PROTOCOL_WIDTH, put_labelled};
use format::{HEAD_BYTES, RULE_BYTES};
use lines::words::{put_number, put_word};

// "action (0 deny, 1 permit)"
const PERMIT: u8 = 1;

// Where the ranges of a rule start: that of the protocol, and those of each end, addresses before ports.
const PROTOCOL: usize = 1;

const SOURCE: usize = 3;

const DESTINATION: usize = 15;

// A rule's field in a file: its head and the rule.
const RULE_FIELD_BYTES: usize = HEAD_BYTES + RULE_BYTES;

// The action of a rule.
fn put_action(place: &mut [u8], at: usize, rule: &[u8]) -> usize
    requires { length rule.now ≡ 27 }
    ensures { Puts place.old at (action_text (rule_of rule.now).action) place.new result }
{
    if rule[0] == PERMIT {
        return put_word(place, at, b" permit");
    }
    put_word(place, at, b" deny")
}

// A label, and behind it the addresses and the ports of an end, which starts at a byte of the rule.
fn put_end(place: &mut [u8], at: usize, label: &[u8], rule: &[u8], start: usize) -> usize
    requires { start + 12 ≤ length rule.now }
    ensures { Puts place.old at
        (label.now ++ end_text (range_at start 4 rule.now) (range_at (start + 8) 2 rule.now))
        place.new result }
{
    let next = put_labelled(place, at, label, rule, start, ADDRESS_WIDTH);
    let ports = start + 2 * ADDRESS_WIDTH.bytes;
    put_labelled(place, next, b" port ", rule, ports, PORT_WIDTH)
}

// Both ends of a rule, and the end of its line.
fn put_ends(place: &mut [u8], at: usize, rule: &[u8]) -> usize
    requires { length rule.now ≡ 27 }
    ensures { Puts place.old at (ends_text (rule_of rule.now)) place.new result }
{
    let mut next = put_end(place, at, b" source ", rule, SOURCE);
    next = put_end(place, next, b" destination ", rule, DESTINATION);
    put_sign(place, next, LINE_END)
}

// The line of the k-th rule.
fn put_rule(place: &mut [u8], at: usize, k: usize, rule: &[u8]) -> usize
    requires { length rule.now ≡ 27 }
    ensures { Puts place.old at (rule_text k (rule_of rule.now)) place.new result }
{
    let mut next = put_number(place, at, k);
    next = put_action(place, next, rule);
    next = put_labelled(place, next, b" protocol ", rule, PROTOCOL, PROTOCOL_WIDTH);
    put_ends(place, next, rule)
}

// A line for each of the first `count` rules of a file, numbered from 0.
fn put_rules(place: &mut [u8], at: usize, file: &[u8], count: usize) -> usize
    requires { count * 30 ≤ length file.now }
    ensures { Puts place.old at (rules_text 0 (take count (catalogue_of 3 file.now))) place.new result }
{
    let mut next = at;
    for k in 0..count {
        let start = k * RULE_FIELD_BYTES + HEAD_BYTES;
        next = put_rule(place, next, k, &file[start..start + RULE_BYTES]);
    }
    next
}

// How many rules of a file are shown: the first `count`, or all where it has fewer.
fn shown(file: &[u8], count: usize) -> usize
    ensures { (result * 30 ≤ length file.now)
        × (take result (catalogue_of 3 file.now) ≡ take count (catalogue_of 3 file.now)) }
{
    count.min(file.len() / RULE_FIELD_BYTES)
}

// How many of the first `count` rules there are, and their lines.
pub fn put_catalogue(place: &mut [u8], at: usize, file: &[u8], count: usize) -> usize
    ensures { Puts place.old at (catalogue_text (take count (catalogue_of 3 file.now))) place.new result }
{
    let rules = shown(file, count);
    let next = put_head(place, at, b"rules", rules);
    put_rules(place, next, file, rules)
}
