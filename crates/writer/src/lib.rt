// The writer of the deployment file: from field values that are accepted to a file in a lent place. Nothing is written before the room is
// tested; values are tested by the crate `entries`.

#![tactic(auto)]

ghost use Rattle.std.specs.Prelude.{◌≡◌, ◌+◌, ◌*◌, ◌/◌, ◌≤◌, ◌<◌, length};
ghost use Rattle.deployment.specs.File.{field_bytes};
ghost use Rattle.deployment.specs.FieldValues.{lent, left_by, writing, Stored};
ghost use Rattle.writer.specs.Answers.{rules_bytes, lists_bytes, given_bytes, field_if, bytes_if, lists_needed, needed};

use deployment::{Refusal, Why};
use format::{
    DEFAULT_TAG, HEAD_BYTES, INITIAL_TAG, KEEP_TAG, RULE_BYTES, RULE_TAG, SCRIPT_TAG, TARGET_TAG,
    store,
};
use values::lists::Values;

// Writes the file of accepted field values into the first bytes of `place`. 13 where the place is too small: it then keeps its bytes.
pub fn write_into(values: &Values<'_>, place: &mut [u8]) -> Result<usize, Refusal>
    requires { needed values.now < 65536 }
    ensures { left_by result place.new ≡ writing (given_bytes values.now) place.old }
{
    let needed = bytes_needed(values);
    if place.len() < needed {
        return Err(Refusal {
            why: Why::Room,
            at: needed,
        });
    }
    let mut at = put_lists(place, values);
    at = put_if(place, at, DEFAULT_TAG, values.default);
    at = put_if(place, at, KEEP_TAG, values.keep);
    at = put_if(place, at, SCRIPT_TAG, values.script);
    Ok(at)
}

// The fields of the rules and of both policies, from the start on.
fn put_lists(place: &mut [u8], values: &Values<'_>) -> usize
    requires { (lists_needed (length values.now.rules) (length values.now.initial) (length values.now.target) ≤ length place.old)
        × (length values.now.initial < 65536) × (length values.now.target < 65536) }
    ensures { Stored place.old 0 (lists_bytes values.now.rules values.now.initial values.now.target) place.new result }
{
    let mut at = put_rules(place, values.rules);
    at = put_field(place, at, INITIAL_TAG, values.initial);
    put_field(place, at, TARGET_TAG, values.target)
}

// "a one-byte tag, a two-byte length, the value", from `at` on; the answer is the position behind it.
fn put_field(place: &mut [u8], at: usize, tag: u8, value: &[u8]) -> usize
    requires { (at + (3 + length value.now) ≤ length place.old) × (length value.now < 65536) }
    ensures { Stored place.old at (field_bytes tag value.now) place.new result }
{
    let size = value.len();
    place[at] = tag;
    place[at + 1] = (size / 256) as u8;
    place[at + 2] = (size % 256) as u8;
    let start = at + HEAD_BYTES;
    store(place, start, value);
    start + size
}

// The same for a field that may be absent.
fn put_if(place: &mut [u8], at: usize, tag: u8, value: Option<&[u8]>) -> usize
    requires { (at + bytes_if (lent value) ≤ length place.old) × (bytes_if (lent value) < 65536) }
    ensures { Stored place.old at (field_if tag (lent value.entry)) place.new result }
{
    match value {
        Some(value) => put_field(place, at, tag, value),
        None => at,
    }
}

// A field for each rule, from the start on.
fn put_rules(place: &mut [u8], rules: &[u8]) -> usize
    requires { length rules.now / 27 * 30 ≤ length place.old }
    ensures { Stored place.old 0 (rules_bytes (length rules.now / 27) rules.now) place.new result }
{
    let mut at = 0;
    for rule in rules.chunks_exact(RULE_BYTES) {
        at = put_field(place, at, RULE_TAG, rule);
    }
    at
}

// How many bytes a field that may be absent needs.
fn bytes_if(value: Option<&[u8]>) -> usize
    requires { bytes_if (lent value) < 65536 }
    ensures { result ≡ bytes_if (lent value.entry) }
{
    match value {
        Some(value) => HEAD_BYTES + value.len(),
        None => 0,
    }
}

// 13: the bytes needed for values.
fn bytes_needed(values: &Values<'_>) -> usize
    requires { needed values.now < 65536 }
    ensures { result ≡ needed values.now }
{
    let lists = HEAD_BYTES + values.initial.len() + HEAD_BYTES + values.target.len();
    values.rules.len() / RULE_BYTES * (HEAD_BYTES + RULE_BYTES)
        + lists
        + bytes_if(values.default)
        + bytes_if(values.keep)
        + bytes_if(values.script)
}
