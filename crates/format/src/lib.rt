// The format in code: its tags and sizes, and its leaves, which read numbers, lists and records from bytes and store bytes in a place. Each
// answers for every slice and every place in it. The commands of a script are read and written by crate `commands`.

#![tactic(auto)]

ghost use Rattle.std.specs.Prelude.{◌≡◌, [], ◌∷◌, ◌+◌, ◌≤◌, ◌↔◌, IsTrue, length, get_or, take};
ghost use Rattle.std.proofs.lemmas.List.Edits.{sets};
ghost use Rattle.policy.specs.Policy.{most_rules};
ghost use Rattle.running.specs.Running.{view};
ghost use Rattle.deployment.specs.Bytes.{number, number_at};
ghost use Rattle.deployment.specs.Values.{numbers_of};
ghost use Rattle.deployment.specs.Catalogue.{records_of};

use policy::MOST_RULES;
use running::Running;

// The tags: "01 a rule, 02 initial policy, 03 target policy, 04 keep list, 05 script"; and 06 a default.
pub const RULE_TAG: u8 = 1;

pub const INITIAL_TAG: u8 = 2;

pub const TARGET_TAG: u8 = 3;

pub const KEEP_TAG: u8 = 4;

pub const SCRIPT_TAG: u8 = 5;

pub const DEFAULT_TAG: u8 = 6;

// "a one-byte tag, a two-byte length"
pub const HEAD_BYTES: usize = 3;

// "a rule, 27 bytes"
pub const RULE_BYTES: usize = 27;

// A rule's field: its head and its value.
pub const RULE_FIELD_BYTES: usize = HEAD_BYTES + RULE_BYTES;

// A default, "length 1", and its "value 1 means permit".
pub const DEFAULT_BYTES: usize = 1;

pub const PERMIT: u8 = 1;

// "two-byte rule numbers"
pub const NUMBER_BYTES: usize = 2;

// "then five bytes a command", behind the type byte
pub const COMMAND_BYTES: usize = 5;

// The greatest length of a list value, 512 numbers of two bytes, and of a script value, a type byte and 2,048 commands of five bytes.
pub const LIST_BYTES: usize = 1024;

pub const SCRIPT_BYTES: usize = 10241;

// Stores the value's bytes in the place, from `at` on; bytes that have no room there are left out.
pub fn store(place: &mut [u8], at: usize, value: &[u8])
    ensures { place.new ≡ sets place.old at value.now }
{
    if place.len() <= at {
        return;
    }
    let count = value.len().min(place.len() - at);
    // Byte by byte: `copy_from_slice` here made the library for C need `memmove` from outside.
    for k in 0..count {
        place[at + k] = value[k];
    }
}

// "All numbers are big-endian": the number that the bytes are, of which there are four at most.
pub fn number_of(bytes: &[u8]) -> u32
    requires { length bytes.now ≤ 4 }
    ensures { result ≡ number bytes.now }
{
    let mut n = 0;
    for b in bytes {
        n = n * 256 + u32::from(*b);
    }
    n
}

// The number of two bytes.
pub fn two(a: u8, b: u8) -> u16
    ensures { result ≡ number (a ∷ b ∷ []) }
{
    number_of(&[a, b]) as u16
}

// Whether so many bytes stand from `at` on, of `size` in all.
fn stand(size: usize, at: usize, width: usize) -> bool
    ensures { IsTrue result ↔ at + width ≤ size }
{
    at <= size && width <= size - at
}

// The number of two bytes from `at` on, and of four; 0 where they don't all stand there.
pub fn two_at(bytes: &[u8], at: usize) -> u16
    ensures { result ≡ number_at at 2 bytes.now }
{
    if stand(bytes.len(), at, 2) {
        return number_of(&bytes[at..at + 2]) as u16;
    }
    0
}

pub fn four_at(bytes: &[u8], at: usize) -> u32
    ensures { result ≡ number_at at 4 bytes.now }
{
    if stand(bytes.len(), at, 4) {
        return number_of(&bytes[at..at + 4]);
    }
    0
}

// How many rule numbers a list value has.
pub fn listed(value: &[u8]) -> usize
    ensures { result ≡ length (numbers_of value.now) }
{
    value.len() / NUMBER_BYTES
}

// The k-th rule number of a list value, counted from 0; 0 past its end.
pub fn number_at(value: &[u8], k: usize) -> u16
    ensures { result ≡ get_or (numbers_of value.now) k 0 }
{
    if listed(value) <= k {
        return 0;
    }
    let at = NUMBER_BYTES * k;
    number_of(&value[at..at + NUMBER_BYTES]) as u16
}

// The list of a value as a running list: its first 1,024 numbers.
pub fn list_of(value: &[u8]) -> Running
    ensures { view result ≡ take most_rules (numbers_of value.now) }
{
    let len = listed(value).min(MOST_RULES);
    let mut rules = [0u16; MOST_RULES];
    for k in 0..len {
        rules[k] = number_at(value, k);
    }
    Running { rules, len }
}

// The k-th record of a catalogue, counted from 0; `skip` bytes stand before each. Nothing past the last.
pub fn record_at<'a>(rules: &'a [u8], skip: u8, k: usize) -> &'a [u8]
    ensures { result.now ≡ get_or (records_of skip rules.now) k [] }
{
    let step = skip as usize + RULE_BYTES;
    if rules.len() / step <= k {
        return &rules[..0];
    }
    let at = k * step + skip as usize;
    &rules[at..at + RULE_BYTES]
}
