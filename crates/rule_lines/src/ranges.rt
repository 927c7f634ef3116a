// Numbers of a rule, and ranges of them, by their width in bytes.

ghost use Rattle.std.specs.Prelude.{◌≡◌, ◌+◌, ◌*◌, ◌-◌, ◌^◌, ◌%◌, ◌≤◌, length, ◌++◌};
ghost use Rattle.deployment.specs.Bytes.{number, part};
ghost use Rattle.deployment.specs.Values.{range_at};
ghost use Rattle.lines.specs.Text.{text, decimal};
ghost use Rattle.lines.specs.Printing.{Puts};
ghost use Rattle.rule_lines.specs.Text.{value_text, range_text};

use super::heads::put_sign;
use lines::words::{put_number, put_word};

// How many bytes a number has, and the highest number of that width.
#[derive(Clone, Copy)]
pub struct Width {
    pub bytes: usize,
    pub highest: usize,
}

pub const PROTOCOL_WIDTH: Width = Width {
    bytes: 1,
    highest: 255,
};

pub const PORT_WIDTH: Width = Width {
    bytes: 2,
    highest: 65535,
};

pub const ADDRESS_WIDTH: Width = Width {
    bytes: 4,
    highest: 4294967295,
};

const BYTE: usize = 256;

// The number of so many bytes at a place of a rule.
fn number_of(rule: &[u8], start: usize, width: usize) -> usize
    requires { (start + width ≤ length rule.now) × (width ≤ 4) }
    ensures { result ≡ number (part start width rule.now) }
{
    format::number_of(&rule[start..start + width]) as usize
}

// The last byte of a number, and a dot behind it.
fn put_dotted(place: &mut [u8], at: usize, n: usize) -> usize
    ensures { Puts place.old at (decimal (n % 256) ++ text ".") place.new result }
{
    let next = put_number(place, at, n % BYTE);
    put_sign(place, next, b'.')
}

// An address: its four bytes with dots between.
fn put_address(place: &mut [u8], at: usize, n: usize) -> usize
    ensures { Puts place.old at (value_text 4 n) place.new result }
{
    let third = n / BYTE;
    let second = third / BYTE;
    let mut next = put_dotted(place, at, second / BYTE);
    next = put_dotted(place, next, second);
    next = put_dotted(place, next, third);
    put_number(place, next, n % BYTE)
}

// A number of so many bytes.
fn put_value(place: &mut [u8], at: usize, bytes: usize, n: usize) -> usize
    ensures { Puts place.old at (value_text bytes n) place.new result }
{
    if bytes == ADDRESS_WIDTH.bytes {
        return put_address(place, at, n);
    }
    put_number(place, at, n)
}

// A range, by its bounds: `any` where it has all numbers, a single one as itself, others as `low-high`.
fn put_bounds(place: &mut [u8], at: usize, width: Width, low: usize, high: usize) -> usize
    requires { width.highest + 1 ≡ 256 ^ width.bytes }
    ensures { Puts place.old at (range_text width.bytes (record { low = low; high = high })) place.new result }
{
    if low == 0 && high == width.highest {
        return put_word(place, at, b"any");
    }
    let mut next = put_value(place, at, width.bytes, low);
    if low == high {
        return next;
    }
    next = put_sign(place, next, b'-');
    put_value(place, next, width.bytes, high)
}

// The range at a place of a rule: low, then high.
fn put_range(place: &mut [u8], at: usize, rule: &[u8], start: usize, width: Width) -> usize
    requires { (start + width.bytes + width.bytes ≤ length rule.now) × (width.bytes ≤ 4) × (width.highest + 1 ≡ 256 ^ width.bytes) }
    ensures { Puts place.old at (range_text width.bytes (range_at start width.bytes rule.now)) place.new result }
{
    let low = number_of(rule, start, width.bytes);
    let high = number_of(rule, start + width.bytes, width.bytes);
    put_bounds(place, at, width, low, high)
}

// A label, and behind it the range at a place of a rule.
pub fn put_labelled(
    place: &mut [u8],
    at: usize,
    label: &[u8],
    rule: &[u8],
    start: usize,
    width: Width,
) -> usize
    requires { (start + width.bytes + width.bytes ≤ length rule.now) × (width.bytes ≤ 4) × (width.highest + 1 ≡ 256 ^ width.bytes) }
    ensures { Puts place.old at (label.now ++ range_text width.bytes (range_at start width.bytes rule.now))
        place.new result }
{
    let next = put_word(place, at, label);
    put_range(place, next, rule, start, width)
}
