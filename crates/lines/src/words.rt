// Words and numbers, put into a lent place one behind the other; the answer is always the position behind what was put. What has no room
// in the place is left out.

ghost use Rattle.std.specs.Prelude.{◌+◌, ◌<◌, [], ◌∷◌, ◌++◌};
ghost use Rattle.lines.specs.Text.{decimal, spaced};
ghost use Rattle.lines.specs.Printing.{Puts};

use format::store;
use std::num::wrapping_add_usize;

// Numbers are printed in decimal digits, from the digit 0 on.
const TEN: usize = 10;

const ZERO: u8 = b'0';

// A fixed word.
pub fn put_word(place: &mut [u8], at: usize, word: &[u8]) -> usize
    ensures { Puts place.old at word.now place.new result }
{
    store(place, at, word);
    wrapping_add_usize(at, word.len())
}

// One digit.
fn put_digit(place: &mut [u8], at: usize, digit: usize) -> usize
    requires { digit < 10 }
    ensures { Puts place.old at ((48 + digit) ∷ []) place.new result }
{
    let one = [ZERO + (digit as u8)];
    put_word(place, at, &one)
}

// A number: the digits of its tenth part, then its last digit.
pub fn put_number(place: &mut [u8], at: usize, n: usize) -> usize
    ensures { Puts place.old at (decimal n) place.new result }
{
    if n < TEN {
        return put_digit(place, at, n);
    }
    let next = put_number(place, at, n / TEN);
    put_digit(place, next, n % TEN)
}

// A blank and a number.
pub fn put_spaced(place: &mut [u8], at: usize, n: usize) -> usize
    ensures { Puts place.old at (spaced n) place.new result }
{
    let next = put_word(place, at, b" ");
    put_number(place, next, n)
}

// A word, a blank and a number.
pub fn put_named(place: &mut [u8], at: usize, word: &[u8], n: usize) -> usize
    ensures { Puts place.old at (word.now ++ spaced n) place.new result }
{
    let next = put_word(place, at, word);
    put_spaced(place, next, n)
}
