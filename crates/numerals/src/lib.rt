// Numbers in decimal digits, read from a text at a position and as a whole word. What a number is stands in specs/Numerals.antt.

#![tactic(auto)]

ghost use Rattle.std.specs.Prelude.{◌+◌, ◌*◌, ◌-◌, ◌≤◌, ◌≡◌, true, length, drop};
ghost use Rattle.numerals.specs.Numerals.{is_digit, goes_on, numeral_read, number_of};
ghost use Rattle.numerals.specs.Found.{most_held, held, Left, NumberFound, whole_held};

const ZERO: u8 = b'0';

const NINE: u8 = b'9';

// Above every bound: stands for itself and all numbers above it.
const MOST_HELD: usize = 65537;

// A number, and the position behind it.
#[derive(Clone, Copy)]
pub struct Number {
    pub value: usize,
    pub end: usize,
}

// "numbers": a decimal digit.
fn is_digit(byte: u8) -> bool
    ensures { result ≡ is_digit byte }
{
    ZERO <= byte && byte <= NINE
}

// A number with one more digit.
fn with_digit(n: usize, digit: u8) -> usize
    requires { (n ≤ most_held) × (is_digit digit ≡ true) }
    ensures { result ≡ held (10 * n + (digit - 48)) }
{
    let more = 10 * n + (digit - ZERO) as usize;
    more.min(MOST_HELD)
}

// The digits that follow, behind those of a number.
fn digits_from(text: &[u8], at: usize, n: usize) -> Number
    requires { (at ≤ length text.now) × (n ≤ most_held) }
    ensures { (result.value ≡ held (goes_on n (drop at text.now)).value)
        × Left text.now result.end (goes_on n (drop at text.now)).rest }
{
    let mut value = n;
    let mut end = at;
    // Kept: a `for` over the bytes would count `end` by hand beside them.
    while end < text.len() && is_digit(text[end]) {
        value = with_digit(value, text[end]);
        end += 1;
    }
    Number { value, end }
}

// The number that stands at a position; "numbers have no leading zeros". Past the end of the text none stands.
pub fn number_at(text: &[u8], at: usize) -> Option<Number>
    ensures { NumberFound text.now (numeral_read (drop at text.now)) result }
{
    if text.len() <= at {
        return None;
    }
    let first = text[at];
    if !is_digit(first) {
        return None;
    }
    if first == ZERO {
        return Some(Number {
            value: 0,
            end: at + 1,
        });
    }
    Some(digits_from(text, at + 1, (first - ZERO) as usize))
}

// The number that a whole word is: its digits, and nothing behind them.
pub fn number_of(word: &[u8]) -> Option<usize>
    ensures { result ≡ whole_held (number_of word.now) }
{
    let number = number_at(word, 0)?;
    if number.end < word.len() {
        return None;
    }
    Some(number.value)
}
