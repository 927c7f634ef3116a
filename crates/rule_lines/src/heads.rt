// Signs, and the heads that stand above lines: a word, a number and the end of the line.

ghost use Rattle.std.specs.Prelude.{[], ◌∷◌, ◌++◌};
ghost use Rattle.lines.specs.Text.{text, spaced};
ghost use Rattle.lines.specs.Printing.{Puts};

use lines::words::{put_named, put_word};

pub const LINE_END: u8 = b'\n';

// A single sign.
pub fn put_sign(place: &mut [u8], at: usize, sign: u8) -> usize
    ensures { Puts place.old at (sign ∷ []) place.new result }
{
    let one = [sign];
    put_word(place, at, &one)
}

// A word, a blank, a number and the end of the line.
pub fn put_head(place: &mut [u8], at: usize, word: &[u8], n: usize) -> usize
    ensures { Puts place.old at ((word.now ++ spaced n) ++ text "\n") place.new result }
{
    let next = put_named(place, at, word, n);
    put_sign(place, next, LINE_END)
}
