// What the console programs are asked for, by the words that they are called with: a maker, and a type or the file's own script.

#![tactic(auto, using(crate::proofs::Letters::same_is), unfolding(lines::specs::Text::text, crate::specs::Words::maker_asked, crate::specs::Words::what_asked))]

ghost use Rattle.std.specs.Prelude.{◌≡◌};
ghost use Rattle.asked.specs.Words.{maker_asked, what_asked};

use console::Maker;
use std::env::{Env, FillError};

// Room for a word of the call; a longer one is taken for an empty one.
pub const WORD_ROOM: usize = 4096;

// Type 1, type 2, or the file's own script.
#[derive(Clone, Copy, Debug, PartialEq, Eq)]
pub enum What {
    One,
    Two,
    Own,
}

// Whether the call has a word at this place; the program's own name is at 0.
pub fn has_word<R: Env>(rt: &R, at: usize) -> bool {
    let mut word = [0u8; WORD_ROOM];
    !matches!(rt.arg(at, &mut word), Err(FillError::NotPresent))
}

// "MAKER is A or B"
pub fn maker_asked(word: &[u8]) -> Option<Maker>
    ensures { result ≡ maker_asked word.now }
{
    if word == b"A".as_slice() {
        return Some(Maker::A);
    }
    if word == b"B".as_slice() {
        return Some(Maker::B);
    }
    None
}

// "WHAT is 1 or 2 for the plan of that type, or `own` for the file's script"
pub fn what_asked(word: &[u8]) -> Option<What>
    ensures { result ≡ what_asked word.now }
{
    if word == b"1".as_slice() {
        return Some(What::One);
    }
    if word == b"2".as_slice() {
        return Some(What::Two);
    }
    if word == b"own".as_slice() {
        return Some(What::Own);
    }
    None
}

// The maker that the call names by its first word.
pub fn called_maker<R: Env>(rt: &R) -> Option<Maker> {
    let mut word = [0u8; WORD_ROOM];
    let n = rt.arg(1, &mut word).unwrap_or(0);
    maker_asked(&word[..n])
}

// What the call asks for by its second word; nothing where it has more words than two, or fewer.
pub fn called_what<R: Env>(rt: &R) -> Option<What> {
    if !has_word(rt, 2) || has_word(rt, 3) {
        return None;
    }
    let mut word = [0u8; WORD_ROOM];
    let n = rt.arg(2, &mut word).unwrap_or(0);
    what_asked(&word[..n])
}
