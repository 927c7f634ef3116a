// Commands in a maker's words. The table of words is here, once: the printers write by it, and the reader of console text compares by it.

ghost use Rattle.console.specs.Makers.{said};
ghost use Rattle.deployment.specs.FieldValues.{lent};
ghost use Rattle.lines.specs.Text.{words_of, move_words, second_text, command_text};
ghost use Rattle.lines.specs.Printing.{Puts, Holds};

use super::words::{put_number, put_word};
use console::{Maker, in_words};
use policy::Command;

// The fixed words of a command: its name, and, if it has two numbers, what stands between them.
#[derive(Clone, Copy)]
pub struct Phrase {
    pub name: &'static [u8],
    pub between: Option<&'static [u8]>,
}

// "B differs in one: `move i before b`"
fn move_phrase(maker: Maker) -> Phrase
    ensures { Holds result (move_words maker) }
{
    match maker {
        Maker::A => Phrase {
            name: b"mov ",
            between: Some(b" "),
        },
        Maker::B => Phrase {
            name: b"move ",
            between: Some(b" before "),
        },
    }
}

// The words of each code, in the words of a maker.
pub fn phrase_of(maker: Maker, code: u8) -> Phrase
    ensures { Holds result (words_of maker code) }
{
    match code {
        Command::APP => Phrase {
            name: b"app ",
            between: None,
        },
        Command::DEL_RULE | Command::DEL_PLACE => Phrase {
            name: b"del ",
            between: None,
        },
        Command::INS => Phrase {
            name: b"ins ",
            between: Some(b" "),
        },
        _ => move_phrase(maker),
    }
}

// The second number behind its word, if there is one.
fn put_second(place: &mut [u8], at: usize, between: Option<&[u8]>, n: usize) -> usize
    ensures { Puts place.old at (second_text (lent between.entry) n) place.new result }
{
    match between {
        None => at,
        Some(word) => {
            let next = put_word(place, at, word);
            put_number(place, next, n)
        }
    }
}

// "the command's name and its numbers", in the words of a maker.
pub fn put_command(place: &mut [u8], at: usize, maker: Maker, c: Command) -> usize
    ensures { Puts place.old at (command_text maker (said maker c)) place.new result }
{
    let worded = in_words(maker, c);
    let phrase = phrase_of(maker, worded.code);
    let mut next = put_word(place, at, phrase.name);
    next = put_number(place, next, worded.one);
    put_second(place, next, phrase.between, worded.two)
}
