// A line of the `*filter` part of a listing: what it is, and the record of its rule. What lines mean stands in `iptables`.

#![tactic(auto)]

ghost use Rattle.std.specs.Prelude.{◌≡◌, ◌&&◌, ◌∷◌, not, eqb, ltb};
ghost use Rattle.std.specs.List.{list_all};
ghost use Rattle.lines.specs.Text.{text};
ghost use Rattle.iptables.specs.Words.{blank, colon, parted, starts_with, is_name};
ghost use Rattle.iptables.specs.Listing.{is_number, two_numbers, are_counters, forward_read, other_chain, append_read, words_read, is_filter, line_read};
ghost use Rattle.iptables_rule.specs.Found.{words_from};
ghost use Rattle.iptables_lines.specs.Told.{line_told};

use deployment::Why;
use format::RULE_BYTES;
use iptables_rule::{rule_of, target_of};
use iptables_words::cut;
use numerals::number_of;
use policy::Action;

const BLANK: u8 = b' ';

const COLON: u8 = b':';

const STAR: u8 = b'*';

const HASH: u8 = b'#';

const OPENING: u8 = b'[';

const CLOSING: u8 = b']';

const QUOTE: u8 = b'"';

// What a line is; a rule by its record.
#[derive(Clone, Copy)]
pub enum Line {
    Opens,
    Closes,
    Default(Action),
    Rule([u8; RULE_BYTES]),
    Passed,
}

// Whether bytes start with this one.
fn starts_with(bytes: &[u8], first: u8) -> bool
    ensures { result ≡ starts_with first bytes.now }
{
    bytes.len() != 0 && bytes[0] == first
}

// Whether no byte is a blank, a control character or a quotation mark.
fn are_plain(bytes: &[u8]) -> bool
    ensures { result ≡ list_all (λ b. ltb blank b && not (eqb b 34)) bytes.now }
{
    bytes.iter().all(|byte| BLANK < *byte && *byte != QUOTE)
}

// A chain's name: at least one byte, none of them a blank, a control character or a quotation mark.
fn is_name(name: &[u8]) -> bool
    ensures { result ≡ is_name name.now }
{
    name.len() != 0 && are_plain(name)
}

// A number of any size.
fn is_number(word: &[u8]) -> bool
    ensures { result ≡ is_number word.now }
{
    number_of(word).is_some()
}

// Two numbers, with a colon between them.
fn two_numbers(counters: &[u8]) -> bool
    ensures { result ≡ two_numbers (parted colon counters.now) }
{
    let end = cut(counters, 0, COLON);
    if end == counters.len() {
        return false;
    }
    let bytes = &counters[end + 1..];
    if cut(bytes, 0, COLON) != bytes.len() {
        return false;
    }
    is_number(&counters[..end]) && is_number(bytes)
}

// "`[n:n]`"
fn are_counters(word: &[u8]) -> bool
    ensures { result ≡ are_counters word.now }
{
    let size = word.len();
    if size < 2 || word[0] != OPENING || word[size - 1] != CLOSING {
        return false;
    }
    two_numbers(&word[1..size - 1])
}

// "`:FORWARD ACCEPT|DROP [n:n]`": the words behind the first, which ends at a position.
fn default_read(line: &[u8], at: usize) -> Result<Line, Why>
    ensures { result ≡ line_told (forward_read (words_from at line.now)) }
{
    if line.len() <= at {
        return Err(Why::NotRead);
    }
    let middle = cut(line, at + 1, BLANK);
    if middle == line.len() {
        return Err(Why::NotRead);
    }
    let counters = &line[middle + 1..];
    if cut(counters, 0, BLANK) != counters.len() {
        return Err(Why::NotRead);
    }
    let Some(action) = target_of(&line[at + 1..middle]) else {
        return Err(Why::NotRead);
    };
    if !are_counters(counters) {
        return Err(Why::NotRead);
    }
    Ok(Line::Default(action))
}

// "passed over are lines of other chains"
fn other_chain(name: &[u8]) -> Result<Line, Why>
    ensures { result ≡ line_told (other_chain name.now) }
{
    if is_name(name) {
        return Ok(Line::Passed);
    }
    Err(Why::NotRead)
}

// The rule of a rule line, behind the words `-A FORWARD`, which end at a position.
fn rule_read(line: &[u8], at: usize) -> Result<Line, Why>
    ensures { result ≡ line_told (append_read (text "FORWARD" ∷ words_from at line.now)) }
{
    let bytes = rule_of(line, at)?;
    Ok(Line::Rule(bytes))
}

// "`-A FORWARD ..`", or a rule of another chain: the words behind the first, which ends at a position.
fn append_read(line: &[u8], at: usize) -> Result<Line, Why>
    ensures { result ≡ line_told (append_read (words_from at line.now)) }
{
    if line.len() <= at {
        return Err(Why::NotRead);
    }
    let end = cut(line, at + 1, BLANK);
    let chain = &line[at + 1..end];
    if chain == b"FORWARD".as_slice() {
        return rule_read(line, end);
    }
    other_chain(chain)
}

// A line by its words: "any other line there gets 57".
fn words_read(line: &[u8]) -> Result<Line, Why>
    ensures { result ≡ line_told (words_read (parted blank line.now)) }
{
    let end = cut(line, 0, BLANK);
    let first = &line[..end];
    if first == b":FORWARD".as_slice() {
        return default_read(line, end);
    }
    if starts_with(first, COLON) {
        return other_chain(&first[1..]);
    }
    if first == b"-A".as_slice() {
        return append_read(line, end);
    }
    Err(Why::NotRead)
}

// "a line `*filter`"
pub fn is_filter(line: &[u8]) -> bool
    ensures { result ≡ is_filter line.now }
{
    line == b"*filter".as_slice()
}

// A line of the `*filter` part.
pub fn line_read(line: &[u8]) -> Result<Line, Why>
    ensures { result ≡ line_told (line_read line.now) }
{
    if starts_with(line, STAR) {
        if is_filter(line) {
            return Ok(Line::Opens);
        }
        return Ok(Line::Closes);
    }
    if line == b"COMMIT".as_slice() {
        return Ok(Line::Closes);
    }
    if line.len() == 0 || starts_with(line, HASH) {
        return Ok(Line::Passed);
    }
    words_read(line)
}
