// A rule line of a listing: its options, each found by its name, and the record of its rule. What they mean stands in `iptables`.

#![tactic(auto)]

ghost use Rattle.std.specs.Prelude.{◌≡◌, ◌&&◌, ◌∷◌, ◌++◌, ◌≤◌, ◌<◌, length};
ghost use Rattle.policy.specs.Lists.{all};
ghost use Rattle.deployment.specs.Values.{range_bytes, rule_bytes, rising};
ghost use Rattle.iptables.specs.Options.{
  even,
  is_option,
  range_given,
  target_given,
  target_of,
  words_at,
  protocol_is,
  is_behind,
  port_fits,
  module_fits,
  rule_read,
};
ghost use Rattle.lines.specs.Text.{text};
ghost use Rattle.iptables_words.specs.Told.{range_told};
ghost use Rattle.iptables_rule.specs.Found.{
  words_from,
  given_from,
  with_pair,
  word_of,
  OptionFound,
  range_found,
  ranges_read,
  ranges_told,
  target_told,
  range_of,
  rule_of,
  no_rule,
  rule_read_told,
};

use deployment::Why;
use format::RULE_BYTES;
use iptables::Kind;
use iptables_words::{Bounds, cut, full, meant};
use policy::Action;

const BLANK: u8 = b' ';

// How often an option is given, at most counted to 2; how many options stand in front of its first place; and where its first word stands.
#[derive(Clone, Copy)]
struct Found {
    times: u8,
    place: usize,
    start: usize,
    end: usize,
}

// The ranges of a rule.
#[derive(Clone, Copy)]
struct Ranges {
    protocol: Bounds,
    source: Bounds,
    source_port: Bounds,
    destination: Bounds,
    destination_port: Bounds,
}

// What was found of an option, with one option more: the one looked for, with its word from `start` to `end`, or another.
fn with_pair(found: Found, is: bool, start: usize, end: usize) -> Found
    requires { found.place < 18446744073709551615 }
    ensures { result ≡ with_pair found is start end }
{
    if found.times == 0 {
        if is {
            return Found {
                times: 1,
                place: found.place,
                start,
                end,
            };
        }
        return Found {
            times: 0,
            place: found.place + 1,
            start: 0,
            end: 0,
        };
    }
    if is {
        return Found {
            times: 2,
            place: found.place,
            start: found.start,
            end: found.end,
        };
    }
    found
}

// An option looked for among the words behind a position, two by two.
fn option(line: &[u8], at: usize, name: &[u8]) -> Found
    ensures { OptionFound line.now name.now (given_from at line.now) result }
{
    let mut found = Found {
        times: 0,
        place: 0,
        start: 0,
        end: 0,
    };
    let mut end = at;
    // Kept: each turn goes on behind two words, and no iterator parts a line so.
    while end < line.len() {
        let middle = cut(line, end + 1, BLANK);
        if middle == line.len() {
            return found;
        }
        let stop = cut(line, middle + 1, BLANK);
        let is = &line[end + 1..middle] == name;
        found = with_pair(found, is, middle + 1, stop);
        end = stop;
    }
    found
}

// The options that are read.
fn is_option(name: &[u8]) -> bool
    ensures { result ≡ is_option name.now }
{
    name == b"-s".as_slice()
        || name == b"-d".as_slice()
        || name == b"-p".as_slice()
        || name == b"--sport".as_slice()
        || name == b"--dport".as_slice()
        || name == b"-m".as_slice()
        || name == b"-j".as_slice()
}

// Whether each option behind a position is one that is read, and has its word.
fn options_known(line: &[u8], at: usize) -> bool
    ensures { result ≡ (even (words_from at line.now) && all (λ g. is_option g.option) (given_from at line.now)) }
{
    let mut end = at;
    // Kept: each turn goes on behind two words, and no iterator parts a line so.
    while end < line.len() {
        let middle = cut(line, end + 1, BLANK);
        if middle == line.len() || !is_option(&line[end + 1..middle]) {
            return false;
        }
        end = cut(line, middle + 1, BLANK);
    }
    true
}

// The word that was found.
fn word_of<'a>(line: &'a [u8], found: Found) -> &'a [u8]
    requires { (found.start ≤ found.end) × (found.end ≤ length line.now) }
    ensures { result.now ≡ word_of found line.now }
{
    &line[found.start..found.end]
}

// What an option's range is: the full one where it isn't given, and nothing where it is given twice.
fn ranged(line: &[u8], found: Found, kind: Kind) -> Option<Bounds>
    requires { (found.start ≤ found.end) × (found.end ≤ length line.now) }
    ensures { result ≡ range_told (range_found kind found line.now) }
{
    match found.times {
        0 => Some(full(kind)),
        2 => None,
        _ => meant(kind, word_of(line, found)),
    }
}

// The range of an option that is given at most once.
fn range_given(line: &[u8], at: usize, name: &[u8], kind: Kind) -> Option<Bounds>
    ensures { result ≡ range_told (range_given kind name.now (given_from at line.now)) }
{
    ranged(line, option(line, at, name), kind)
}

// A target, or the policy of a chain.
pub fn target_of(word: &[u8]) -> Option<Action>
    ensures { result ≡ target_told (target_of word.now) }
{
    if word == b"ACCEPT".as_slice() {
        return Some(Action::Permit);
    }
    if word == b"DROP".as_slice() {
        return Some(Action::Deny);
    }
    None
}

// "Exactly one `-j ACCEPT` or `-j DROP`"
fn target_given(line: &[u8], at: usize) -> Option<Action>
    ensures { result ≡ target_told (target_given (words_at (text "-j") (given_from at line.now))) }
{
    let found = option(line, at, b"-j");
    if found.times != 1 {
        return None;
    }
    target_of(word_of(line, found))
}

// Whether `-p` has this word.
fn protocol_is(line: &[u8], at: usize, word: &[u8]) -> bool
    ensures { result ≡ protocol_is word.now (given_from at line.now) }
{
    let found = option(line, at, b"-p");
    found.times != 0 && word_of(line, found) == word
}

// Whether an option stands behind `-p`.
fn is_behind(line: &[u8], at: usize, name: &[u8]) -> bool
    ensures { result ≡ is_behind name.now (given_from at line.now) }
{
    option(line, at, b"-p").place < option(line, at, name).place
}

// "only after `-p tcp` or `-p udp` in the line"
fn port_fits(line: &[u8], at: usize, name: &[u8]) -> bool
    ensures { result ≡ port_fits name.now (given_from at line.now) }
{
    if option(line, at, name).times == 0 {
        return true;
    }
    is_behind(line, at, name) && (protocol_is(line, at, b"tcp") || protocol_is(line, at, b"udp"))
}

// "`-m tcp`, `-m udp`: skipped after the same `-p`"
fn module_fits(line: &[u8], at: usize) -> bool
    ensures { result ≡ module_fits (given_from at line.now) }
{
    let found = option(line, at, b"-m");
    if found.times == 0 {
        return true;
    }
    if found.times == 2 {
        return false;
    }
    let word = word_of(line, found);
    is_behind(line, at, b"-m")
        && protocol_is(line, at, word)
        && (word == b"tcp".as_slice() || word == b"udp".as_slice())
}

// A byte, and behind it the ranges of a rule, "low, high" of each.
fn with_ranges(first: u8, ranges: Ranges) -> [u8; RULE_BYTES]
    ensures { result ≡ first ∷ (range_bytes 1 (range_of ranges.protocol) ++ (range_bytes 4 (range_of ranges.source) ++ (range_bytes 2 (range_of ranges.source_port)
        ++ (range_bytes 4 (range_of ranges.destination) ++ range_bytes 2 (range_of ranges.destination_port))))) }
{
    // Kept: with parts copied in from a helper's bytes its proof didn't close.
    [
        first,
        (ranges.protocol.low % 256) as u8,
        (ranges.protocol.high % 256) as u8,
        (ranges.source.low / 256 / 256 / 256 % 256) as u8,
        (ranges.source.low / 256 / 256 % 256) as u8,
        (ranges.source.low / 256 % 256) as u8,
        (ranges.source.low % 256) as u8,
        (ranges.source.high / 256 / 256 / 256 % 256) as u8,
        (ranges.source.high / 256 / 256 % 256) as u8,
        (ranges.source.high / 256 % 256) as u8,
        (ranges.source.high % 256) as u8,
        (ranges.source_port.low / 256 % 256) as u8,
        (ranges.source_port.low % 256) as u8,
        (ranges.source_port.high / 256 % 256) as u8,
        (ranges.source_port.high % 256) as u8,
        (ranges.destination.low / 256 / 256 / 256 % 256) as u8,
        (ranges.destination.low / 256 / 256 % 256) as u8,
        (ranges.destination.low / 256 % 256) as u8,
        (ranges.destination.low % 256) as u8,
        (ranges.destination.high / 256 / 256 / 256 % 256) as u8,
        (ranges.destination.high / 256 / 256 % 256) as u8,
        (ranges.destination.high / 256 % 256) as u8,
        (ranges.destination.high % 256) as u8,
        (ranges.destination_port.low / 256 % 256) as u8,
        (ranges.destination_port.low % 256) as u8,
        (ranges.destination_port.high / 256 % 256) as u8,
        (ranges.destination_port.high % 256) as u8,
    ]
}

// The record of a rule: "action (0 deny, 1 permit), protocol low, high; source low, high; .."
fn record_of(action: Action, ranges: Ranges) -> [u8; RULE_BYTES]
    ensures { result ≡ rule_bytes (rule_of action ranges) }
{
    with_ranges(action.into(), ranges)
}

// The record of no rule: it stands where none is read.
pub fn no_record() -> [u8; RULE_BYTES]
    ensures { result ≡ rule_bytes no_rule }
{
    let none = Bounds { low: 0, high: 0 };
    let ranges = Ranges {
        protocol: none,
        source: none,
        source_port: none,
        destination: none,
        destination_port: none,
    };
    record_of(Action::Deny, ranges)
}

// Whether the options that need one stand behind `-p`.
fn options_stand(line: &[u8], at: usize) -> bool
    ensures { result
        ≡ (port_fits (text "--sport") (given_from at line.now)
        && port_fits (text "--dport") (given_from at line.now)
        && module_fits (given_from at line.now)) }
{
    port_fits(line, at, b"--sport") && port_fits(line, at, b"--dport") && module_fits(line, at)
}

// The ranges of all options, if each is read.
fn ranges_given(line: &[u8], at: usize) -> Option<Ranges>
    ensures { result ≡ ranges_told (ranges_read (given_from at line.now)) }
{
    let protocol = range_given(line, at, b"-p", Kind::Protocol)?;
    let source = range_given(line, at, b"-s", Kind::Address)?;
    let source_port = range_given(line, at, b"--sport", Kind::Port)?;
    let destination = range_given(line, at, b"-d", Kind::Address)?;
    let destination_port = range_given(line, at, b"--dport", Kind::Port)?;
    Some(Ranges {
        protocol,
        source,
        source_port,
        destination,
        destination_port,
    })
}

// 58: "a low above its high"
fn ports_rise(from: Bounds, to: Bounds) -> bool
    ensures { result ≡ (rising (range_of from) && rising (range_of to)) }
{
    from.low <= from.high && to.low <= to.high
}

// The rule of the options behind a position: 57, then 58.
pub fn rule_of(line: &[u8], at: usize) -> Result<[u8; RULE_BYTES], Why>
    ensures { result ≡ rule_read_told (rule_read (words_from at line.now)) }
{
    if !options_known(line, at) || !options_stand(line, at) {
        return Err(Why::NotRead);
    }
    let Some(action) = target_given(line, at) else {
        return Err(Why::NotRead);
    };
    let Some(ranges) = ranges_given(line, at) else {
        return Err(Why::NotRead);
    };
    if !ports_rise(ranges.source_port, ranges.destination_port) {
        return Err(Why::LowAbove);
    }
    Ok(record_of(action, ranges))
}
