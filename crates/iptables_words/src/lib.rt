// The words of a listing: where a piece ends, numbers in their bounds, addresses, ports and protocols. What each means stands in `iptables`.

#![tactic(auto)]

ghost use Rattle.std.specs.Prelude.{◌+◌, ◌≤◌, ◌^◌, ◌-◌, ◌≡◌, length, drop};
ghost use Rattle.iptables.specs.Words.{cut_at, pieces_behind, number_in, dotted, mask_of, address_of, single, ports_of, protocol_of, meant, full, slash};
ghost use Rattle.iptables_words.specs.Told.{number_told, bounds_of, range_told};

use iptables::Kind;
use numerals::number_of;

const DOT: u8 = b'.';

const SLASH: u8 = b'/';

const COLON: u8 = b':';

// The numbers of an address, and the greatest of them; the bits of an address, and the greatest address.
const NUMBERS: usize = 4;

const MOST_BYTE: usize = 255;

const BITS: usize = 32;

const MOST_ADDRESS: usize = 4294967295;

const MOST_PORT: usize = 65535;

// The numbers that `tcp`, `udp` and `icmp` stand for.
const TCP: usize = 6;

const UDP: usize = 17;

const ICMP: usize = 1;

// A low and a high.
#[derive(Clone, Copy)]
pub struct Bounds {
    pub low: usize,
    pub high: usize,
}

// Where the piece that starts at a position ends: at the first such byte, or at the end.
pub fn cut(bytes: &[u8], at: usize, by: u8) -> usize
    ensures { result ≡ at + cut_at by (drop at bytes.now) }
{
    let mut end = at;
    // Kept: `position` would need a start past the end and a missing byte asked for beside it.
    while end < bytes.len() && bytes[end] != by {
        end += 1;
    }
    end
}

// A number in its bounds.
fn number_in(word: &[u8], low: usize, high: usize) -> Option<usize>
    requires { high ≤ 65535 }
    ensures { result ≡ number_told (number_in low high word.now) }
{
    let n = number_of(word)?;
    if n < low || high < n {
        return None;
    }
    Some(n)
}

// "four decimal numbers 0 to 255": from a start past the end no piece is left.
fn dotted(word: &[u8]) -> Option<usize>
    ensures { result ≡ number_told (dotted word.now) }
{
    let mut address = 0;
    let mut start = 0;
    for _ in 0..NUMBERS {
        if word.len() < start {
            return None;
        }
        let end = cut(word, start, DOT);
        address = address * 256 + number_in(&word[start..end], 0, MOST_BYTE)?;
        start = end + 1;
    }
    if start <= word.len() {
        return None;
    }
    Some(address)
}

// How many addresses share their first n bits.
fn hosts(n: usize) -> usize
    requires { n ≤ 32 }
    ensures { result ≡ 2 ^ (32 - n) }
{
    1 << (BITS - n)
}

// "then optionally `/n`, n from 0 to 32": the word's mask, behind the position where the address ends.
fn mask_of(word: &[u8], end: usize) -> Option<usize>
    requires { end ≤ length word.now }
    ensures { result ≡ number_told (mask_of (pieces_behind slash (drop end word.now))) }
{
    if end == word.len() {
        return Some(BITS);
    }
    let mask = &word[end + 1..];
    if cut(mask, 0, SLASH) != mask.len() {
        return None;
    }
    number_in(mask, 0, BITS)
}

// "A mask `/n` becomes the address range, host bits ignored."
fn address_of(word: &[u8]) -> Option<Bounds>
    ensures { result ≡ range_told (address_of word.now) }
{
    let end = cut(word, 0, SLASH);
    let address = dotted(&word[..end])?;
    let n = mask_of(word, end)?;
    let size = hosts(n);
    let low = address / size * size;
    Some(Bounds {
        low,
        high: low + (size - 1),
    })
}

// A range of one number.
fn single(n: usize) -> Bounds
    ensures { result ≡ bounds_of (single n) }
{
    Bounds { low: n, high: n }
}

// "one number 0 to 65535 or a range `low:high`"
fn ports_of(word: &[u8]) -> Option<Bounds>
    ensures { result ≡ range_told (ports_of word.now) }
{
    let end = cut(word, 0, COLON);
    let low = number_in(&word[..end], 0, MOST_PORT)?;
    if end == word.len() {
        return Some(single(low));
    }
    let rest = &word[end + 1..];
    if cut(rest, 0, COLON) != rest.len() {
        return None;
    }
    let high = number_in(rest, 0, MOST_PORT)?;
    Some(Bounds { low, high })
}

// "tcp, udp, icmp or a number from 1 to 255"
fn protocol_of(word: &[u8]) -> Option<Bounds>
    ensures { result ≡ range_told (protocol_of word.now) }
{
    if word == b"tcp".as_slice() {
        return Some(single(TCP));
    }
    if word == b"udp".as_slice() {
        return Some(single(UDP));
    }
    if word == b"icmp".as_slice() {
        return Some(single(ICMP));
    }
    let n = number_in(word, 1, MOST_BYTE)?;
    Some(single(n))
}

// What a word of a kind means.
pub fn meant(kind: Kind, word: &[u8]) -> Option<Bounds>
    ensures { result ≡ range_told (meant kind word.now) }
{
    match kind {
        Kind::Protocol => protocol_of(word),
        Kind::Address => address_of(word),
        Kind::Port => ports_of(word),
    }
}

// "What isn't given is the full range."
pub fn full(kind: Kind) -> Bounds
    ensures { result ≡ bounds_of (full kind) }
{
    let high = match kind {
        Kind::Protocol => MOST_BYTE,
        Kind::Address => MOST_ADDRESS,
        Kind::Port => MOST_PORT,
    };
    Bounds { low: 0, high }
}
