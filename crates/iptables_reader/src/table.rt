// The different rules of a listing: each is kept by its mark and by where its line starts, so that 12 bytes hold one. A rule is compared with those of its
// mark alone, and read again from its line.

ghost use Rattle.std.specs.Prelude.{◌≤◌, ◌≡◌, List, length, take};
ghost use Rattle.policy.specs.Rule.{Rule};
ghost use Rattle.deployment.specs.Values.{rule_bytes};
ghost use Rattle.deployment.specs.Properties.{Recordable};
ghost use Rattle.iptables_reader.specs.Kept.{rule_at, records_at, marks_at, known_record, Kept, Keeps};

use catalogue::rule::mark_of;
use format::RULE_BYTES;
use iptables_lines::{Line, line_read};
use iptables_rule::no_record;
use iptables_words::cut;
use policy::MOST_RULES;

const LINE_FEED: u8 = b'\n';

// The record of the rule whose line starts at a position.
pub fn record_at(listing: &[u8], start: usize) -> [u8; RULE_BYTES]
    ensures { result ≡ rule_bytes (rule_at listing.now start) }
{
    if listing.len() < start {
        return no_record();
    }
    let end = cut(listing, start, LINE_FEED);
    let Ok(line) = line_read(&listing[start..end]) else {
        return no_record();
    };
    match line {
        Line::Rule(bytes) => bytes,
        _ => no_record(),
    }
}

// Whether one of the first `count` rules has this record.
fn is_kept(listing: &[u8], marks: &[u32], starts: &[usize], count: usize, bytes: &[u8]) -> bool
    requires { (count ≤ length marks.now) × (count ≤ length starts.now)
        × (take count marks.now ≡ marks_at listing.now (take count starts.now)) }
    ensures { result ≡ known_record bytes.now (records_at listing.now (take count starts.now)) }
{
    let mark = mark_of(bytes) as u32;
    for k in 0..count {
        if marks[k] == mark && record_at(listing, starts[k]).as_slice() == bytes {
            return true;
        }
    }
    false
}

// "A rule listed twice goes in at its first place only": the rule whose line starts at a position, if it is new; how many there are then, counted to 1,025.
pub fn keep(
    listing: &[u8],
    marks: &mut [u32],
    starts: &mut [usize],
    count: usize,
    start: usize,
    bytes: [u8; RULE_BYTES],
) -> usize
    requires { ((rules : List Rule) × Kept listing.now marks.old starts.old count rules)
        × (bytes ≡ rule_bytes (rule_at listing.now start)) × Recordable (rule_at listing.now start) }
    ensures { Keeps listing.now start marks.old starts.old count marks.new starts.new result }
{
    if MOST_RULES < count {
        return count;
    }
    if is_kept(listing, marks, starts, count, &bytes) {
        return count;
    }
    if count < MOST_RULES {
        marks[count] = mark_of(&bytes) as u32;
        starts[count] = start;
    }
    count + 1
}
