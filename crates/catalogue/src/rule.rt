// A rule of a catalogue: its bounds, and whether it equals an earlier one. Equal rules have equal marks, so a rule whose mark is new
// differs from all before it, and only the others are compared.

ghost use Rattle.std.specs.Prelude.{◌≡◌, cond, ◌&&◌, ◌+◌, ◌*◌, ◌%◌, ◌≤◌, ◌<◌, min, length, take, get_or, eqb};
ghost use Rattle.policy.specs.Lists.{same};
ghost use Rattle.deployment.specs.Values.{rule_of, rule_fits, same_rule, known, range_at, rising};
ghost use Rattle.deployment.specs.Catalogue.{record_count, catalogue_of};
ghost use Rattle.catalogue.specs.Answers.{checking, rule_value, compared_with};
ghost use Rattle.catalogue.specs.RuleMarks.{mark, may_hold, with_tag, Apart};

use deployment::Why;
use format::{RULE_BYTES, RULE_TAG, number_of, record_at};
use policy::MOST_RULES;

// How a mark is made: a byte is added, then mixed in by a factor, and the high bits are kept.
const FACTOR: usize = 2654435761;

const MIXED: usize = 4294967296;

const KEPT: usize = 2048;

// The table of marks: its places, the marks of one place, the tags of these, and a place where rules of several tags have come.
const PLACES: usize = 8192;

const PLACE_MARKS: usize = 256;

const TAGS: usize = 254;

const MANY: u8 = 255;

// 5: "a low above its high" of a range, by its width in bytes.
fn rises<const WIDTH: usize>(rule: &[u8], at: usize) -> bool
    requires small { WIDTH ≤ 4 }
    requires inside { at + 2 * WIDTH ≤ length rule.now }
    ensures { result ≡ rising (range_at at WIDTH rule.now) }
{
    let high = at + WIDTH;
    number_of(&rule[at..high]) <= number_of(&rule[high..high + WIDTH])
}

// 5: "action above 1, or a low above its high"
fn rule_fits(rule: &[u8]) -> bool
    requires { length rule.now ≡ 27 }
    ensures { result ≡ rule_fits rule.now }
{
    rule[0] <= 1
        && rises::<1>(rule, 1)
        && rises::<4>(rule, 3)
        && rises::<2>(rule, 11)
        && rises::<4>(rule, 15)
        && rises::<2>(rule, 23)
}

// "equal in all fields and action"
fn same_rule(a: &[u8], b: &[u8]) -> bool
    requires { (length a.now ≡ 27) × (length b.now ≡ 27) }
    ensures { result ≡ same_rule (rule_of a.now) (rule_of b.now) }
{
    if (a[0] == 1) != (b[0] == 1) {
        return false;
    }
    a[1..] == b[1..]
}

// How many rules the bytes hold, `skip` bytes before each, and no more than `most`.
fn records(rules: &[u8], skip: u8, most: usize) -> usize
    ensures { result ≡ min most (record_count skip rules.now) }
{
    most.min(rules.len() / (skip as usize + RULE_BYTES))
}

// 6: whether one of the first `count` rules equals the given one. Not inlined: few rules are suspects, and within its callers it made the
// test of every rule slower.
#[inline(never)]
fn is_known(rules: &[u8], skip: u8, count: usize, rule: &[u8]) -> bool
    requires { (length rule.now ≡ 27) × (count ≤ record_count skip rules.now) }
    ensures { result ≡ known (rule_of rule.now) (take count (catalogue_of skip rules.now)) }
{
    for k in 0..count {
        if same_rule(record_at(rules, skip, k), rule) {
            return true;
        }
    }
    false
}

// 6, where it may be: only a suspect is compared.
fn known_if(rules: &[u8], skip: u8, count: usize, rule: &[u8], suspect: bool) -> bool
    requires { (length rule.now ≡ 27) × (count ≤ record_count skip rules.now) }
    ensures { result ≡ (suspect && known (rule_of rule.now) (take count (catalogue_of skip rules.now))) }
{
    suspect && is_known(rules, skip, count, rule)
}

// What the action gives to a mark; where there are no bytes, 0.
fn action_mark(rule: &[u8]) -> usize
    ensures { result ≡ cond (eqb (get_or rule.now 0 0) 1) 1 0 }
{
    match rule.first() {
        Some(1) => 1,
        _ => 0,
    }
}

// The mark of a rule, made of its action and the bytes behind it: for speed alone. Bytes that aren't a rule have a mark too.
pub fn mark_of(rule: &[u8]) -> usize
    ensures { (result ≡ mark rule.now) × (result < 2097152) }
{
    let mut mixed = action_mark(rule);
    for k in 1..rule.len() {
        mixed = (mixed + rule[k] as usize) * FACTOR % MIXED;
    }
    mixed / KEPT
}

// Whether a rule of this tag may have come to this place.
fn may_hold(cell: u8, tag: u8) -> bool
    ensures { result ≡ may_hold cell tag }
{
    cell == tag || cell == MANY
}

// The place after a rule of this tag.
fn with_tag(cell: u8, tag: u8) -> u8
    ensures { result ≡ with_tag cell tag }
{
    if cell == 0 {
        return tag;
    }
    MANY
}

// The tag of a mark.
fn tag_of(mark: usize) -> u8
    ensures { result ≡ mark % 254 + 1 }
{
    (mark % TAGS + 1) as u8
}

// Whether the k-th field isn't a rule; where no heads are skipped there is none.
fn other_field(rules: &[u8], skip: u8, k: usize) -> bool
    requires { k * (skip + 27) + skip + 27 ≤ length rules.now }
{
    skip != 0 && rules[k * (skip as usize + RULE_BYTES)] != RULE_TAG
}

// How many of the first rules are seen to differ from all before them; in a file, where heads stand before rules, up to the last rule.
pub fn apart(rules: &[u8], skip: u8) -> usize
    ensures { Apart skip result rules.now }
{
    let top = records(rules, skip, MOST_RULES);
    let mut cells = [0u8; PLACES];
    for k in 0..top {
        if other_field(rules, skip, k) {
            return k;
        }
        let rule = record_at(rules, skip, k);
        let mark = mark_of(rule);
        let place = mark / PLACE_MARKS;
        let tag = tag_of(mark);
        let cell = cells[place];
        if known_if(rules, skip, k, rule, may_hold(cell, tag)) {
            return k;
        }
        cells[place] = with_tag(cell, tag);
    }
    top
}

// A rule, after the first `count` of the catalogue: 4, 5, 6. Where the bytes hold fewer, it is compared with all of them; where `count`
// is below `differing`, with none.
pub fn rule_tested(
    rules: &[u8],
    skip: u8,
    count: usize,
    rule: &[u8],
    differing: usize,
) -> Result<(), Why>
    ensures { result ≡ checking (rule_value (compared_with count differing (catalogue_of skip rules.now)) rule.now) }
{
    if rule.len() != RULE_BYTES {
        return Err(Why::Length);
    }
    if !rule_fits(rule) {
        return Err(Why::Bounds);
    }
    let top = records(rules, skip, count);
    if known_if(rules, skip, top, rule, differing <= count) {
        return Err(Why::Equal);
    }
    Ok(())
}
