// The file of rules that are kept: "rule k is number k" of both policies. Each function stores what has room in the place; whether all has is asked before.

ghost use Rattle.std.specs.Prelude.{◌+◌, ◌*◌, ◌≤◌, ◌≡◌, map, length, take};
ghost use Rattle.std.proofs.lemmas.List.Edits.{sets};
ghost use Rattle.policy.specs.Policy.{most_listed};
ghost use Rattle.deployment.specs.Values.{numbers_bytes};
ghost use Rattle.deployment.specs.File.{field_bytes, file_of};
ghost use Rattle.iptables.specs.Listing.{numbers_from, contents_of};
ghost use Rattle.iptables_reader.specs.Kept.{rule_at, rules_fields, action_if, bytes_needed};

use super::table::record_at;
use format::{
    DEFAULT_BYTES, DEFAULT_TAG, HEAD_BYTES, INITIAL_TAG, NUMBER_BYTES, PERMIT, RULE_BYTES,
    RULE_FIELD_BYTES, RULE_TAG, TARGET_TAG, store,
};

// 13: the bytes of the file of so many rules.
pub fn bytes_needed(count: usize, permits: bool) -> usize
    requires { count ≤ most_listed }
    ensures { result ≡ bytes_needed count permits }
{
    let default = if permits {
        HEAD_BYTES + DEFAULT_BYTES
    } else {
        0
    };
    RULE_FIELD_BYTES * count + 2 * (HEAD_BYTES + NUMBER_BYTES * count) + default
}

// A field for each of the first `count` rules, from the start on.
fn put_rules(listing: &[u8], starts: &[usize], count: usize, place: &mut [u8])
    requires { (count ≤ length starts.now) × (count ≤ most_listed) }
    ensures { place.new ≡ sets place.old 0 (rules_fields (map (rule_at listing.now) (take count starts.now))) }
{
    let head = [RULE_TAG, 0, RULE_BYTES as u8];
    for k in 0..count {
        store(place, k * RULE_FIELD_BYTES, &head);
        store(
            place,
            k * RULE_FIELD_BYTES + HEAD_BYTES,
            &record_at(listing, starts[k]),
        );
    }
}

// A policy of the numbers below `count`, from `at` on.
fn put_numbers(place: &mut [u8], at: usize, tag: u8, count: usize)
    requires { (count ≤ most_listed) × (at ≤ 65535) }
    ensures { place.new ≡ sets place.old at (field_bytes tag (numbers_bytes (numbers_from 0 count))) }
{
    let size = NUMBER_BYTES * count;
    let head = [tag, (size / 256) as u8, (size % 256) as u8];
    store(place, at, &head);
    for k in 0..count {
        let number = [(k / 256) as u8, (k % 256) as u8];
        store(place, at + HEAD_BYTES + NUMBER_BYTES * k, &number);
    }
}

// The file of the first `count` rules and the default.
pub fn put_file(listing: &[u8], starts: &[usize], count: usize, permits: bool, place: &mut [u8])
    requires { (count ≤ length starts.now) × (count ≤ most_listed) }
    ensures { place.new
        ≡ sets place.old 0
        (file_of (contents_of (map (rule_at listing.now) (take count starts.now)) (action_if permits))) }
{
    put_rules(listing, starts, count, place);
    let list_bytes = HEAD_BYTES + NUMBER_BYTES * count;
    let initial = RULE_FIELD_BYTES * count;
    put_numbers(place, initial, INITIAL_TAG, count);
    put_numbers(place, initial + list_bytes, TARGET_TAG, count);
    if permits {
        let default = [DEFAULT_TAG, 0, DEFAULT_BYTES as u8, PERMIT];
        store(place, initial + 2 * list_bytes, &default);
    }
}
