// The ordering rule on one running list: whether it is ordered, at which place first not, and whether it is full. The list comes with its side
// array, so that where a policy's rule stands in it is known at once.

#![tactic(auto)]

ghost use Rattle.std.specs.Prelude.{◌≡◌, true, false, cond, ◌||◌, ◌+◌, ◌≤◌};
ghost use Rattle.std.proofs.Math.Option.{some};
ghost use Rattle.policy.specs.Judge.{ordered, full, first_unsupported};
ghost use Rattle.deployment.specs.Values.{numbers_of};
ghost use Rattle.ordering.specs.Fronts.{stands, front, passes_at, is_at, Judging};

use format::{listed, number_at};
use places::place_of;

// Whether the policy has a rule at index i, and it stands among the first k of the list.
fn stands_at(policy: &[u8], i: usize, places: &[u16], k: usize) -> bool
    ensures { result ≡ passes_at (stands places.now k) i (numbers_of policy.now) }
{
    if listed(policy) <= i {
        return false;
    }
    let place = place_of(places, number_at(policy, i));
    if place == 0 {
        return false;
    }
    place <= k
}

// Whether the policy's rule at index i is r.
fn is_at(policy: &[u8], i: usize, r: u16) -> bool
    ensures { result ≡ is_at r i (numbers_of policy.now) }
{
    if listed(policy) <= i {
        return false;
    }
    number_at(policy, i) == r
}

// Whether r stands right behind a front part of one of the two policies.
fn is_next(initial: &[u8], a: usize, target: &[u8], b: usize, r: u16) -> bool
    ensures { result ≡ (is_at r a (numbers_of initial.now) || is_at r b (numbers_of target.now)) }
{
    if is_at(initial, a, r) {
        return true;
    }
    is_at(target, b, r)
}

// The length of the policy's longest front part whose rules all stand among the first k of the list; it is known to be at least `from`.
fn front_part(policy: &[u8], from: usize, places: &[u16], k: usize) -> usize
    requires { from ≤ front (stands places.now k) (numbers_of policy.now) }
    ensures { result ≡ front (stands places.now k) (numbers_of policy.now) }
{
    // Kept: it goes on while a test holds, and says where that ends; no range or list is gone through.
    let mut i = from;
    while stands_at(policy, i, places, k) {
        i += 1;
    }
    i
}

// The same as the list's k-th rule comes: `from` is the length among the rules before it, and it grows only if that rule is the policy's next.
fn grown(policy: &[u8], from: usize, comes_next: bool, places: &[u16], k: usize) -> usize
    requires { (comes_next ≡ true → from + 1 ≤ front (stands places.now k) (numbers_of policy.now))
        × (comes_next ≡ false → from ≡ front (stands places.now k) (numbers_of policy.now)) }
    ensures { result ≡ front (stands places.now k) (numbers_of policy.now) }
{
    if comes_next {
        return front_part(policy, from + 1, places, k);
    }
    from
}

// One rule further in a policy, if the rule at index i stands among the first k of the list.
fn advanced(policy: &[u8], i: usize, places: &[u16], k: usize) -> usize
    ensures { result ≡ cond (passes_at (stands places.now k) i (numbers_of policy.now)) (i + 1) i }
{
    if stands_at(policy, i, places, k) {
        return i + 1;
    }
    i
}

// "full if it contains all of the initial policy or all of the target"
pub fn is_full(list: &[u16], places: &[u16], initial: &[u8], target: &[u8]) -> bool
    requires { Judging (numbers_of initial.now) (numbers_of target.now) places.now list.now }
    ensures { result ≡ full (numbers_of initial.now) (numbers_of target.now) list.now }
{
    let n = list.len();
    if front_part(initial, 0, places, n) == listed(initial) {
        return true;
    }
    front_part(target, 0, places, n) == listed(target)
}

// "A running list is ordered if all its rules are supported": each stands right behind the front part of a policy that has come by then.
pub fn is_ordered(list: &[u16], places: &[u16], initial: &[u8], target: &[u8]) -> bool
    requires { Judging (numbers_of initial.now) (numbers_of target.now) places.now list.now }
    ensures { result ≡ ordered (numbers_of initial.now) (numbers_of target.now) list.now }
{
    let mut a = 0;
    let mut b = 0;
    for (k, r) in list.iter().enumerate() {
        let by_initial = is_at(initial, a, *r);
        let by_target = is_at(target, b, *r);
        if !by_initial && !by_target {
            return false;
        }
        a = grown(initial, a, by_initial, places, k + 1);
        b = grown(target, b, by_target, places, k + 1);
    }
    true
}

// The first unsupported place of a list that isn't ordered: at each place the rules of both policies are gone through
// while they stand before it, until one policy comes to the place's own rule.
pub fn first_unsupported(list: &[u16], places: &[u16], initial: &[u8], target: &[u8]) -> usize
    requires { Judging (numbers_of initial.now) (numbers_of target.now) places.now list.now
        × (ordered (numbers_of initial.now) (numbers_of target.now) list.now ≡ false) }
    ensures { first_unsupported (numbers_of initial.now) (numbers_of target.now) list.now ≡ some result }
{
    // Kept: the loop stops at the place that is told, and a `for` would have to tell one behind the list, which never comes.
    let mut k = 0;
    'places: while k < list.len() {
        let r = list[k];
        let mut a = 0;
        let mut b = 0;
        // Kept: two indices go on at once, until one policy comes to r or both are stuck.
        while !is_next(initial, a, target, b, r) {
            let next_a = advanced(initial, a, places, k);
            let next_b = advanced(target, b, places, k);
            if next_a == a && next_b == b {
                break 'places;
            }
            a = next_a;
            b = next_b;
        }
        k += 1;
    }
    k + 1
}
