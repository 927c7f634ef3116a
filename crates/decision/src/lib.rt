// The first-match decision of a flow, over a catalogue and the list of a policy as bytes, under a default.

#![tactic(auto)]

ghost use Rattle.std.specs.Prelude.{◌≡◌, cond, ◌+◌, ◌*◌, ◌≤◌, length};
ghost use Rattle.policy.specs.Rule.{hits, says, matches, lies};
ghost use Rattle.policy.specs.declared.Action.TheVariants.{Deny, Permit};
ghost use Rattle.policy.specs.Policy.{under, decide, matching};
ghost use Rattle.deployment.specs.Values.{numbers_of, rule_of, range_at};
ghost use Rattle.deployment.specs.Catalogue.{catalogue_of};

use format::{RULE_BYTES, listed, number_at, number_of, record_at};
use policy::{Action, Decision, Flow};

// Whether a number lies in the range that starts at byte `at` of a rule, by its width in bytes.
fn lies<const WIDTH: usize>(rule: &[u8], at: usize, n: u32) -> bool
    requires small { WIDTH ≤ 4 }
    requires inside { at + 2 * WIDTH ≤ length rule.now }
    ensures { result ≡ lies n (range_at at WIDTH rule.now) }
{
    let high = at + WIDTH;
    number_of(&rule[at..high]) <= n && n <= number_of(&rule[high..high + WIDTH])
}

// "It matches a flow when each number lies in its range": left at the first that does not.
#[tactic(auto, unfolding(policy::specs::Rule::matches, deployment::specs::Values::rule_of))]
fn record_matches(rule: &[u8], flow: Flow) -> bool
    requires { length rule.now ≡ 27 }
    ensures { result ≡ matches (rule_of rule.now) flow }
{
    lies::<1>(rule, 1, flow.protocol.into())
        && lies::<4>(rule, 3, flow.source)
        && lies::<2>(rule, 11, flow.source_port.into())
        && lies::<4>(rule, 15, flow.destination)
        && lies::<2>(rule, 23, flow.destination_port.into())
}

// Whether rule `n` of the catalogue matches the flow; `skip` bytes stand before each record. A number outside the catalogue matches nothing.
fn hit(rules: &[u8], skip: u8, n: usize, flow: Flow) -> bool
    ensures { result ≡ hits (catalogue_of skip rules.now) flow n }
{
    let rule = record_at(rules, skip, n);
    if rule.len() != RULE_BYTES {
        return false;
    }
    record_matches(rule, flow)
}

// What rule `n` of the catalogue says; a number outside it permits nothing.
fn action(rules: &[u8], skip: u8, n: usize) -> Action
    ensures { result ≡ says (catalogue_of skip rules.now) n }
{
    let rule = record_at(rules, skip, n);
    if rule.len() != RULE_BYTES {
        return Action::Deny;
    }
    if rule[0] == 1 {
        Action::Permit
    } else {
        Action::Deny
    }
}

// "A flow is decided by the first rule that matches", and where none does by the default (02, L1: "value 1 means permit, absence means
// deny"): action and place, "places counted from 1, or place 0 for the default".
pub fn decided(rules: &[u8], skip: u8, list: &[u8], default: Action, flow: Flow) -> Decision
    ensures { result ≡ decide (matching (catalogue_of skip rules.now) flow) (under default (numbers_of list.now)) }
{
    let count = listed(list);
    for k in 0..count {
        let n = number_at(list, k) as usize;
        if hit(rules, skip, n, flow) {
            return Decision {
                action: action(rules, skip, n),
                place: k + 1,
            };
        }
    }
    Decision {
        action: default,
        place: 0,
    }
}

// "value 1 means permit, absence means deny": the default of a policy, by whether a default that passed its tests is there. (Kept a
// flag: no value goes with it, since a default that passed can only be 1.)
pub fn default_of(has: bool) -> Action
    ensures { result ≡ cond has Permit Deny }
{
    if has { Action::Permit } else { Action::Deny }
}
