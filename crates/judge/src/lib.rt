// The judge of scripts: replay from the initial policy, and the ordering rule on every list of the way.

#![tactic(auto)]

ghost use Rattle.std.specs.Prelude.{◌≡◌, ◌≤◌};
ghost use Rattle.policy.specs.Judge.{verdict};
ghost use Rattle.deployment.specs.Values.{numbers_of, script_of};
ghost use Rattle.policy.specs.Claims.{Admitted};
ghost use Rattle.policy.specs.Lists.{same};
ghost use Rattle.policy.specs.Policy.{most_rules};
ghost use Rattle.running.specs.Running.{view};
ghost use Rattle.replay.specs.Answers.{commands_of, Readable};
ghost use Rattle.ordering.specs.Fronts.{Judging};
ghost use Rattle.judge.specs.SoFar.{noted};

use commands::{command_at, commands};
use format::{list_of, listed, number_at};
use ordering::{first_unsupported, is_full, is_ordered};
use policy::Verdict;
use replay::Replaying;

// The verdict so far and one more list, the one after step `at`: the first list that isn't ordered stays, else one that isn't full.
fn note(
    found: Verdict,
    at: usize,
    list: &[u16],
    places: &[u16],
    initial: &[u8],
    target: &[u8],
) -> Verdict
    requires { Judging (numbers_of initial.now) (numbers_of target.now) places.now list.now }
    ensures { result ≡ noted (numbers_of initial.now) (numbers_of target.now) found at list.now }
{
    if let Verdict::Unordered(_, _) = found {
        return found;
    }
    if !is_ordered(list, places, initial, target) {
        let place = first_unsupported(list, places, initial, target);
        return Verdict::Unordered(at, place);
    }
    if !is_full(list, places, initial, target) {
        return Verdict::NotFull;
    }
    found
}

// The same of a replay's list.
fn note_state(found: Verdict, at: usize, state: Replaying, initial: &[u8], target: &[u8]) -> Verdict
    requires { Judging (numbers_of initial.now) (numbers_of target.now) state.places.of (view state.list) }
    ensures { result ≡ noted (numbers_of initial.now) (numbers_of target.now) found at (view state.list) }
{
    let n = state.list.count();
    let rules = state.list.rules;
    let of = state.places.of;
    note(found, at, &rules[..n], &of, initial, target)
}

// Whether a replay's list is the policy.
fn ends_at(state: Replaying, policy: &[u8]) -> bool
    ensures { result ≡ same (view state.list) (numbers_of policy.now) }
{
    let n = state.list.count();
    if n != listed(policy) {
        return false;
    }
    for (k, r) in state.list.rules[..n].iter().enumerate() {
        if *r != number_at(policy, k) {
            return false;
        }
    }
    true
}

// The verdict on a script of accepted values. "The judge replays from the initial policy; the lists judged are the initial one (step 0) and
// the one after each command."
pub fn verdict_of(size: usize, initial: &[u8], target: &[u8], script: &[u8]) -> Verdict
    requires { (size ≤ most_rules) × Admitted size (numbers_of initial.now) × Admitted size (numbers_of target.now) × Readable script.now }
    ensures { result ≡ verdict size (numbers_of initial.now) (numbers_of target.now) (commands_of (script_of script.now)) }
{
    let count = commands(script);
    let mut state = Replaying::start(list_of(initial));
    let mut found = note_state(Verdict::Safe, 0, state, initial, target);
    for k in 0..count {
        let Some(c) = command_at(script, k) else {
            return found;
        };
        let s = state.step(size, c);
        if let Some(fault) = s.refusal {
            return Verdict::Broken(fault, k + 1);
        }
        state = s.state;
        found = note_state(found, k + 1, state, initial, target);
    }
    if !ends_at(state, target) {
        return Verdict::Elsewhere(count);
    }
    found
}
