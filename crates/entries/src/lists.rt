// The entries over field values. All refusals of values stand at position 0.

ghost use Rattle.std.specs.Prelude.{◌≡◌};
ghost use Rattle.deployment.specs.File.{needs_script};
ghost use Rattle.deployment.specs.FieldValues.{lent, left_by, values_read, read_values};
ghost use Rattle.deployment.specs.Properties.{AreBytes, IfThere};
ghost use Rattle.deployment.specs.Claims.{AreValues};
ghost use Rattle.catalogue.specs.Answers.{checking};
ghost use Rattle.last_list.specs.Last.{replayed_at_zero};
ghost use Rattle.plans.specs.Plans.{made_one, made_two};
ghost use Rattle.entries.specs.Answers.{
  policy_tested,
  deciding_values,
  decided_values,
  decided_at_zero,
  flows_at_zero,
  replayed_values,
  planned,
  judged_reading,
  written_values,
};

use catalogue::catalogue_checked;
use decision::{decided, default_of};
use deployment::{Refusal, Why};
use flows::decide_into;
use format::RULE_BYTES;
use judge::verdict_of;
use last_list::replay_into;
use plans::Plan;
use policy::{Decision, Flow, Verdict};
use replay::Stop;
use values::lists::default_if_there;
pub use values::lists::{Values, values_checked as check};
use values::policy_checked;
use writer::write_into;

// No field's head stands before a rule of a field value.
const NO_HEAD: u8 = 0;

// Tests the rules and a policy over them: 4, 7, 5, 6 for the rules, then 4, 8, 9 for its list, 4, 50 for its default, which may be absent.
fn tested(rules: &[u8], policy: &[u8], default: Option<&[u8]>) -> Result<(), Why>
    ensures { result ≡ checking (policy_tested rules.now policy.now (lent default.entry)) }
{
    catalogue_checked(rules)?;
    policy_checked(policy, rules.len() / RULE_BYTES)?;
    default_if_there(default)
}

// Decides a flow by a policy.
pub fn decide(
    rules: &[u8],
    policy: &[u8],
    default: Option<&[u8]>,
    flow: Flow,
) -> Result<Decision, Refusal>
    ensures { result ≡ decided_at_zero (decided_values rules.now policy.now (lent default.entry) flow) }
{
    tested(rules, policy, default)?;
    Ok(decided(rules, NO_HEAD, policy, default_of(default.is_some()), flow))
}

// Decides flows by a policy, tested once: 13 bytes a flow, and three of the first bytes of `place` for its action and place.
pub fn decide_flows(
    rules: &[u8],
    policy: &[u8],
    default: Option<&[u8]>,
    flows: &[u8],
    place: &mut [u8],
) -> Result<usize, Refusal>
    ensures { left_by result place.new
        ≡ flows_at_zero (deciding_values rules.now policy.now (lent default.entry)) flows.now
        place.old }
{
    tested(rules, policy, default)?;
    decide_into(
        rules,
        NO_HEAD,
        policy,
        default_of(default.is_some()),
        flows,
        place,
    )
}

// Replays a script from a policy: 4, 7, 5, 6 for the rules, 4, 8, 9 for the policy's list, 4, 50 for its default, 4, 11 for the script, 20 to
// 23, and last 13; the last list, as a list value, fills the first bytes of `place`. No command changes the default.
pub fn replay(
    rules: &[u8],
    initial: &[u8],
    default: Option<&[u8]>,
    script: &[u8],
    place: &mut [u8],
) -> Result<usize, Stop<Refusal>>
    ensures { left_by result place.new
        ≡ replayed_at_zero
        (replayed_values rules.now initial.now (lent default.entry) script.now)
        place.old }
{
    match tested(rules, initial, default) {
        Ok(()) => replay_into(rules.len() / RULE_BYTES, initial, script, place),
        Err(why) => Err(Stop::Turned(why.into())),
    }
}

// A lent value is bytes, whatever it is, and so is one that may be absent: reading what is written asks for that.
fn are_bytes(value: &[u8])
    ensures { AreBytes value.now }
{}

fn are_bytes_if(value: Option<&[u8]>)
    ensures { IfThere AreBytes (lent value.entry) }
{
    if let Some(value) = value {
        are_bytes(value)
    }
}

// Tests the values, which are bytes.
fn checked(values: &Values<'_>) -> Result<(), Why>
    ensures tested { result ≡ checking (values_read values.now) }
    ensures bytes { AreValues values.now }
{
    are_bytes(values.rules);
    are_bytes(values.initial);
    are_bytes(values.target);
    are_bytes_if(values.default);
    are_bytes_if(values.keep);
    are_bytes_if(values.script);
    check(values)
}

// Writes the file of the values into the first bytes of `place`.
pub fn write(values: &Values<'_>, place: &mut [u8]) -> Result<usize, Refusal>
    ensures { left_by result place.new ≡ written_values values.now place.old }
{
    checked(values)?;
    write_into(values, place)
}

// The script for append and delete; the script field fills the first bytes of `place`. A default and a script that are given are
// tested and not used.
pub fn plan_one(values: &Values<'_>, place: &mut [u8]) -> Result<Plan, Refusal>
    ensures { left_by result place.new ≡ planned made_one (read_values values.now) place.old }
{
    checked(values)?;
    append_delete::plan_one(values.initial, values.target, place)
}

// The script for insert, delete and move.
pub fn plan_two(values: &Values<'_>, place: &mut [u8]) -> Result<Plan, Refusal>
    ensures { left_by result place.new ≡ planned made_two (read_values values.now) place.old }
{
    checked(values)?;
    insert_delete_move::plan_two(values.initial, values.target, values.keep, place)
}

// Judges the script; 12 where there is none. The default is tested and not used.
pub fn judge(values: &Values<'_>) -> Result<Verdict, Refusal>
    ensures { result ≡ judged_reading (needs_script 0 (read_values values.now)) }
{
    // Kept a match: the edit `judge_refused_at_one` changes the answer of its second arm, and `?` has none that could be changed.
    match checked(values) {
        Ok(()) => {
            let script = values.script.ok_or(Why::NoScript)?;
            let size = values.rules.len() / RULE_BYTES;
            Ok(verdict_of(size, values.initial, values.target, script))
        }
        Err(why) => Err(why.into()),
    }
}
