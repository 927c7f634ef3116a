// The entries over a deployment file.

ghost use Rattle.std.specs.Prelude.{◌≡◌, cond, ◌*◌, ◌≤◌};
ghost use Rattle.policy.specs.Policy.{most_rules};
ghost use Rattle.deployment.specs.File.{read_file, read_to_judge};
ghost use Rattle.deployment.specs.FieldValues.{left_by};
ghost use Rattle.plans.specs.Plans.{made_one, made_two};
ghost use Rattle.entries.specs.Answers.{decided_reading, flows_reading, replayed_reading, planned, judged_reading};

use decision::{decided, default_of};
use deployment::Refusal;
use flows::decide_into;
use format::{HEAD_BYTES, RULE_FIELD_BYTES};
use judge::verdict_of;
use last_list::replay_into;
use plans::Plan;
use policy::{Decision, Flow, Verdict};
pub use reader::file::{read, read_to_judge, value, value_given, value_or_empty};
use reader::{Layout, Span};
use replay::Stop;

// Where the policy that is asked for stands.
fn asked(layout: Layout, of_target: bool) -> Span
    ensures { result ≡ cond of_target layout.target layout.initial }
{
    if of_target {
        layout.target
    } else {
        layout.initial
    }
}

// Where so many rules stand: they are first in a file, each behind its field's head.
fn rules_of(count: usize) -> Span
    requires { count ≤ most_rules }
    ensures { result ≡ record { start = 0; size = 30 * count } }
{
    Span {
        start: 0,
        size: RULE_FIELD_BYTES * count,
    }
}

// Decides a flow by the target policy of the file, if asked for, or else by its initial one.
pub fn decide(file: &[u8], of_target: bool, flow: Flow) -> Result<Decision, Refusal>
    ensures { result ≡ decided_reading of_target flow (read_file file.now) }
{
    // Kept a match: the edit `refused_file_denies` changes the answer of its second arm, and `?` has none that could be changed.
    match read(file) {
        Ok(layout) => Ok(decided(
            value(file, rules_of(layout.rules)),
            HEAD_BYTES as u8,
            value(file, asked(layout, of_target)),
            default_of(layout.default.is_some()),
            flow,
        )),
        Err(refusal) => Err(refusal),
    }
}

// Decides flows by a policy of the file, read once: 13 bytes a flow, and three of the first bytes of `place` for its action and place.
pub fn decide_flows(
    file: &[u8],
    of_target: bool,
    flows: &[u8],
    place: &mut [u8],
) -> Result<usize, Refusal>
    ensures { left_by result place.new
        ≡ flows_reading of_target flows.now (read_file file.now) place.old }
{
    let layout = read(file)?;
    decide_into(
        value(file, rules_of(layout.rules)),
        HEAD_BYTES as u8,
        value(file, asked(layout, of_target)),
        default_of(layout.default.is_some()),
        flows,
        place,
    )
}

// Replays the script of the file from its initial policy; the last list, as a list value, fills the first bytes of `place`.
pub fn replay(file: &[u8], place: &mut [u8]) -> Result<usize, Stop<Refusal>>
    ensures { left_by result place.new ≡ replayed_reading (read_to_judge file.now) place.old }
{
    match read_to_judge(file) {
        Ok(layout) => {
            let script = value_or_empty(file, layout.script);
            replay_into(layout.rules, value(file, layout.initial), script, place)
        }
        Err(refusal) => Err(Stop::Turned(refusal)),
    }
}

// The script for append and delete, for the policies of the file; the script field fills the first bytes of `place`.
pub fn plan_one(file: &[u8], place: &mut [u8]) -> Result<Plan, Refusal>
    ensures { left_by result place.new ≡ planned made_one (read_file file.now) place.old }
{
    let layout = read(file)?;
    append_delete::plan_one(
        value(file, layout.initial),
        value(file, layout.target),
        place,
    )
}

// The script for insert, delete and move, for the policies and the keep list of the file.
pub fn plan_two(file: &[u8], place: &mut [u8]) -> Result<Plan, Refusal>
    ensures { left_by result place.new ≡ planned made_two (read_file file.now) place.old }
{
    let layout = read(file)?;
    insert_delete_move::plan_two(
        value(file, layout.initial),
        value(file, layout.target),
        value_given(file, layout.keep),
        place,
    )
}

// Judges the script of the file.
pub fn judge(file: &[u8]) -> Result<Verdict, Refusal>
    ensures { result ≡ judged_reading (read_to_judge file.now) }
{
    let layout = read_to_judge(file)?;
    Ok(verdict_of(
        layout.rules,
        value(file, layout.initial),
        value(file, layout.target),
        value_or_empty(file, layout.script),
    ))
}
