// Over field values: each entry as a function that C can call. The number is returned, its values stand in `answer`; the default, the
// keep list and the script are there if their `has_` says so. (Kept: C has no options.)

ghost use Rattle.std.specs.Prelude.{◌≡◌, true};
ghost use Rattle.deployment.specs.FieldValues.{lent, read_values, values_read};
ghost use Rattle.catalogue.specs.Answers.{checking};
ghost use Rattle.values.specs.Answers.{given, values_given};
ghost use Rattle.entries.specs.Answers.{written_values};
ghost use Rattle.plans.specs.Plans.{made_one, made_two};
ghost use Rattle.entries.specs.Answers.{planned};
ghost use Rattle.entries.specs.Answers.{judged_reading};
ghost use Rattle.entries.specs.Answers.{deciding_values, decided_values, decided_at_zero, flows_at_zero, replayed_values};
ghost use Rattle.last_list.specs.Last.{replayed_at_zero};
ghost use Rattle.told.specs.Answers.{Tells, checked_told, decided_told, judged_told};
ghost use Rattle.pageoriole.specs.Answers.{Leaves, write_outcome, replay_outcome, plan_outcome, flow_of};

use entries::lists::{
    Values, check, decide, decide_flows, judge, plan_one, plan_two, replay, write,
};
use policy::Flow;
use told::{tell_checked, tell_decided, tell_judged, tell_planned, tell_ran, tell_written};

// A field value that may be absent, as C lends it: with a flag beside it.
fn given(is: bool, value: &[u8]) -> Option<&[u8]>
    ensures { lent result ≡ given is value.now }
{
    if is { Some(value) } else { None }
}

// Field values, as C lends them.
fn values<'a>(
    rules: &'a [u8],
    initial: &'a [u8],
    target: &'a [u8],
    has_default: bool,
    default: &'a [u8],
    has_keep: bool,
    keep: &'a [u8],
    has_script: bool,
    script: &'a [u8],
) -> Values<'a>
    ensures { result ≡ values_given rules.now initial.now target.now has_default default.now has_keep keep.now has_script script.now }
{
    Values {
        rules,
        initial,
        target,
        default: given(has_default, default),
        keep: given(has_keep, keep),
        script: given(has_script, script),
    }
}

// Whether field values pass.
#[unsafe(no_mangle)]
pub extern "C" fn pageoriole_check(
    rules: &[u8],
    initial: &[u8],
    target: &[u8],
    has_default: bool,
    default: &[u8],
    has_keep: bool,
    keep: &[u8],
    has_script: bool,
    script: &[u8],
    answer: &mut [u64],
) -> u32
    ensures { Tells
        (checked_told (checking (values_read
        (values_given rules.now initial.now target.now has_default default.now has_keep keep.now
        has_script script.now))))
        result answer.old answer.new }
{
    let values = values(
        rules,
        initial,
        target,
        has_default,
        default,
        has_keep,
        keep,
        has_script,
        script,
    );
    tell_checked(check(&values), answer)
}

// Writes the file of the field values into the first bytes of `place`: bytes.
#[unsafe(no_mangle)]
pub extern "C" fn pageoriole_write(
    rules: &[u8],
    initial: &[u8],
    target: &[u8],
    has_default: bool,
    default: &[u8],
    has_keep: bool,
    keep: &[u8],
    has_script: bool,
    script: &[u8],
    place: &mut [u8],
    answer: &mut [u64],
) -> u32
    ensures { Leaves
        (write_outcome (written_values
        (values_given rules.now initial.now target.now has_default default.now has_keep keep.now
        has_script script.now)
        place.old))
        result answer.old answer.new place.new }
{
    let values = values(
        rules,
        initial,
        target,
        has_default,
        default,
        has_keep,
        keep,
        has_script,
        script,
    );
    tell_written(write(&values, place), answer)
}

// Decides a flow by a policy: action and place.
#[unsafe(no_mangle)]
pub extern "C" fn pageoriole_decide(
    rules: &[u8],
    policy: &[u8],
    has_default: bool,
    default: &[u8],
    protocol: u8,
    source: u32,
    source_port: u16,
    destination: u32,
    destination_port: u16,
    answer: &mut [u64],
) -> u32
    ensures { Tells
        (decided_told (decided_at_zero (decided_values rules.now policy.now (given has_default default.now)
        (flow_of protocol source source_port destination destination_port))))
        result answer.old answer.new }
{
    let flow = Flow {
        protocol,
        source,
        source_port,
        destination,
        destination_port,
    };
    tell_decided(
        decide(rules, policy, given(has_default, default), flow),
        answer,
    )
}

// Decides flows by a policy, tested once: bytes of the answers, three for each flow of 13, which fill the first bytes of `place`.
#[unsafe(no_mangle)]
pub extern "C" fn pageoriole_decide_flows(
    rules: &[u8],
    policy: &[u8],
    has_default: bool,
    default: &[u8],
    flows: &[u8],
    place: &mut [u8],
    answer: &mut [u64],
) -> u32
    ensures { Leaves
        (write_outcome (flows_at_zero (deciding_values rules.now policy.now (given has_default default.now)) flows.now
        place.old))
        result answer.old answer.new place.new }
{
    tell_written(
        decide_flows(rules, policy, given(has_default, default), flows, place),
        answer,
    )
}

// Replays a script from a policy: bytes of the last list, which fills the first bytes of `place`; or 20 to 23 and the step.
#[unsafe(no_mangle)]
pub extern "C" fn pageoriole_replay(
    rules: &[u8],
    initial: &[u8],
    has_default: bool,
    default: &[u8],
    script: &[u8],
    place: &mut [u8],
    answer: &mut [u64],
) -> u32
    ensures { Leaves
        (replay_outcome (replayed_at_zero (replayed_values rules.now initial.now (given has_default default.now) script.now)
        place.old))
        result answer.old answer.new place.new }
{
    tell_ran(
        replay(rules, initial, given(has_default, default), script, place),
        answer,
    )
}

// Plans by append and delete: rules kept, commands and bytes of the script field, which fills the first bytes of `place`.
#[unsafe(no_mangle)]
pub extern "C" fn pageoriole_plan_one(
    rules: &[u8],
    initial: &[u8],
    target: &[u8],
    has_default: bool,
    default: &[u8],
    has_keep: bool,
    keep: &[u8],
    has_script: bool,
    script: &[u8],
    place: &mut [u8],
    answer: &mut [u64],
) -> u32
    ensures { Leaves
        (plan_outcome (planned made_one (read_values
        (values_given rules.now initial.now target.now has_default default.now has_keep keep.now
        has_script script.now))
        place.old))
        result answer.old answer.new place.new }
{
    let values = values(
        rules,
        initial,
        target,
        has_default,
        default,
        has_keep,
        keep,
        has_script,
        script,
    );
    tell_planned(plan_one(&values, place), answer)
}

// Plans by insert, delete and move.
#[unsafe(no_mangle)]
pub extern "C" fn pageoriole_plan_two(
    rules: &[u8],
    initial: &[u8],
    target: &[u8],
    has_default: bool,
    default: &[u8],
    has_keep: bool,
    keep: &[u8],
    has_script: bool,
    script: &[u8],
    place: &mut [u8],
    answer: &mut [u64],
) -> u32
    ensures { Leaves
        (plan_outcome (planned made_two (read_values
        (values_given rules.now initial.now target.now has_default default.now has_keep keep.now
        has_script script.now))
        place.old))
        result answer.old answer.new place.new }
{
    let values = values(
        rules,
        initial,
        target,
        has_default,
        default,
        has_keep,
        keep,
        has_script,
        script,
    );
    tell_planned(plan_two(&values, place), answer)
}

// Judges a script: the verdict's number, and its values.
#[unsafe(no_mangle)]
pub extern "C" fn pageoriole_judge(
    rules: &[u8],
    initial: &[u8],
    target: &[u8],
    has_default: bool,
    default: &[u8],
    has_keep: bool,
    keep: &[u8],
    script: &[u8],
    answer: &mut [u64],
) -> u32
    ensures { Tells
        (judged_told (judged_reading (read_values
        (values_given rules.now initial.now target.now has_default default.now has_keep keep.now
        true script.now))))
        result answer.old answer.new }
{
    let values = values(
        rules,
        initial,
        target,
        has_default,
        default,
        has_keep,
        keep,
        true,
        script,
    );
    tell_judged(judge(&values), answer)
}
