// Over a deployment file: each entry as a function that C can call. The number is returned, its values stand in `answer`.

ghost use Rattle.deployment.specs.File.{read_file, read_to_judge};
ghost use Rattle.deployment.specs.FieldValues.{writing};
ghost use Rattle.reader.specs.Answers.{shown, file_read};
ghost use Rattle.plans.specs.Plans.{made_one, made_two};
ghost use Rattle.entries.specs.Answers.{planned};
ghost use Rattle.entries.specs.Answers.{judged_reading};
ghost use Rattle.entries.specs.Answers.{decided_reading, flows_reading, replayed_reading};
ghost use Rattle.listing.specs.Text.{plan_printed, judge_printed};
ghost use Rattle.showing.specs.Text.{show_printed};
ghost use Rattle.told.specs.Answers.{Tells, read_told, decided_told, judged_told};
ghost use Rattle.pageoriole.specs.Answers.{Leaves, write_outcome, replay_outcome, plan_outcome, flow_of};

use entries::files::{
    decide, decide_flows, judge, plan_one, plan_two, read, read_to_judge, replay,
};
use listing::{judge_text, plan_text};
use policy::Flow;
use showing::show_text;
use told::{tell_decided, tell_judged, tell_planned, tell_ran, tell_read, tell_written};

// Reads a file: rules; start and size of initial and target policy; whether there is a default, its start and size; and so for the keep list and
// the script.
#[unsafe(no_mangle)]
pub extern "C" fn pageoriole_read(file: &[u8], answer: &mut [u64]) -> u32
    ensures { Tells (read_told (file_read file.now)) result answer.old answer.new }
{
    tell_read(read(file), answer)
}

// The same, for the judge: a file without a script is turned away.
#[unsafe(no_mangle)]
pub extern "C" fn pageoriole_read_to_judge(file: &[u8], answer: &mut [u64]) -> u32
    ensures { Tells (read_told (shown (read_to_judge file.now))) result answer.old answer.new }
{
    tell_read(read_to_judge(file), answer)
}

// Decides a flow by the target policy of the file, if asked for, or else by its initial one: action and place.
#[unsafe(no_mangle)]
pub extern "C" fn pageoriole_decide_file(
    file: &[u8],
    of_target: bool,
    protocol: u8,
    source: u32,
    source_port: u16,
    destination: u32,
    destination_port: u16,
    answer: &mut [u64],
) -> u32
    ensures { Tells
        (decided_told (decided_reading of_target (flow_of protocol source source_port destination destination_port) (read_file file.now)))
        result answer.old answer.new }
{
    let flow = Flow {
        protocol,
        source,
        source_port,
        destination,
        destination_port,
    };
    tell_decided(decide(file, of_target, flow), answer)
}

// Decides flows by a policy of the file, read once: bytes of the answers, three for each flow of 13, which fill the first bytes of `place`.
#[unsafe(no_mangle)]
pub extern "C" fn pageoriole_decide_flows_file(
    file: &[u8],
    of_target: bool,
    flows: &[u8],
    place: &mut [u8],
    answer: &mut [u64],
) -> u32
    ensures { Leaves
        (write_outcome (flows_reading of_target flows.now (read_file file.now) place.old))
        result answer.old answer.new place.new }
{
    tell_written(decide_flows(file, of_target, flows, place), answer)
}

// Replays the script of the file: bytes of the last list, which fills the first bytes of `place`; or 20 to 23 and the step.
#[unsafe(no_mangle)]
pub extern "C" fn pageoriole_replay_file(file: &[u8], place: &mut [u8], answer: &mut [u64]) -> u32
    ensures { Leaves
        (replay_outcome (replayed_reading (read_to_judge file.now) place.old))
        result answer.old answer.new place.new }
{
    tell_ran(replay(file, place), answer)
}

// Plans by append and delete: rules kept, commands and bytes of the script field, which fills the first bytes of `place`.
#[unsafe(no_mangle)]
pub extern "C" fn pageoriole_plan_one_file(file: &[u8], place: &mut [u8], answer: &mut [u64]) -> u32
    ensures { Leaves
        (plan_outcome (planned made_one (read_file file.now) place.old))
        result answer.old answer.new place.new }
{
    tell_planned(plan_one(file, place), answer)
}

// Plans by insert, delete and move.
#[unsafe(no_mangle)]
pub extern "C" fn pageoriole_plan_two_file(file: &[u8], place: &mut [u8], answer: &mut [u64]) -> u32
    ensures { Leaves
        (plan_outcome (planned made_two (read_file file.now) place.old))
        result answer.old answer.new place.new }
{
    tell_planned(plan_two(file, place), answer)
}

// Judges the script of the file: the verdict's number, and its values.
#[unsafe(no_mangle)]
pub extern "C" fn pageoriole_judge_file(file: &[u8], answer: &mut [u64]) -> u32
    ensures { Tells (judged_told (judged_reading (read_to_judge file.now))) result answer.old answer.new }
{
    tell_judged(judge(file), answer)
}

// What `planlist` prints for the file, in the first bytes of `place`: bytes. A file that is turned away has a text too.
#[unsafe(no_mangle)]
pub extern "C" fn pageoriole_plan_text(file: &[u8], place: &mut [u8], answer: &mut [u64]) -> u32
    ensures { Leaves
        (write_outcome (writing (plan_printed file.now) place.old))
        result answer.old answer.new place.new }
{
    tell_written(plan_text(file, place), answer)
}

// What `judgelist` prints for the file.
#[unsafe(no_mangle)]
pub extern "C" fn pageoriole_judge_text(file: &[u8], place: &mut [u8], answer: &mut [u64]) -> u32
    ensures { Leaves
        (write_outcome (writing (judge_printed file.now) place.old))
        result answer.old answer.new place.new }
{
    tell_written(judge_text(file, place), answer)
}

// What `showlist` prints for the file.
#[unsafe(no_mangle)]
pub extern "C" fn pageoriole_show_text(file: &[u8], place: &mut [u8], answer: &mut [u64]) -> u32
    ensures { Leaves
        (write_outcome (writing (show_printed file.now) place.old))
        result answer.old answer.new place.new }
{
    tell_written(show_text(file, place), answer)
}
