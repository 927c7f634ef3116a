// The text of a file's own script, and of the plans for its policies.

ghost use Rattle.std.specs.Prelude.{◌≡◌};
ghost use Rattle.deployment.specs.FieldValues.{left_by};
ghost use Rattle.plans.specs.Plans.{made_one, made_two};
ghost use Rattle.console_text.specs.Answers.{text_of_file, text_of_plan};
ghost use Rattle.console_writer.specs.Printing.{Answered, PlanText};

use super::write_text;
use console::Maker;
use deployment::Refusal;
use entries::files::{plan_one, plan_two, read_to_judge, value_or_empty};
use format::HEAD_BYTES;
use plans::Plan;
use plans::field::FIELD_BYTES;

// The text of the file's script: 1 to 12, and last 13.
pub fn script_text(file: &[u8], maker: Maker, place: &mut [u8]) -> Result<usize, Refusal>
    ensures { left_by result place.new ≡ text_of_file maker file.now place.old }
{
    let layout = read_to_judge(file)?;
    write_text(value_or_empty(file, layout.script), maker, place)
}

// The text of the plan that was made, by the script field that was written; or why none was.
fn write_planned(
    answer: Result<Plan, Refusal>,
    field: &[u8],
    maker: Maker,
    place: &mut [u8],
) -> Result<usize, Refusal>
    requires { Answered answer field.now }
    ensures { PlanText maker answer field.now place.old (left_by result place.new) }
{
    let plan = answer?;
    write_text(&field[HEAD_BYTES..plan.bytes], maker, place)
}

// The text of the plan by append and delete for the policies of the file: 1 to 11, and last 13.
pub fn plan_one_text(file: &[u8], maker: Maker, place: &mut [u8]) -> Result<usize, Refusal>
    ensures { left_by result place.new ≡ text_of_plan maker made_one file.now place.old }
{
    let mut field = [0u8; FIELD_BYTES];
    let answer = plan_one(file, &mut field);
    write_planned(answer, &field, maker, place)
}

// The same by insert, delete and move. Kept beside the other: a planner that is handed over needs a contract longer than these three lines.
pub fn plan_two_text(file: &[u8], maker: Maker, place: &mut [u8]) -> Result<usize, Refusal>
    ensures { left_by result place.new ≡ text_of_plan maker made_two file.now place.old }
{
    let mut field = [0u8; FIELD_BYTES];
    let answer = plan_two(file, &mut field);
    write_planned(answer, &field, maker, place)
}
