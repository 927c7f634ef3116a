// The whole text that the programs print, built in a lent place from the bytes of a file. What is printed is in specs/Text.antt.

#![tactic(auto)]

ghost use Rattle.std.specs.Prelude.{◌≡◌, length};
ghost use Rattle.deployment.specs.Contents.{Contents};
ghost use Rattle.deployment.specs.File.{accepted, read_file};
ghost use Rattle.deployment.specs.FieldValues.{left_by, writing};
ghost use Rattle.plans.specs.Plans.{Made};
ghost use Rattle.lines.specs.Text.{block_text};
ghost use Rattle.lines.specs.Printing.{Puts, Whole};
ghost use Rattle.listing.specs.Text.{plan_printed, judge_printed};
ghost use Rattle.listing.specs.Printing.{most_text, Reads};

use deployment::Refusal;
use entries::files::{judge, plan_one, plan_two};
use format::{HEAD_BYTES, listed};
use lines::blocks::put_block;
use lines::outcomes::{put_refused, put_verdict};
use lines::whole::whole_text;
use plans::Plan;
use plans::field::FIELD_BYTES;
use policy::Command;
use reader::file::{read, value};

// No text is longer: a place of so many bytes is never too small.
pub const MOST_TEXT: usize = 65536;

// What `planlist` prints for a file: both plans, or the refusal.
pub fn plan_text(file: &[u8], place: &mut [u8]) -> Result<usize, Refusal>
    ensures { left_by result place.new ≡ writing (plan_printed file.now) place.old }
{
    whole_text(|place| put_plans(file, place), MOST_TEXT, place)
}

// What `judgelist` prints for a file: the verdict, or the refusal.
pub fn judge_text(file: &[u8], place: &mut [u8]) -> Result<usize, Refusal>
    ensures { left_by result place.new ≡ writing (judge_printed file.now) place.old }
{
    whole_text(|place| put_judged(file, place), MOST_TEXT, place)
}

// The text of both plans, or of the refusal.
fn put_plans(file: &[u8], place: &mut [u8]) -> usize
    ensures { Whole most_text place.old (plan_printed file.now) place.new result }
{
    match read(file) {
        Err(refusal) => put_refused(place, refusal),
        Ok(layout) => {
            let initial = listed(value(file, layout.initial));
            let target = listed(value(file, layout.target));
            put_both(file, initial, target, place)
        }
    }
}

// The plans of an accepted file, whose policies have these lengths.
fn put_both(file: &[u8], initial: usize, target: usize, place: &mut [u8]) -> usize
    requires { (c : Contents) × (read_file file.now ≡ accepted c) × (initial ≡ length c.initial) × (target ≡ length c.target) }
    ensures { Whole most_text place.old (plan_printed file.now) place.new result }
{
    let mut field = [0u8; FIELD_BYTES];
    let one = plan_one(file, &mut field);
    let kind = Command::APPEND_DELETE as usize;
    let next = put_plan(place, 0, kind, initial, target, one, &field);
    let two = plan_two(file, &mut field);
    let other = Command::INSERT_DELETE_MOVE as usize;
    put_plan(place, next, other, initial, target, two, &field)
}

// The block of a plan that was made, by the script field that was written.
fn put_plan(
    place: &mut [u8],
    at: usize,
    kind: usize,
    initial: usize,
    target: usize,
    answer: Result<Plan, Refusal>,
    field: &[u8],
) -> usize
    requires { (made : Made) × Reads answer field.now made }
    ensures { (made : Made) → Reads answer field.now made
        → Puts place.old at (block_text kind initial target made.kept made.script.commands) place.new result }
{
    let Ok(plan) = answer else {
        return at;
    };
    put_block(
        place,
        at,
        kind,
        initial,
        target,
        plan.kept,
        &field[HEAD_BYTES..plan.bytes],
    )
}

// The text of the verdict, or of the refusal.
fn put_judged(file: &[u8], place: &mut [u8]) -> usize
    ensures { Whole most_text place.old (judge_printed file.now) place.new result }
{
    match judge(file) {
        Err(refusal) => put_refused(place, refusal),
        Ok(v) => put_verdict(place, v),
    }
}
