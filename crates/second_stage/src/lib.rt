// The second stage of the planner for insert, delete and move: it takes the rules that wait, from last place to first, and settles each. A command
// is put into the field as it is done on the running list, whose places it names.

#![tactic(auto)]

ghost use Rattle.std.specs.Prelude.{◌≡◌, ℕ, ◌+◌, ◌≤◌, ◌<◌, ltb, length, drop, get_or};
ghost use Rattle.policy.specs.InsertDeleteMove.{second_stage};
ghost use Rattle.policy.specs.Claims.{Admitted};
ghost use Rattle.policy.specs.Policy.{most_rules};
ghost use Rattle.policy.specs.Properties.{In};
ghost use Rattle.running.specs.Running.{view};
ghost use Rattle.plans.specs.Sending.{Sent, most_planned};
ghost use Rattle.first_stage.specs.Looking.{until};
ghost use Rattle.first_stage.specs.FirstStage.{front_of};
ghost use Rattle.second_stage.specs.SecondStage.{Lowered};

use first_stage::{Stage, places_of};
use places::place_of;
use plans::field::{FIELD_BYTES, put};
use policy::Command;
use running::Running;

// The index of the first rule, from index `from` on, whose place in the target is above the given one; the length of the list if there is none.
fn first_above(list: Running, from: usize, to: &[u16], place: usize) -> usize
    requires { from ≤ length (view list) }
    ensures { result ≡ from + until (λ x. ltb place (get_or to.now x 0)) (drop from (view list)) }
{
    let len = list.count();
    match list.rules[from..len]
        .iter()
        .position(|rule| place < place_of(to, *rule))
    {
        Some(before) => from + before,
        None => len,
    }
}

// One waiting rule, r at place i, with settled rules alone behind it: "One that is not in the target is deleted. Any other is moved to stand just
// before the first settled rule that follows it in the target, or to the end if there is none."
fn settle(
    list: Running,
    i: usize,
    r: u16,
    to: &[u16],
    sent: u16,
    field: &mut [u8; FIELD_BYTES],
) -> Running
    requires { (0 < i) × (i ≤ length (view list)) × (r < most_rules) × (sent < most_planned) }
    ensures { Lowered to.now list i r sent field.old result field.new }
{
    let place = place_of(to, r);
    if place == 0 {
        put(field, sent, Command::DelPlace(i as u16));
        let edited = list.del_place(i);
        return edited.list;
    }
    let j = first_above(list, i, to, place);
    put(field, sent, Command::Mov(i as u16, j as u16));
    let edited = list.mov(i, j);
    edited.list
}

// "Second stage. Take the waiting rules from last place to first." Answers how many commands are sent then.
pub fn stage_two(stage: Stage, target: Running, field: &mut [u8; FIELD_BYTES]) -> u16
    requires { Admitted most_rules (view target) × ((r : ℕ) → In r (view stage.list) → r < most_rules)
        × (stage.sent + length (second_stage (view target) (front_of stage)) ≤ most_planned) }
    ensures { (result ≡ stage.sent + length (second_stage (view target) (front_of stage)))
        × Sent field.old stage.sent (second_stage (view target) (front_of stage)) field.new }
{
    let to = places_of(target);
    let settled = stage.settled;
    let mut list = stage.list;
    let mut sent = stage.sent;
    let len = list.count();
    for at in (0..len).rev() {
        let r = list.rules[at];
        if !settled[r as usize] {
            list = settle(list, at + 1, r, &to, sent, field);
            sent += 1;
        }
    }
    sent
}
