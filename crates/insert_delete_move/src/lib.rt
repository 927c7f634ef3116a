// The script for insert, delete and move: the rules that are kept, then the two stages one after the other, each in a crate of its own, then the
// field's way into the lent place.

#![tactic(auto)]

ghost use Rattle.std.specs.Prelude.{◌≡◌, ◌≤◌, length};
ghost use Rattle.policy.specs.InsertDeleteMove.{own_choice};
ghost use Rattle.policy.specs.Claims.{Admitted, Accepted};
ghost use Rattle.policy.specs.Policy.{most_rules, most_listed};
ghost use Rattle.running.specs.Running.{view};
ghost use Rattle.deployment.specs.Values.{numbers_of};
ghost use Rattle.plans.specs.Plans.{made_two_of, keep_of, Placed, placed_plan};
ghost use Rattle.deployment.specs.FieldValues.{lent, left_by};

use deployment::Refusal;
use first_stage::{places_of, stage_one};
use format::list_of;
use places::{Places, place_of};
use plans::field::{FIELD_BYTES, close};
use plans::{Plan, send};
use policy::{Command, MOST_RULES};
use running::Running;
use second_stage::stage_two;

// "Go through the target in order and keep each common rule that stands in the initial policy after the last one kept."
fn own_choice(initial: Running, target: Running) -> Running
    requires { Admitted most_rules (view initial) × Admitted most_rules (view target) }
    ensures { view result ≡ own_choice (view initial) (view target) }
{
    let of = places_of(initial);
    let len = target.count();
    let mut kept = [0u16; MOST_RULES];
    let mut count = 0;
    let mut last = 0;
    for r in &target.rules[..len] {
        let place = place_of(&of, *r);
        if last < place {
            kept[count] = *r;
            count += 1;
            last = place;
        }
    }
    Running {
        rules: kept,
        len: count,
    }
}

// The plan for two policies and, where it isn't absent, a keep list, in a place for the longest field.
fn made_two(
    initial: &[u8],
    target: &[u8],
    keep: Option<&[u8]>,
    field: &mut [u8; FIELD_BYTES],
) -> Plan
    requires { Accepted most_rules (numbers_of initial.now) (numbers_of target.now) (keep_of (lent keep))
        × (length (numbers_of initial.now) ≤ most_listed) × (length (numbers_of target.now) ≤ most_listed) }
    ensures { Placed (made_two_of (numbers_of initial.now) (numbers_of target.now) (keep_of (lent keep.entry)))
        result field.old field.new }
{
    let old = list_of(initial);
    let new = list_of(target);
    let keeping = match keep {
        Some(keep) => list_of(keep),
        None => own_choice(old, new),
    };
    let stage = stage_one(old, new, keeping, field);
    let commands = stage_two(stage, new, field);
    close(
        field,
        Command::INSERT_DELETE_MOVE,
        keeping.count(),
        commands,
    )
}

// The plan for two policies and a keep list that the reader accepts, in the lent place.
pub fn plan_two(
    initial: &[u8],
    target: &[u8],
    keep: Option<&[u8]>,
    place: &mut [u8],
) -> Result<Plan, Refusal>
    requires { Accepted most_rules (numbers_of initial.now) (numbers_of target.now) (keep_of (lent keep))
        × (length (numbers_of initial.now) ≤ most_listed) × (length (numbers_of target.now) ≤ most_listed) }
    ensures { left_by result place.new
        ≡ placed_plan (made_two_of (numbers_of initial.now) (numbers_of target.now) (keep_of (lent keep.entry))) place.old }
{
    let mut field = [0u8; FIELD_BYTES];
    let plan = made_two(initial, target, keep, &mut field);
    let bytes = plan.bytes;
    send(plan, &field[0..bytes], place)
}
