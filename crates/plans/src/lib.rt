// What both planners share: the answer of a planner, and its way into the lent place. `field` has the script field under way.

#![tactic(auto)]

ghost use Rattle.std.specs.Prelude.{◌≡◌};
ghost use Rattle.plans.specs.Plans.{sent_plan};
ghost use Rattle.deployment.specs.FieldValues.{left_by};

use deployment::{Refusal, Why};
use format::store;

pub mod field;

// What a planner has written.
#[derive(Clone, Copy)]
pub struct Plan {
    pub kept: usize,
    pub commands: usize,
    pub bytes: usize,
}

// "On success the output fills the first bytes and the rest keep theirs"; 13 at the bytes needed.
pub fn send(plan: Plan, field: &[u8], place: &mut [u8]) -> Result<Plan, Refusal>
    ensures { left_by result place.new ≡ sent_plan plan field.now place.old }
{
    if place.len() < field.len() {
        return Err(Refusal {
            why: Why::Room,
            at: field.len(),
        });
    }
    store(place, 0, field);
    Ok(plan)
}
