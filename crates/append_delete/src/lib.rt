// The script for append and delete: deletes of what is not kept, then appends. Made in a place of its own, then sent to the lent one.

#![tactic(auto)]

ghost use Rattle.std.specs.Prelude.{◌≡◌, false, ℕ, ◌+◌, ◌-◌, ◌≤◌, ◌<◌, length, take, get_or};
ghost use Rattle.policy.specs.AppendDelete.{kept_run};
ghost use Rattle.policy.specs.Lists.{mem};
ghost use Rattle.policy.specs.Policy.{most_rules, most_listed};
ghost use Rattle.policy.specs.Properties.{In};
ghost use Rattle.policy.specs.Claims.{Admitted};
ghost use Rattle.deployment.specs.Values.{numbers_of};
ghost use Rattle.plans.specs.Sending.{Sent, most_planned};
ghost use Rattle.append_delete.specs.DeletesAppends.{deletes, appends};
ghost use Rattle.plans.specs.Plans.{made_one_of, Placed, placed_plan};
ghost use Rattle.deployment.specs.FieldValues.{left_by};

use deployment::Refusal;
use format::{listed, number_at};
use plans::field::{FIELD_BYTES, close, put};
use plans::{Plan, send};
use policy::{Command, MOST_RULES};

// "Kept: the longest run from the front of the target whose rules occur in the same order in the initial policy": how many they are.
fn kept_run(initial: &[u8], target: &[u8]) -> usize
    ensures { result ≡ length (kept_run (numbers_of initial.now) (numbers_of target.now)) }
{
    let rules = listed(initial);
    let wanted = listed(target);
    let mut kept = 0;
    // Kept: here and below rules are counted, since a list's numbers are read from its bytes by their index; no slice has them.
    for i in 0..rules {
        if kept < wanted {
            if number_at(initial, i) == number_at(target, kept) {
                kept += 1;
            }
        }
    }
    kept
}

// The first rule numbers of a list, marked.
fn marked(list: &[u8], count: usize) -> [bool; MOST_RULES]
    requires { count ≤ length (numbers_of list.now) }
    ensures { (r : ℕ) → r < most_rules → get_or result r false ≡ mem r (take count (numbers_of list.now)) }
{
    let mut marks = [false; MOST_RULES];
    for i in 0..count {
        let r = number_at(list, i) as usize;
        if r < MOST_RULES {
            marks[r] = true;
        }
    }
    marks
}

// "Delete the initial rules that are not kept, last to first": sends them, and answers how many they are.
fn send_deletes(initial: &[u8], marks: [bool; MOST_RULES], field: &mut [u8; FIELD_BYTES]) -> u16
    requires { (length (numbers_of initial.now) ≤ most_rules) × ((r : ℕ) → In r (numbers_of initial.now) → r < most_rules) }
    ensures { (result ≡ length (deletes marks (numbers_of initial.now)))
        × Sent field.old 0 (deletes marks (numbers_of initial.now)) field.new }
{
    let rules = listed(initial);
    let mut n = 0u16;
    for i in (0..rules).rev() {
        let r = number_at(initial, i);
        if !marks[r as usize] {
            put(field, n, Command::DelRule(r));
            n += 1;
        }
    }
    n
}

// "Then append the rest of the target in order": sends it behind the commands sent before, and answers how many there are now.
fn send_appends(target: &[u8], kept: usize, before: u16, field: &mut [u8; FIELD_BYTES]) -> u16
    requires { (kept ≤ length (numbers_of target.now)) × (before + (length (numbers_of target.now) - kept) ≤ most_planned) }
    ensures { (result ≡ before + length (appends kept (numbers_of target.now)))
        × Sent field.old before (appends kept (numbers_of target.now)) field.new }
{
    let wanted = listed(target);
    let mut n = before;
    for j in kept..wanted {
        put(field, n, Command::App(number_at(target, j)));
        n += 1;
    }
    n
}

// The plan for two policies, in a place for the longest field.
fn made_one(initial: &[u8], target: &[u8], field: &mut [u8; FIELD_BYTES]) -> Plan
    requires { Admitted most_rules (numbers_of initial.now) × (length (numbers_of initial.now) ≤ most_listed) × (length (numbers_of target.now) ≤ most_listed) }
    ensures { Placed (made_one_of (numbers_of initial.now) (numbers_of target.now)) result field.old field.new }
{
    let kept = kept_run(initial, target);
    let marks = marked(target, kept);
    let deleted = send_deletes(initial, marks, field);
    let commands = send_appends(target, kept, deleted, field);
    close(field, Command::APPEND_DELETE, kept, commands)
}

// The plan for two policies that the reader accepts, in the lent place.
pub fn plan_one(initial: &[u8], target: &[u8], place: &mut [u8]) -> Result<Plan, Refusal>
    requires { Admitted most_rules (numbers_of initial.now) × (length (numbers_of initial.now) ≤ most_listed) × (length (numbers_of target.now) ≤ most_listed) }
    ensures { left_by result place.new ≡ placed_plan (made_one_of (numbers_of initial.now) (numbers_of target.now)) place.old }
{
    let mut field = [0u8; FIELD_BYTES];
    let plan = made_one(initial, target, &mut field);
    let bytes = plan.bytes;
    send(plan, &field[0..bytes], place)
}
