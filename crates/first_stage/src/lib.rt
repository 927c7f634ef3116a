// The first stage of the planner for insert, delete and move: it takes the target's rules in order, and each rule joins the front of the running
// list or waits there. A command is put into the field as it is done on the running list, whose places it names.

#![tactic(auto)]

ghost use Rattle.std.specs.Prelude.{◌≡◌, true, ◌+◌, ◌*◌, ◌≤◌, ◌<◌, eqb, length, drop, set, replicate};
ghost use Rattle.std.proofs.Math.Option.{some};
ghost use Rattle.std.proofs.lemmas.List.Edits.{sets};
ghost use Rattle.policy.specs.Claims.{Accepted};
ghost use Rattle.policy.specs.Command.{coded};
ghost use Rattle.policy.specs.Policy.{most_rules, most_listed};
ghost use Rattle.running.specs.Running.{view};
ghost use Rattle.places.specs.Places.{renumbered};
ghost use Rattle.deployment.specs.Values.{coded_bytes};
ghost use Rattle.plans.specs.Sending.{most_planned};
ghost use Rattle.first_stage.specs.Looking.{until};
ghost use Rattle.first_stage.specs.FirstStage.{Took, FirstStage};

use places::{Places, place_of};
use plans::field::{FIELD_BYTES, put};
use policy::{Command, MOST_RULES};
use running::Running;

// The running list in the first stage: its first `front` rules are the front, the settled ones of them are marked by their numbers, and so
// many commands are sent.
#[derive(Clone, Copy)]
pub struct Stage {
    pub list: Running,
    pub front: usize,
    pub settled: [bool; MOST_RULES],
    pub sent: u16,
}

// Each rule's place in a list, 0 for a rule that isn't there.
pub fn places_of(list: Running) -> [u16; MOST_RULES]
    ensures { result ≡ renumbered 1 (view list) (replicate most_rules 0) }
{
    let numbered = Places::none().numbered(list, 0);
    numbered.of
}

// The index of rule r, looked for from index `from` on; the length of the list if it isn't there.
fn seek(list: Running, from: usize, r: u16) -> usize
    requires { from ≤ length (view list) }
    ensures { result ≡ from + until (λ x. eqb x r) (drop from (view list)) }
{
    let len = list.count();
    match list.rules[from..len].iter().position(|rule| *rule == r) {
        Some(before) => from + before,
        None => len,
    }
}

impl Stage {
    // Rule r has joined the front, settled.
    fn joined(self, list: Running, front: usize, r: u16, sent: u16) -> Stage
        requires { r < most_rules }
        ensures { result ≡ record { list = list; front = front; settled = set self.settled r true; sent = sent } }
    {
        let mut settled = self.settled;
        settled[r as usize] = true;
        Stage {
            list,
            front,
            settled,
            sent,
        }
    }

    // Rule r has joined the front, settled, by a command that gives this list.
    fn joined_by(self, c: Command, list: Running, r: u16, field: &mut [u8]) -> Stage
        requires { (r < most_rules) × (self.front < most_rules) × (self.sent < most_planned) }
        ensures { (result ≡ record { list = list; front = self.front + 1; settled = set self.settled r true; sent = self.sent + 1 })
            × (field.new ≡ sets field.old (4 + 5 * self.sent) (coded_bytes (coded c))) }
    {
        put(field, self.sent, c);
        self.joined(list, self.front + 1, r, self.sent + 1)
    }
}

// One rule of the target: whether it is in the initial policy, and whether it is kept.
fn take_one(stage: Stage, r: u16, old: bool, keep: bool, field: &mut [u8; FIELD_BYTES]) -> Stage
    requires { (stage.front ≤ length (view stage.list)) × (length (view stage.list) < most_rules) × (r < most_rules) × (stage.sent < most_planned) }
    ensures { Took stage r old keep field.old result field.new }
{
    let front = stage.front;
    let next = front + 1;
    // "Not in the initial policy: insert it right after the front; it joins, settled."
    if !old {
        let edited = stage.list.ins(MOST_RULES, next, r, 0);
        return stage.joined_by(Command::Ins(next as u16, r), edited.list, r, field);
    }
    let at = seek(stage.list, front, r);
    // "Kept: every rule between the front and it joins the front, waiting; it joins, settled."
    if keep {
        return stage.joined(stage.list, at + 1, r, stage.sent);
    }
    // "Already in the front: it waits."
    if at == stage.list.count() {
        return stage;
    }
    // "Move it right after the front, or send nothing if it stands there; it joins, settled."
    if at == front {
        return stage.joined(stage.list, next, r, stage.sent);
    }
    let place = at + 1;
    let edited = stage.list.mov(place, next);
    stage.joined_by(
        Command::Mov(place as u16, next as u16),
        edited.list,
        r,
        field,
    )
}

// "First stage. The front of the running list starts empty. Take the target's rules in order."
pub fn stage_one(
    initial: Running,
    target: Running,
    kept: Running,
    field: &mut [u8; FIELD_BYTES],
) -> Stage
    requires { Accepted most_rules (view initial) (view target) (some (view kept)) × (length (view initial) ≤ most_listed) × (length (view target) ≤ most_listed) }
    ensures { FirstStage (view initial) (view target) (view kept) field.old result field.new }
{
    let of = places_of(initial);
    let kept_of = places_of(kept);
    let len = target.count();
    let mut stage = Stage {
        list: initial,
        front: 0,
        settled: [false; MOST_RULES],
        sent: 0,
    };
    for r in &target.rules[..len] {
        stage = take_one(
            stage,
            *r,
            place_of(&of, *r) != 0,
            place_of(&kept_of, *r) != 0,
            field,
        );
    }
    stage
}
