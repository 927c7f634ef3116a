// Replay of both editing languages: one command after another on a running list, with a side array that says where each rule stands.

#![tactic(auto)]

ghost use Rattle.std.specs.Prelude.{◌≡◌, ℕ, ◌-◌, replicate};
ghost use Rattle.policy.specs.Policy.{most_rules};
ghost use Rattle.policy.specs.Command.{rule_at};
ghost use Rattle.policy.specs.declared.Command.TheVariants.{App, DelRule, Ins, DelPlace, Mov};
ghost use Rattle.policy.specs.Replay.{replay};
ghost use Rattle.running.specs.Running.{view, shown};
ghost use Rattle.places.specs.Places.{renumbered};
ghost use Rattle.deployment.specs.Values.{script_of};
ghost use Rattle.replay.specs.declared.Stop.TheVariants.{Turned};
ghost use Rattle.replay.specs.Stepping.{step_left, left_by, settled, Sound};
ghost use Rattle.replay.specs.Answers.{shown_by, outcome_of, commands_of, Readable, replayed};

use commands::{command_at, commands};
use deployment::Why;
use format::list_of;
use places::Places;
use policy::{Command, Fault, MOST_RULES};
use running::{Edited, Running};
use values::{policy_checked, script_checked};

// A running list and its side array.
#[derive(Clone, Copy)]
pub struct Replaying {
    pub list: Running,
    pub places: Places,
}

// The state after a command, and the refusal, if any.
#[derive(Clone, Copy)]
pub struct Stepped {
    pub state: Replaying,
    pub refusal: Option<Fault>,
}

// Why a replay has no last list: a command fails, with its step, or what was given is turned away.
#[derive(Clone, Copy, Debug, PartialEq, Eq)]
pub enum Stop<T> {
    Broken(Fault, usize),
    Turned(T),
}

impl From<Why> for Stop<Why> {
    ghost from_gives = { λ why stop. stop ≡ Turned why };

    fn from(why: Why) -> Self {
        Stop::Turned(why)
    }
}

// The index of a place; 0 for no place.
fn index_of(i: usize) -> usize
    ensures { result ≡ i - 1 }
{
    i.saturating_sub(1)
}

// The rule at a place; 0 for a place that the list doesn't have.
fn rule_at(list: Running, i: usize) -> u16
    ensures { result ≡ rule_at i (view list) }
{
    let at = index_of(i);
    if at < list.count() { list.rules[at] } else { 0 }
}

// What an edit leaves: on success the rules from index `from` on are numbered anew, in `places`; a refusal leaves the array as it was.
fn settle(e: Edited, before: Places, places: Places, from: usize) -> Stepped
    ensures { left_by result ≡ settled (shown e) before.of places.of from }
{
    let list = e.list;
    let anew = match e.refusal {
        None => places.numbered(list, from),
        Some(_) => before,
    };
    Stepped {
        state: Replaying { list, places: anew },
        refusal: e.refusal,
    }
}

impl Replaying {
    // The side array of a list.
    pub fn start(list: Running) -> Self
        ensures { (view result.list ≡ view list) × (result.places.of ≡ renumbered 1 (view list) (replicate most_rules 0)) }
    {
        let places = Places::none().numbered(list, 0);
        Replaying { list, places }
    }

    // `app r`: the rule is numbered as the last.
    fn appended(self, size: usize, r: u16) -> Stepped
        ensures { left_by result ≡ step_left size (view self.list) self.places.of (App r) }
    {
        let list = self.list;
        let places = self.places;
        let place = places.place(r);
        settle(list.app(size, r, place), places, places, list.count())
    }

    // `del r`: the rule is cleared, those that stood behind it are numbered anew.
    fn rule_deleted(self, size: usize, r: u16) -> Stepped
        ensures { left_by result ≡ step_left size (view self.list) self.places.of (DelRule r) }
    {
        let list = self.list;
        let places = self.places;
        let place = places.place(r);
        let from = index_of(place);
        settle(
            list.del_rule(size, r, place),
            places,
            places.cleared(r),
            from,
        )
    }

    // `ins i r`: the rule and those behind it are numbered anew.
    fn inserted(self, size: usize, i: usize, r: u16) -> Stepped
        ensures { left_by result ≡ step_left size (view self.list) self.places.of (Ins i r) }
    {
        let list = self.list;
        let places = self.places;
        let place = places.place(r);
        settle(list.ins(size, i, r, place), places, places, index_of(i))
    }

    // `del i`: the rule there is cleared, those that stood behind it are numbered anew.
    fn place_deleted(self, i: usize) -> Stepped
        ensures { (size : ℕ) → left_by result ≡ step_left size (view self.list) self.places.of (DelPlace i) }
    {
        let list = self.list;
        let places = self.places;
        let r = rule_at(list, i);
        settle(list.del_place(i), places, places.cleared(r), index_of(i))
    }

    // `mov i j`: the rules from the smaller place on are numbered anew.
    fn moved(self, i: usize, j: usize) -> Stepped
        ensures { (size : ℕ) → left_by result ≡ step_left size (view self.list) self.places.of (Mov i j) }
    {
        let list = self.list;
        let places = self.places;
        settle(list.mov(i, j), places, places, index_of(i.min(j)))
    }

    // One command, for a catalogue of `size` rules.
    pub fn step(self, size: usize, c: Command) -> Stepped
        ensures { left_by result ≡ step_left size (view self.list) self.places.of c }
    {
        match c {
            Command::App(r) => self.appended(size, r),
            Command::DelRule(r) => self.rule_deleted(size, r),
            Command::Ins(i, r) => self.inserted(size, i as usize, r),
            Command::DelPlace(i) => self.place_deleted(i as usize),
            Command::Mov(i, j) => self.moved(i as usize, j as usize),
        }
    }
}

// The commands of a script value one after another; the first is step 1. Each decodes, since the script is readable.
fn run(start: Replaying, size: usize, script: &[u8]) -> Result<Running, Stop<Why>>
    requires { Sound size (view start.list) start.places.of × Readable script.now }
    ensures { shown_by result ≡ outcome_of (replay size (view start.list) (commands_of (script_of script.now))) }
{
    let count = commands(script);
    let mut state = start;
    for k in 0..count {
        let c = command_at(script, k).ok_or(Why::Coding)?;
        let s = state.step(size, c);
        if let Some(fault) = s.refusal {
            return Err(Stop::Broken(fault, k + 1));
        }
        state = s.state;
    }
    Ok(state.list)
}

// Replays a script value from a policy value, for a catalogue of `size` rules.
pub fn replay(size: usize, initial: &[u8], script: &[u8]) -> Result<Running, Stop<Why>>
    ensures { shown_by result ≡ replayed size initial.now script.now }
{
    policy_checked(initial, size)?;
    script_checked(script)?;
    run(
        Replaying::start(list_of(initial)),
        size.min(MOST_RULES),
        script,
    )
}
