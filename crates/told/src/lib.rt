// What a caller is told: each answer of the entries as a number, which is returned, and the values that belong to it, which are stored in the first words
// of a lent answer; those that have no room there are left out. No function has a `requires`.

#![tactic(auto)]

ghost use Rattle.std.specs.Prelude.{◌≡◌, [], ◌∷◌};
ghost use Rattle.std.proofs.lemmas.List.Edits.{sets};
ghost use Rattle.policy.specs.Command.{fault_number};
ghost use Rattle.told.specs.Answers.{
  told,
  turned_told,
  span_told,
  layout_told,
  read_told,
  checked_told,
  written_told,
  decided_told,
  ran_told,
  planned_told,
  verdict_told,
  judged_told,
  Tells,
};

use deployment::{Refusal, Why};
use plans::Plan;
use policy::{Decision, Fault, Verdict};
use reader::{Layout, Span};
use replay::Stop;

// The number where nothing is turned away and no command fails.
const DONE: u32 = 0;

// The most values that belong to a number: those of a file that was read.
const MOST_VALUES: usize = 14;

// Stores the values in the first words of the answer, as many as have room.
fn store(answer: &mut [u64], values: &[u64])
    ensures { answer.new ≡ sets answer.old 0 values.now }
{
    let room = values.len().min(answer.len());
    answer[..room].copy_from_slice(&values[..room]);
}

// A number, and the values that belong to it.
fn tell(number: u32, values: &[u64], answer: &mut [u64]) -> u32
    ensures { Tells (told number values.now) result answer.old answer.new }
{
    store(answer, values);
    number
}

// A refusal: its number and its position.
fn tell_turned(refusal: Refusal, answer: &mut [u64]) -> u32
    ensures { Tells (turned_told refusal) result answer.old answer.new }
{
    tell(u8::from(refusal.why) as u32, &[refusal.at as u64], answer)
}

// A command that fails: the fault's number and the step.
fn tell_fault(fault: Fault, step: usize, answer: &mut [u64]) -> u32
    ensures { Tells (told (fault_number fault) (step ∷ [])) result answer.old answer.new }
{
    tell(u8::from(fault) as u32, &[step as u64], answer)
}

// Whether a value is there, its start and its size; 0 for each of one that is absent.
fn span_words(span: Option<Span>) -> [u64; 3]
    ensures { result ≡ span_told span }
{
    match span {
        Some(span) => [1, span.start as u64, span.size as u64],
        None => [0, 0, 0],
    }
}

// Where the values of a file stand.
fn tell_layout(layout: Layout, answer: &mut [u64]) -> u32
    ensures { Tells (layout_told layout) result answer.old answer.new }
{
    let default = span_words(layout.default);
    let keep = span_words(layout.keep);
    let script = span_words(layout.script);
    let values: [u64; MOST_VALUES] = [
        layout.rules as u64,
        layout.initial.start as u64,
        layout.initial.size as u64,
        layout.target.start as u64,
        layout.target.size as u64,
        default[0],
        default[1],
        default[2],
        keep[0],
        keep[1],
        keep[2],
        script[0],
        script[1],
        script[2],
    ];
    tell(DONE, &values, answer)
}

pub fn tell_read(found: Result<Layout, Refusal>, answer: &mut [u64]) -> u32
    ensures { Tells (read_told found) result answer.old answer.new }
{
    match found {
        Ok(layout) => tell_layout(layout, answer),
        Err(refusal) => tell_turned(refusal, answer),
    }
}

pub fn tell_checked(found: Result<(), Why>, answer: &mut [u64]) -> u32
    ensures { Tells (checked_told found) result answer.old answer.new }
{
    match found {
        Ok(()) => DONE,
        Err(why) => tell_turned(why.into(), answer),
    }
}

pub fn tell_written(written: Result<usize, Refusal>, answer: &mut [u64]) -> u32
    ensures { Tells (written_told written) result answer.old answer.new }
{
    match written {
        Ok(n) => tell(DONE, &[n as u64], answer),
        Err(refusal) => tell_turned(refusal, answer),
    }
}

pub fn tell_decided(decided: Result<Decision, Refusal>, answer: &mut [u64]) -> u32
    ensures { Tells (decided_told decided) result answer.old answer.new }
{
    match decided {
        Ok(d) => tell(DONE, &[u8::from(d.action) as u64, d.place as u64], answer),
        Err(refusal) => tell_turned(refusal, answer),
    }
}

pub fn tell_ran(ran: Result<usize, Stop<Refusal>>, answer: &mut [u64]) -> u32
    ensures { Tells (ran_told ran) result answer.old answer.new }
{
    match ran {
        Ok(n) => tell(DONE, &[n as u64], answer),
        Err(Stop::Broken(fault, step)) => tell_fault(fault, step, answer),
        Err(Stop::Turned(refusal)) => tell_turned(refusal, answer),
    }
}

pub fn tell_planned(planned: Result<Plan, Refusal>, answer: &mut [u64]) -> u32
    ensures { Tells (planned_told planned) result answer.old answer.new }
{
    match planned {
        Ok(plan) => tell(
            DONE,
            &[plan.kept as u64, plan.commands as u64, plan.bytes as u64],
            answer,
        ),
        Err(refusal) => tell_turned(refusal, answer),
    }
}

// The number of each verdict, and its values.
fn tell_verdict(verdict: Verdict, answer: &mut [u64]) -> u32
    ensures { Tells (verdict_told verdict) result answer.old answer.new }
{
    match verdict {
        Verdict::Broken(fault, step) => tell_fault(fault, step, answer),
        Verdict::Elsewhere(commands) => tell(Verdict::ELSEWHERE as u32, &[commands as u64], answer),
        Verdict::Unordered(step, place) => tell(
            Verdict::UNORDERED as u32,
            &[step as u64, place as u64],
            answer,
        ),
        Verdict::NotFull => Verdict::NOT_FULL as u32,
        Verdict::Safe => Verdict::SAFE as u32,
    }
}

pub fn tell_judged(judged: Result<Verdict, Refusal>, answer: &mut [u64]) -> u32
    ensures { Tells (judged_told judged) result answer.old answer.new }
{
    match judged {
        Ok(verdict) => tell_verdict(verdict, answer),
        Err(refusal) => tell_turned(refusal, answer),
    }
}
