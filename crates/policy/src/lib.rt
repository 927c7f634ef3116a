// The words of document 01 that carry values: flows, decisions, commands, faults, verdicts.
// What the words mean is in specs/, and every crate above uses these types.

#![tactic(auto)]

ghost use Rattle.std.specs.Prelude.{◌≡◌};
ghost use Rattle.policy.specs.Command.{fault_number};
ghost use Rattle.policy.specs.Rule.{action_number};

// "at most 1,024 rules in the catalogue"; a running list has no more, "since its rules differ"
pub const MOST_RULES: usize = 1024;

// What a rule says, and what a flow gets.
#[derive(Clone, Copy, Debug, PartialEq, Eq)]
pub enum Action {
    Deny,
    Permit,
}

// "action (0 deny, 1 permit)"
impl From<Action> for u8 {
    ghost from_gives = { λ action n. n ≡ action_number action };

    fn from(action: Action) -> u8 {
        match action {
            Action::Deny => 0,
            Action::Permit => 1,
        }
    }
}

// "A flow is five numbers."
#[derive(Clone, Copy, Debug, PartialEq, Eq)]
pub struct Flow {
    pub protocol: u8,
    pub source: u32,
    pub source_port: u16,
    pub destination: u32,
    pub destination_port: u16,
}

// "The answer is the action and the place of that rule, places counted from 1, or place 0 for the default."
#[derive(Clone, Copy, Debug, PartialEq, Eq)]
pub struct Decision {
    pub action: Action,
    pub place: usize,
}

// "Each command is an enum case with its own numbers": `app r`, `del r`, `ins i r`, `del i`, `mov i j`.
#[derive(Clone, Copy, Debug, PartialEq, Eq)]
pub enum Command {
    App(u16),
    DelRule(u16),
    Ins(u16, u16),
    DelPlace(u16),
    Mov(u16, u16),
}

// The code byte of each command, and the type byte of a script that may hold it.
impl Command {
    pub const APP: u8 = 1;

    pub const DEL_RULE: u8 = 2;

    pub const INS: u8 = 3;

    pub const DEL_PLACE: u8 = 4;

    pub const MOV: u8 = 5;

    pub const APPEND_DELETE: u8 = 1;

    pub const INSERT_DELETE_MOVE: u8 = 2;
}

// Why a command fails: numbers 20 to 23.
#[derive(Clone, Copy, Debug, PartialEq, Eq)]
pub enum Fault {
    Present,
    Absent,
    Place,
    Number,
}

// The table's number of each.
impl From<Fault> for u8 {
    ghost from_gives = { λ fault n. n ≡ fault_number fault };

    fn from(fault: Fault) -> u8 {
        match fault {
            Fault::Present => 20,
            Fault::Absent => 21,
            Fault::Place => 22,
            Fault::Number => 23,
        }
    }
}

// What the judge says: numbers 20 to 24, 30, 31 and 32.
#[derive(Clone, Copy, Debug, PartialEq, Eq)]
pub enum Verdict {
    Broken(Fault, usize),
    Elsewhere(usize),
    Unordered(usize, usize),
    NotFull,
    Safe,
}

// The table's numbers, but for a replay that breaks: that has its fault's.
impl Verdict {
    pub const ELSEWHERE: u8 = 24;

    pub const UNORDERED: u8 = 30;

    pub const NOT_FULL: u8 = 31;

    pub const SAFE: u8 = 32;
}
