// The commands of a script as bytes: which codes a type allows, a command read from a script value, and its five bytes. Each answers for every
// byte and every place in a value; what a command means is in crate `policy`.

#![tactic(auto)]

ghost use Rattle.std.specs.Prelude.{◌≡◌};
ghost use Rattle.policy.specs.Lists.{mem};
ghost use Rattle.policy.specs.Command.{coded, codes_of, is_type};
ghost use Rattle.deployment.specs.Values.{command_of, command_from, coded_bytes};
ghost use Rattle.deployment.specs.Commands.{command_count, command_at, decoded};

use format::{COMMAND_BYTES, two_at};
use policy::Command;

// "Type 1: code 1 `app r`, code 2 `del r`. Type 2: code 3 `ins i r`, code 4 `del i`, code 5 `mov i j`": whether a script type allows a code.
pub fn allows(kind: u8, code: u8) -> bool
    ensures { result ≡ mem code (codes_of kind) }
{
    match kind {
        Command::APPEND_DELETE => match code {
            Command::APP | Command::DEL_RULE => true,
            _ => false,
        },
        Command::INSERT_DELETE_MOVE => match code {
            Command::INS | Command::DEL_PLACE | Command::MOV => true,
            _ => false,
        },
        _ => false,
    }
}

// Whether there are scripts of a type: it allows the code of some command.
pub fn is_type(kind: u8) -> bool
    ensures { result ≡ is_type kind }
{
    allows(kind, Command::APP)
        || (allows(kind, Command::DEL_RULE)
            || (allows(kind, Command::INS)
                || (allows(kind, Command::DEL_PLACE) || allows(kind, Command::MOV))))
}

// The command of a code; a number that isn't used is 0.
#[tactic(auto, unfolding(deployment::specs::Values::command_of, deployment::specs::Commands::decoded))]
fn command_of(code: u8, one: u16, two: u16) -> Option<Command>
    ensures { result ≡ decoded (command_of (record { code = code; one = one; two = two })) }
{
    match (code, two) {
        (Command::INS, _) => Some(Command::Ins(one, two)),
        (Command::MOV, _) => Some(Command::Mov(one, two)),
        (Command::APP, 0) => Some(Command::App(one)),
        (Command::DEL_RULE, 0) => Some(Command::DelRule(one)),
        (Command::DEL_PLACE, 0) => Some(Command::DelPlace(one)),
        _ => None,
    }
}

// The command of a script of the given type.
pub fn decode(kind: u8, code: u8, one: u16, two: u16) -> Option<Command>
    ensures { result ≡ decoded (command_from kind (record { code = code; one = one; two = two })) }
{
    if !allows(kind, code) {
        return None;
    }
    command_of(code, one, two)
}

// How many commands a script value has.
pub fn commands(script: &[u8]) -> usize
    ensures { result ≡ command_count script.now }
{
    script.len().saturating_sub(1) / COMMAND_BYTES
}

// The k-th command of a script value, counted from 0.
pub fn command_at(script: &[u8], k: usize) -> Option<Command>
    ensures { result ≡ decoded (command_at script.now k) }
{
    if commands(script) <= k {
        return None;
    }
    let at = 1 + COMMAND_BYTES * k;
    decode(
        script[0],
        script[at],
        two_at(script, at + 1),
        two_at(script, at + 3),
    )
}

// "A command is one code byte and two two-byte numbers."
pub fn record_of(c: Command) -> [u8; 5]
    ensures { result ≡ coded_bytes (coded c) }
{
    match c {
        Command::App(r) => five(Command::APP, r, 0),
        Command::DelRule(r) => five(Command::DEL_RULE, r, 0),
        Command::Ins(i, r) => five(Command::INS, i, r),
        Command::DelPlace(i) => five(Command::DEL_PLACE, i, 0),
        Command::Mov(i, j) => five(Command::MOV, i, j),
    }
}

fn five(code: u8, one: u16, two: u16) -> [u8; 5]
    ensures { result ≡ coded_bytes (record { code = code; one = one; two = two }) }
{
    let ones = one.to_be_bytes();
    let twos = two.to_be_bytes();
    [code, ones[0], ones[1], twos[0], twos[1]]
}
