// The commands of document 01 in the words of two makers' consoles, without their bytes. The makers count the second number of a move
// differently: here that number has its owner. What the words do to a running list is in specs/.

#![tactic(auto)]

ghost use Rattle.std.specs.Prelude.{◌≡◌};
ghost use Rattle.console.specs.Makers.{maker_of, said, worded, second_said, second_heard};

use policy::Command;

// 02, L2: "maker A (as in document 01) and maker B"
#[derive(Clone, Copy, Debug, PartialEq, Eq)]
pub enum Maker {
    A,
    B,
}

// A command in a maker's words: its code, and its numbers as that maker counts them.
#[derive(Clone, Copy, Debug, PartialEq, Eq)]
pub struct Worded {
    pub code: u8,
    pub one: usize,
    pub two: usize,
}

// The maker that a caller names: B, if asked for, or else A. Kept as a function: the C interface hands in a bool.
#[tactic(auto, unfolding(crate::specs::Makers::maker_of))]
pub fn maker_of(is_b: bool) -> Maker
    ensures { result ≡ maker_of is_b }
{
    if is_b { Maker::B } else { Maker::A }
}

// "So `mov i j` becomes b = j + 1 when j is above i, and b = j otherwise"; maker A writes j.
#[tactic(auto, unfolding(crate::specs::Makers::second_said, crate::specs::Makers::number_before))]
fn second_said(maker: Maker, i: u16, j: u16) -> usize
    ensures { result ≡ second_said maker i j }
{
    match maker {
        Maker::A => j as usize,
        Maker::B => { if i < j { j as usize + 1 } else { j as usize } }
    }
}

// "Reading maps b = i and b = i + 1 both to `mov i i`": where b is above i, the rule that is lifted out stood ahead of it.
#[tactic(auto, unfolding(crate::specs::Makers::second_heard, crate::specs::Makers::place_for))]
pub fn second_heard(maker: Maker, i: usize, b: usize) -> usize
    ensures { result ≡ second_heard maker i b }
{
    match maker {
        Maker::A => b,
        Maker::B => { if i < b { b - 1 } else { b } }
    }
}

// A command in the words of a maker.
#[tactic(auto, unfolding(crate::specs::Makers::said, crate::specs::Makers::worded, policy::specs::Command::coded))]
pub fn in_words(maker: Maker, c: Command) -> Worded
    ensures { result ≡ worded (said maker c) }
{
    match c {
        Command::App(r) => Worded {
            code: Command::APP,
            one: r as usize,
            two: 0,
        },
        Command::DelRule(r) => Worded {
            code: Command::DEL_RULE,
            one: r as usize,
            two: 0,
        },
        Command::Ins(i, r) => Worded {
            code: Command::INS,
            one: i as usize,
            two: r as usize,
        },
        Command::DelPlace(i) => Worded {
            code: Command::DEL_PLACE,
            one: i as usize,
            two: 0,
        },
        Command::Mov(i, j) => Worded {
            code: Command::MOV,
            one: i as usize,
            two: second_said(maker, i, j),
        },
    }
}
