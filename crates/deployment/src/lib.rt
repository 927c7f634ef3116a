// The deployment file and field values: what is read and written is in specs/. Here: why bytes are turned away, by the table's numbers. The
// bytes themselves are read and written by crates `format` and `commands`.

#![tactic(auto)]

ghost use Rattle.std.specs.Prelude.{◌≡◌};
ghost use Rattle.deployment.specs.Checked.{why_number};

// Numbers 1 to 13 of "Turned away", 50 and 55 to 58.
#[derive(Clone, Copy, Debug, PartialEq, Eq)]
pub enum Why {
    Cut,
    Tag,
    NoTarget,
    Length,
    Bounds,
    Equal,
    TooMany,
    Outside,
    Twice,
    Keep,
    Coding,
    NoScript,
    Room,
    Default,
    NoCommand,
    Beyond,
    NotRead,
    LowAbove,
}

// The table's number of each.
impl From<Why> for u8 {
    ghost from_gives = { λ why n. n ≡ why_number why };

    fn from(why: Why) -> u8 {
        match why {
            Why::Cut => 1,
            Why::Tag => 2,
            Why::NoTarget => 3,
            Why::Length => 4,
            Why::Bounds => 5,
            Why::Equal => 6,
            Why::TooMany => 7,
            Why::Outside => 8,
            Why::Twice => 9,
            Why::Keep => 10,
            Why::Coding => 11,
            Why::NoScript => 12,
            Why::Room => 13,
            Why::Default => 50,
            Why::NoCommand => 55,
            Why::Beyond => 56,
            Why::NotRead => 57,
            Why::LowAbove => 58,
        }
    }
}

// The number's case, and the position.
#[derive(Clone, Copy, Debug, PartialEq, Eq)]
pub struct Refusal {
    pub why: Why,
    pub at: usize,
}

// "all at position 0": why a field value is turned away.
impl From<Why> for Refusal {
    ghost from_gives = { λ why refusal. refusal ≡ record { why = why; at = 0 } };

    fn from(why: Why) -> Refusal {
        Refusal { why, at: 0 }
    }
}
