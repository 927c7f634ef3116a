// A replay whose last list is written, as a list value, into a lent place. Nothing is written before the room is tested.

#![tactic(auto)]

ghost use Rattle.std.specs.Prelude.{◌≡◌, min};
ghost use Rattle.policy.specs.Policy.{most_rules};
ghost use Rattle.policy.specs.Replay.{ended};
ghost use Rattle.running.specs.Running.{view};
ghost use Rattle.deployment.specs.Bytes.{bytes_of};
ghost use Rattle.deployment.specs.FieldValues.{left_by};
ghost use Rattle.last_list.specs.Last.{replay_left, replayed_over, replayed_at_zero, at_zero};

use deployment::{Refusal, Why};
use format::store;
use replay::{Stop, replay};
use running::Running;

// "two-byte rule numbers"
const NUMBER_BYTES: usize = 2;

// "All numbers are big-endian."
fn number_bytes(n: u16) -> [u8; 2]
    ensures { result ≡ bytes_of 2 n }
{
    [(n / 256) as u8, (n % 256) as u8]
}

// The list as a list value, in the first bytes of the place, where it has room there.
fn put_list(place: &mut [u8], list: Running) -> Result<usize, Stop<Refusal>>
    ensures { left_by result place.new ≡ replay_left place.old (ended (view list)) }
{
    let count = list.count();
    let needed = NUMBER_BYTES * count;
    if place.len() < needed {
        return Err(Stop::Turned(Refusal {
            why: Why::Room,
            at: needed,
        }));
    }
    for (k, r) in list.rules[..count].iter().enumerate() {
        store(place, NUMBER_BYTES * k, &number_bytes(*r));
    }
    Ok(needed)
}

// What is turned away of values stands at position 0.
fn at_zero(stop: Stop<Why>) -> Stop<Refusal>
    ensures { result ≡ at_zero stop }
{
    match stop {
        Stop::Broken(fault, step) => Stop::Broken(fault, step),
        Stop::Turned(why) => Stop::Turned(why.into()),
    }
}

// Replays a script value from a policy value, for a catalogue of `size` rules; the last list fills the first bytes of the place. How it ends otherwise:
// the fault of a command that fails and its step, or why it is turned away.
pub fn replay_into(
    size: usize,
    initial: &[u8],
    script: &[u8],
    place: &mut [u8],
) -> Result<usize, Stop<Refusal>>
    ensures { left_by result place.new
        ≡ replayed_at_zero (replayed_over (min size most_rules) initial.now script.now) place.old }
{
    let list = replay(size, initial, script).map_err(at_zero)?;
    put_list(place, list)
}
