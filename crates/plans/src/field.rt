// A script field under way: records put one after another behind the field's head and the type byte, and the head at the end.

ghost use Rattle.std.specs.Prelude.{◌≡◌, ◌+◌, ◌*◌};
ghost use Rattle.std.proofs.lemmas.List.Edits.{sets};
ghost use Rattle.policy.specs.Command.{coded};
ghost use Rattle.deployment.specs.Values.{coded_bytes};
ghost use Rattle.plans.specs.Sending.{script_head};
ghost use Rattle.plans.specs.Plans.{plan_for};

use crate::Plan;
use commands::record_of;
use format::{HEAD_BYTES, SCRIPT_TAG, store};
use policy::Command;

// The field of the longest plan, 1,024 commands; the first of them stands behind the head and the type byte.
pub const FIELD_BYTES: usize = 5124;

const FIRST: usize = 4;

// Puts command number `n`, counted from 0, into the field; bytes that have no room there are left out.
pub fn put(field: &mut [u8], n: u16, c: Command)
    ensures { field.new ≡ sets field.old (4 + 5 * n) (coded_bytes (coded c)) }
{
    let record = record_of(c);
    store(field, FIRST + 5 * (n as usize), &record);
}

// Puts the head, for `n` commands of a type, before them, and answers the plan that keeps so many rules.
pub fn close(field: &mut [u8], kind: u8, kept: usize, n: u16) -> Plan
    ensures { (result ≡ plan_for kept n) × (field.new ≡ sets field.old 0 (script_head kind n)) }
{
    let commands = n as usize;
    let size = 1 + 5 * commands;
    let head = [
        SCRIPT_TAG,
        (size / 256 % 256) as u8,
        (size % 256) as u8,
        kind,
    ];
    store(field, 0, &head);
    Plan {
        kept,
        commands,
        bytes: HEAD_BYTES + size,
    }
}
