// Tests of field values: policies, defaults, keep lists, scripts (here), and all values of a deployment one after another (lists.rt). Entries that take
// lists and the file reader share them.

#![tactic(auto)]

ghost use Rattle.std.specs.Prelude.{◌≡◌, min};
ghost use Rattle.std.proofs.Math.Option.{some};
ghost use Rattle.policy.specs.Policy.{most_rules};
ghost use Rattle.policy.specs.Lists.{occurs};
ghost use Rattle.deployment.specs.Bytes.{number, part};
ghost use Rattle.deployment.specs.Values.{numbers_of, list_fits, script_fits, every_command, command_chunks};
ghost use Rattle.deployment.specs.FieldValues.{policy_value, default_value, keep_value, script_value};
ghost use Rattle.catalogue.specs.Answers.{checking};
ghost use Rattle.values.specs.Answers.{there};

use commands::{command_at, commands, is_type};
use deployment::Why;
use format::{DEFAULT_BYTES, LIST_BYTES, PERMIT, SCRIPT_BYTES, list_of, listed, number_at};
use running::Naming;

pub mod lists;

// 4: "list odd or over 1,024 bytes"
pub fn list_fits(size: usize) -> bool
    ensures { result ≡ list_fits size }
{
    size % 2 == 0 && size <= LIST_BYTES
}

// 4: "script not 1 + 5n with n up to 2,048"
pub fn script_fits(size: usize) -> bool
    ensures { result ≡ script_fits size }
{
    1 <= size && (size - 1) % 5 == 0 && size <= SCRIPT_BYTES
}

// A policy over a catalogue of `size` rules: 4, 8, 9.
pub fn policy_checked(value: &[u8], size: usize) -> Result<(), Why>
    ensures { result ≡ checking (policy_value (min size most_rules) value.now) }
{
    if !list_fits(value.len()) {
        return Err(Why::Length);
    }
    match list_of(value).naming(size) {
        Naming::Outside => Err(Why::Outside),
        Naming::Twice => Err(Why::Twice),
        Naming::Once => Ok(()),
    }
}

// A default: 4, 50.
pub fn default_checked(value: &[u8]) -> Result<(), Why>
    ensures { result ≡ checking (default_value (some value.now)) }
{
    if value.len() != DEFAULT_BYTES {
        return Err(Why::Length);
    }
    if value[0] != PERMIT {
        return Err(Why::Default);
    }
    Ok(())
}

// Whether the numbers of `keep` occur in the same order in `list`.
fn occurs_in(keep: &[u8], list: &[u8]) -> bool
    ensures { result ≡ occurs (numbers_of keep.now) (numbers_of list.now) }
{
    let count = listed(keep);
    let mut found = 0;
    for k in 0..listed(list) {
        if found == count {
            return true;
        }
        if number_at(keep, found) == number_at(list, k) {
            found += 1;
        }
    }
    found == count
}

// A keep list: 4, 10.
pub fn keep_checked(value: &[u8], initial: &[u8], target: &[u8]) -> Result<(), Why>
    ensures { result ≡ checking (keep_value (numbers_of initial.now) (numbers_of target.now) (some value.now)) }
{
    if !list_fits(value.len()) {
        return Err(Why::Length);
    }
    if occurs_in(value, initial) && occurs_in(value, target) {
        Ok(())
    } else {
        Err(Why::Keep)
    }
}

// 11: whether each five bytes are a command of the script's type.
fn all_commands(value: &[u8]) -> bool
    ensures { result ≡ there (every_command (number (part 0 1 value.now)) (command_chunks value.now)) }
{
    // Kept: as `(0..commands(value)).all(..)` its proof didn't close.
    for k in 0..commands(value) {
        if command_at(value, k).is_none() {
            return false;
        }
    }
    true
}

// A script: 4, 11.
pub fn script_checked(value: &[u8]) -> Result<(), Why>
    ensures { result ≡ checking (script_value (some value.now)) }
{
    if !script_fits(value.len()) {
        return Err(Why::Length);
    }
    let kind = value[0];
    if !is_type(kind) {
        return Err(Why::Coding);
    }
    if !all_commands(value) {
        return Err(Why::Coding);
    }
    Ok(())
}
