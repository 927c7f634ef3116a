// Field values that callers give: the tests of each, one after another.

ghost use Rattle.std.specs.Prelude.{◌≡◌};
ghost use Rattle.deployment.specs.Values.{numbers_of};
ghost use Rattle.deployment.specs.FieldValues.{FieldValues, lent, default_value, keep_value, script_value, values_read};
ghost use Rattle.catalogue.specs.Answers.{checking};

use super::{default_checked, keep_checked, policy_checked, script_checked};
use catalogue::catalogue_checked;
use deployment::Why;
use format::RULE_BYTES;
use std::marker::Model;

// "Entries that take lists take field values, and are told whether a keep list is absent or empty", and so for the default and the script.
#[derive(Drop)]
pub struct Values<'a> {
    pub rules: &'a [u8],
    pub initial: &'a [u8],
    pub target: &'a [u8],
    pub default: Option<&'a [u8]>,
    pub keep: Option<&'a [u8]>,
    pub script: Option<&'a [u8]>,
}

impl<'a> Model for Values<'a> {
    ghost Value = { FieldValues };

    ghost view = { λ v. record {
      rules = v.rules.now;
      initial = v.initial.now;
      target = v.target.now;
      default = lent v.default;
      keep = lent v.keep;
      script = lent v.script;
    } };
}

// A default that may be absent: 4, 50.
pub fn default_if_there(default: Option<&[u8]>) -> Result<(), Why>
    ensures { result ≡ checking (default_value (lent default.entry)) }
{
    match default {
        Some(default) => default_checked(default),
        None => Ok(()),
    }
}

// A keep list that may be absent: 4, 10.
fn keep_if_there(keep: Option<&[u8]>, initial: &[u8], target: &[u8]) -> Result<(), Why>
    ensures { result ≡ checking (keep_value (numbers_of initial.now) (numbers_of target.now) (lent keep.entry)) }
{
    match keep {
        Some(keep) => keep_checked(keep, initial, target),
        None => Ok(()),
    }
}

// A script that may be absent: 4, 11.
fn script_if_there(script: Option<&[u8]>) -> Result<(), Why>
    ensures { result ≡ checking (script_value (lent script.entry)) }
{
    match script {
        Some(script) => script_checked(script),
        None => Ok(()),
    }
}

// "4 for rules not of 27 bytes each, 7, then 5 and 6 rule by rule, then 4, 8, 9 for the initial policy and again for the target", 4, 50 for
// the default, "then 4, 10 for the keep list, 4, 11 for the script".
pub fn values_checked(values: &Values<'_>) -> Result<(), Why>
    ensures { result ≡ checking (values_read values.now) }
{
    catalogue_checked(values.rules)?;
    let size = values.rules.len() / RULE_BYTES;
    policy_checked(values.initial, size)?;
    policy_checked(values.target, size)?;
    default_if_there(values.default)?;
    keep_if_there(values.keep, values.initial, values.target)?;
    script_if_there(values.script)
}
