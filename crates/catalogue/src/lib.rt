// The catalogue: a rule of it (rule.rt), and all rules of a field value. Entries that take lists and the file reader share these tests.

#![tactic(auto)]

ghost use Rattle.std.specs.Prelude.{◌≡◌, take};
ghost use Rattle.deployment.specs.Catalogue.{catalogue_of};
ghost use Rattle.deployment.specs.FieldValues.{catalogue_value};
ghost use Rattle.catalogue.specs.Answers.{checking, rule_value};

use deployment::Why;
use format::{RULE_BYTES, record_at};
use policy::MOST_RULES;
use rule::{apart, rule_tested};

pub mod rule;

// A rule, after the first `count` of the catalogue: 4, 5, 6. Where the bytes hold fewer, it is compared with all of them.
pub fn rule_checked(rules: &[u8], skip: u8, count: usize, rule: &[u8]) -> Result<(), Why>
    ensures { result ≡ checking (rule_value (take count (catalogue_of skip rules.now)) rule.now) }
{
    rule_tested(rules, skip, count, rule, 0)
}

// The rules of a field value: 4, 7, then 5 and 6 rule by rule.
pub fn catalogue_checked(rules: &[u8]) -> Result<(), Why>
    ensures { result ≡ checking (catalogue_value rules.now) }
{
    if rules.len() % RULE_BYTES != 0 {
        return Err(Why::Length);
    }
    if RULE_BYTES * MOST_RULES < rules.len() {
        return Err(Why::TooMany);
    }
    let count = rules.len() / RULE_BYTES;
    let differing = apart(rules, 0);
    for k in 0..count {
        rule_tested(rules, 0, k, record_at(rules, 0, k), differing)?;
    }
    Ok(())
}
