// The rules of a deployment file as text: a range as words, a rule as a line, the catalogue as lines. What is put is in specs/Text.antt.

#![tactic(auto)]

pub mod heads;
mod ranges;
pub mod rules;
