// The lines that the programs print, put into a lent place: words and numbers, commands in a maker's words, a plan's block, outcomes. What a line says is in
// specs/Text.antt; the crates above build whole texts of them, and `whole` puts such a text where there is room for it.

#![tactic(auto)]

pub mod blocks;
pub mod outcomes;
pub mod phrases;
mod spaced;
pub mod steps;
pub mod whole;
pub mod words;
