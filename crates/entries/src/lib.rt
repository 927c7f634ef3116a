// What callers who have only bytes can ask, over a file (files.rt) and over field values (lists.rt): read, write, decide, replay, plan, judge.
// Each entry answers in full, and none has a `requires`: the file is read or the values are tested here, and once; what is asked is then
// answered by a crate of its own, for accepted values.

#![tactic(auto)]

pub mod files;
pub mod lists;
