// Callers in C: every entry as a function on numbers and lent slices, over a file (files.rt), over field values (lists.rt), console text (texts.rt), and listings of
// other filters (listings.rt).
// Each returns 0 or document 01's number and stores the values that belong to it in `answer`. None has a `requires`.

#![tactic(auto)]

mod files;
mod listings;
mod lists;
mod texts;
