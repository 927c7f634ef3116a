// The reader: the deployment file read into the places of its values (file.rt). Nothing is copied.

#![tactic(auto)]

pub mod file;

// A part of a file.
#[derive(Clone, Copy)]
pub struct Span {
    pub start: usize,
    pub size: usize,
}

// Where the values of an accepted file stand. The rules stand first, each behind its field's head of three bytes.
#[derive(Clone, Copy)]
pub struct Layout {
    pub rules: usize,
    pub initial: Span,
    pub target: Span,
    pub default: Option<Span>,
    pub keep: Option<Span>,
    pub script: Option<Span>,
}
