// Saved iptables rules: what a listing means stands in specs/. Here: the kinds of words that an option can have.

#![tactic(auto)]

// An option's word names a protocol, an address or ports.
#[derive(Clone, Copy)]
pub enum Kind {
    Protocol,
    Address,
    Port,
}
