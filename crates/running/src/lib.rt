// The running list that scripts edit. Each method's promise is its `ensures`, in the words of specs/Running.antt and specs/Naming.antt;
// none has a `requires`.

#![tactic(auto)]

ghost use Rattle.std.specs.Prelude.{◌≡◌, true, not, [], ◌∷◌, ◌++◌, suc, min, ◌-◌, ◌<◌, ◌≤◌, ltb, length, take, drop};
ghost use Rattle.policy.specs.Policy.{most_rules};
ghost use Rattle.policy.specs.Command.{within, passed, failed};
ghost use Rattle.policy.specs.Lists.{all, differ};
ghost use Rattle.running.specs.Running.{view, shown, given, appended, rule_deleted, inserted, place_deleted, relocated};
ghost use Rattle.running.specs.Naming.{named};

use policy::{Fault, MOST_RULES};

// "A struct by value with an array of 1,024 rule numbers and a length is the running list in replay and planning."
#[derive(Clone, Copy)]
pub struct Running {
    pub rules: [u16; MOST_RULES],
    pub len: usize,
}

// "each gives a struct of the list and, beside it, the refusal if any"
#[derive(Clone, Copy)]
pub struct Edited {
    pub list: Running,
    pub refusal: Option<Fault>,
}

// "from 1 to ..": whether a place is in its range.
fn in_range(i: usize, top: usize) -> bool
    ensures { result ≡ within i top }
{
    (1..=top).contains(&i)
}

// The rules with the one at index `at` taken out: those behind it, up to `len`, move up by one.
fn closed(rules: [u16; MOST_RULES], at: usize, len: usize) -> [u16; MOST_RULES]
    requires { (at < len) × (len ≤ most_rules) }
    ensures { take (len - 1) result ≡ take at rules ++ drop (suc at) (take len rules) }
{
    let mut a = rules;
    a.copy_within(at + 1..len, at);
    a
}

// The rules with `r` put in at index `at`: those from there on, up to `len`, move down by one.
fn opened(rules: [u16; MOST_RULES], at: usize, len: usize, r: u16) -> [u16; MOST_RULES]
    requires { (at ≤ len) × (len < most_rules) }
    ensures { take (suc len) result ≡ take at rules ++ (r ∷ drop at (take len rules)) }
{
    let mut a = rules;
    a.copy_within(at..len, at + 1);
    a[at] = r;
    a
}

// The list that a command gives, and no refusal.
fn changed(rules: [u16; MOST_RULES], len: usize) -> Edited
    ensures { shown result ≡ given (take len rules) (passed (take len rules)) }
{
    Edited {
        list: Running { rules, len },
        refusal: None,
    }
}

impl Running {
    pub fn empty() -> Self
        ensures { view result ≡ [] }
    {
        Running {
            rules: [0u16; MOST_RULES],
            len: 0,
        }
    }

    // How many rules the list shows: its length, but never more than 1,024.
    pub fn count(self) -> usize
        ensures { result ≡ length (view self) }
    {
        self.len.min(MOST_RULES)
    }

    // The list as it stands, and why the command fails.
    fn refused(self, fault: Fault) -> Edited
        ensures { shown result ≡ given (view self) (failed fault) }
    {
        Edited {
            list: self,
            refusal: Some(fault),
        }
    }

    // `app r`, for a catalogue of `size` rules; `place` is where r stands already, 0 if nowhere.
    pub fn app(self, size: usize, r: u16, place: usize) -> Edited
        ensures { shown result ≡ appended size (view self) r place }
    {
        let len = self.count();
        if size <= r as usize {
            return self.refused(Fault::Number);
        }
        if place != 0 {
            return self.refused(Fault::Present);
        }
        if MOST_RULES <= len {
            return self.refused(Fault::Place);
        }
        let mut rules = self.rules;
        rules[len] = r;
        changed(rules, len + 1)
    }

    // `del r`, which stands at `place`, 0 if nowhere.
    pub fn del_rule(self, size: usize, r: u16, place: usize) -> Edited
        ensures { shown result ≡ rule_deleted size (view self) r place }
    {
        let len = self.count();
        if size <= r as usize {
            return self.refused(Fault::Number);
        }
        if !in_range(place, len) {
            return self.refused(Fault::Absent);
        }
        let rules = closed(self.rules, place - 1, len);
        changed(rules, len - 1)
    }

    // `ins i r`; `place` is where r stands already, 0 if nowhere.
    pub fn ins(self, size: usize, i: usize, r: u16, place: usize) -> Edited
        ensures { shown result ≡ inserted size (view self) i r place }
    {
        let len = self.count();
        if size <= r as usize {
            return self.refused(Fault::Number);
        }
        if !in_range(i, len + 1) {
            return self.refused(Fault::Place);
        }
        if place != 0 {
            return self.refused(Fault::Present);
        }
        if MOST_RULES <= len {
            return self.refused(Fault::Place);
        }
        let rules = opened(self.rules, i - 1, len, r);
        changed(rules, len + 1)
    }

    // `del i`.
    pub fn del_place(self, i: usize) -> Edited
        ensures { shown result ≡ place_deleted (view self) i }
    {
        let len = self.count();
        if !in_range(i, len) {
            return self.refused(Fault::Place);
        }
        let rules = closed(self.rules, i - 1, len);
        changed(rules, len - 1)
    }

    // `mov i j`: j is the place in the list without the rule that is lifted out.
    pub fn mov(self, i: usize, j: usize) -> Edited
        ensures { shown result ≡ relocated (view self) i j }
    {
        let len = self.count();
        if !in_range(i, len) {
            return self.refused(Fault::Place);
        }
        if !in_range(j, len) {
            return self.refused(Fault::Place);
        }
        let r = self.rules[i - 1];
        let lifted = closed(self.rules, i - 1, len);
        let rules = opened(lifted, j - 1, len - 1, r);
        changed(rules, len)
    }

    // How the list names the rules of a catalogue of `size`; a catalogue has at most 1,024.
    pub fn naming(self, size: usize) -> Naming
        ensures { result ≡ named (min size most_rules) (view self) }
    {
        let len = self.count();
        let rules = self.rules;
        if outside(rules, len, size.min(MOST_RULES)) {
            return Naming::Outside;
        }
        if twice(rules, len) {
            return Naming::Twice;
        }
        Naming::Once
    }
}

// How a list names rules: one outside the catalogue, one twice, or each once.
#[derive(Clone, Copy)]
pub enum Naming {
    Outside,
    Twice,
    Once,
}

// Whether one of the first `len` rules has a number of `size` or more.
fn outside(rules: [u16; MOST_RULES], len: usize, size: usize) -> bool
    requires { len ≤ most_rules }
    ensures { result ≡ not (all (λ r. ltb r size) (take len rules)) }
{
    rules[..len].iter().any(|r| size <= *r as usize)
}

// Whether one of the first `len` rules, all below 1,024, is there twice: from the last on, each is looked for among those behind it.
fn twice(rules: [u16; MOST_RULES], len: usize) -> bool
    requires { (len ≤ most_rules) × (all (λ r. ltb r most_rules) (take len rules) ≡ true) }
    ensures { result ≡ not (differ (take len rules)) }
{
    let mut seen = [false; MOST_RULES];
    for r in rules[..len].iter().rev() {
        let at = *r as usize;
        if seen[at] {
            return true;
        }
        seen[at] = true;
    }
    false
}
