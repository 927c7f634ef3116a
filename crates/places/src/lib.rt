// The side array of a running list, which says at once where a rule stands in it.
// Each function's promise is its `ensures`, in the words of specs/Places.antt; none has a `requires`.

#![tactic(auto)]

ghost use Rattle.std.specs.Prelude.{◌≡◌, suc, drop, get_or, set, replicate};
ghost use Rattle.policy.specs.Policy.{most_rules};
ghost use Rattle.running.specs.Running.{view};
ghost use Rattle.places.specs.Places.{renumbered};

use policy::MOST_RULES;
use running::Running;

// For each rule number below 1,024 its place, 0 if the rule is absent.
#[derive(Clone, Copy)]
pub struct Places {
    pub of: [u16; MOST_RULES],
}

impl Places {
    pub fn none() -> Self
        ensures { result.of ≡ replicate most_rules 0 }
    {
        Places {
            of: [0u16; MOST_RULES],
        }
    }

    // The place of rule r; 0 for a number that the array doesn't have.
    pub fn place(self, r: u16) -> usize
        ensures { result ≡ get_or self.of r 0 }
    {
        place_of(&self.of, r)
    }

    // The array with rule r absent.
    pub fn cleared(self, r: u16) -> Self
        ensures { result.of ≡ set self.of r 0 }
    {
        let mut of = self.of;
        let at = r as usize;
        if at < MOST_RULES {
            of[at] = 0;
        }
        Places { of }
    }

    // The array with the list's rules numbered anew, from index `from` on.
    pub fn numbered(self, list: Running, from: usize) -> Self
        ensures { result.of ≡ renumbered (suc from) (drop from (view list)) self.of }
    {
        let len = list.count();
        let rules = list.rules;
        let mut of = self.of;
        for k in from..len {
            let at = rules[k] as usize;
            if at < MOST_RULES {
                of[at] = (k + 1) as u16;
            }
        }
        Places { of }
    }
}

// The place of rule r in the list that a side array speaks of, the array lent; 0 for a number that it doesn't have.
pub fn place_of(places: &[u16], r: u16) -> usize
    ensures { result ≡ get_or places.now r 0 }
{
    let at = r as usize;
    if places.len() <= at {
        return 0;
    }
    places[at] as usize
}
