//! The equality and the order of errors.

ghost use Rattle.std.specs.Prelude.{◌≡◌, ◌↔◌, IsTrue};
ghost use Rattle.std.specs.Cmp.{partial_order_from_own_ties};
ghost use Rattle.std.specs.Cmp.Rules.{comparing};
ghost use Rattle.std.specs.Ordering.{as_partial_cmp, ordering_reverse};
ghost use Rattle.std.proofs.Common.{rules};
ghost use Rattle.lexical_base.specs.OutcomeOrder.{compare_outcomes, same_outcome};

use super::Error;
use std::cmp::Ordering;

impl PartialEq for Error {
    ghost eq = { same_outcome };

    ghost laws = { Prim.search (comparing, rules) };

    fn eq(&self, other: &Error) -> bool
        ensures value { result ≡ same_outcome self.now other.now }
        ensures equal { IsTrue result ↔ (self.now ≡ other.now) }
    {
        self.rank() == other.rank()
            && self.index().copied().unwrap_or(0) == other.index().copied().unwrap_or(0)
    }
}

impl Eq for Error {
    ghost laws = { Prim.search (comparing, rules) };
}

impl Ord for Error {
    ghost cmp = { compare_outcomes };

    // The order is total: it is transitive, and swapping the two values reverses the result.
    ghost total = { Prim.search (comparing, rules) };

    ghost matches_partial_cmp = { Prim.search (comparing, rules) };

    ghost matches_eq = { Prim.search (comparing, rules) };

    #[tactic(auto, using(crate::proofs::OutcomeLemmas::tied, crate::proofs::OutcomeLemmas::reversed))]
    fn cmp(&self, other: &Error) -> Ordering
        ensures value { result ≡ compare_outcomes self.now other.now }
        ensures equal { (result ≡ Ordering.Equal) ↔ (self.now ≡ other.now) }
        ensures reversed { compare_outcomes other.now self.now ≡ ordering_reverse result }
    {
        match self.rank().cmp(&other.rank()) {
            Ordering::Equal => self
                .index()
                .copied()
                .unwrap_or(0)
                .cmp(&other.index().copied().unwrap_or(0)),
            order => order,
        }
    }
}

impl PartialOrd for Error {
    ghost partial_cmp = { as_partial_cmp compare_outcomes };

    ghost laws = { partial_order_from_own_ties (Prim.search (comparing, rules)) (Prim.search (comparing, rules)) };

    fn partial_cmp(&self, other: &Error) -> Option<Ordering> {
        Some(self.cmp(other))
    }
}
