//! Two policies as one.
ghost use Rattle.std.specs.Prelude.{◌≡◌, MatchResult};
ghost use Rattle.policy.specs.Pairing.{pair_means, Paired, Unlike, unlike_number};
ghost use Rattle.policy.specs.Pairs.{both_lawful};

use crate::policy::Policy;

/// Two policies with the same number of places as one: a tuple breaks it where it breaks one of
/// the two, and a session stands for another where it does under both.
#[derive(Drop)]
pub struct Pair<A, B> {
    first: A,
    second: B,
}

/// Two policies that make no pair, since they have not the same number of places.
#[derive(Drop)]
pub struct UnlikePlaces<A, B> {
    pub first: A,
    pub second: B,
}

impl<A, B> UnlikePlaces<A, B> {
    /// The number of the refusal. It is a number since the customer's list gives it.
    pub fn number(&self) -> u8
        ensures { result ≡ unlike_number }
    {
        9
    }
}

impl<A: Policy, B: Policy> Pair<A, B> {
    /// Both policies as one, or both of them back.
    pub fn new(first: A, second: B) -> Result<Pair<A, B>, UnlikePlaces<A, B>>
        ensures { MatchResult result (λ p. Paired A.Policy B.Policy first second p) (λ e. Unlike A.Policy B.Policy first second e) }
    {
        if first.arity() != second.arity() {
            return Err(UnlikePlaces { first, second });
        }
        Ok(Pair { first, second })
    }
}

impl<A: Policy, B: Policy> Policy for Pair<A, B> {
    ghost meaning = { pair_means A.Policy B.Policy };

    ghost lawful = { λ p.
        both_lawful (A.Policy.meaning p.first) (B.Policy.meaning p.second)
        (A.Policy.lawful p.first) (B.Policy.lawful p.second) };

    fn arity(&self) -> usize {
        self.first.arity()
    }

    fn breaks(&self, tuple: &[&[u32]]) -> bool {
        tuple.len() == self.first.arity() && (self.first.breaks(tuple) || self.second.breaks(tuple))
    }

    fn stands_for(&self, s: &[u32], t: &[u32]) -> bool {
        self.first.stands_for(s, t) && self.second.stands_for(s, t)
    }
}
