ghost use Rattle.std.specs.Prelude.{◌≡◌, Decides, IfOk, MatchResult};
ghost use Rattle.policy.specs.Policy.{JoinedOnly};
ghost use Rattle.policy.specs.Sessions.{sessions};
ghost use Rattle.automaton.specs.Automata.{automaton_means, edges_of, IsAutomaton};
ghost use Rattle.automaton.specs.Runs.{AutomatonFits, Breaks, StandsFor};
ghost use Rattle.automaton.specs.Lawful;

use crate::automaton::Automaton;
use crate::edge::{Edge, Guard};
use crate::range::{OutOfRange, in_range};
use crate::signals::signals_of;
use fixed_vec::FixedVec;
use policy::{JoinedWord, Policy, Signals, is_tuple};

/// What an unused row of an automaton holds.
const UNUSED: Edge = Edge {
    from: 0,
    to: 0,
    guards: [Guard { mask: 0, value: 0 }; 4],
};

impl Automaton {
    /// The automaton of so many places and states, with its good states as a set and its edges in
    /// the order of the rows, or the refusal of a number that is out of range: there are 1 to 4
    /// places, 1 to 16 states and at most 64 edges, and the good states and those of the edges are
    /// among the states.
    pub fn new(
        places: usize,
        states: usize,
        good: u16,
        edges: &[Edge],
    ) -> Result<Automaton, OutOfRange>
        ensures made { MatchResult result (λ a. IsAutomaton places states good edges.now a) (λ _. (AutomatonFits places states good edges.now → ⊥)) }
        // tuples with the same joined word are judged alike, whatever follows it
        ensures joined { IfOk result (λ a. JoinedOnly (automaton_means a)) }
    {
        if !in_range(places, states, good, edges) {
            return Err(OutOfRange);
        }
        let signals = signals_of(edges, places);
        let mut rows = FixedVec::new(UNUSED);
        rows.extend(edges).unwrap();
        Ok(Automaton {
            places,
            states,
            good,
            edges: rows,
            signals,
        })
    }
}

impl Policy for Automaton {
    ghost meaning = { automaton_means };

    ghost lawful = { λ a. Lawful.lawful a };

    fn arity(&self) -> usize {
        self.places
    }

    fn breaks(&self, tuple: &[&[u32]]) -> bool
        ensures same { result ≡ (automaton_means self.now).breaks (sessions tuple.now) }
        ensures exact { Decides result (Breaks self.now.places (edges_of self.now) self.now.good (sessions tuple.now)) }
    {
        is_tuple(tuple, self.places) && !self.accepts(&JoinedWord::new(tuple))
    }

    fn stands_for(&self, s: &[u32], t: &[u32]) -> bool
        ensures same { result ≡ (automaton_means self.now).stands s.now t.now }
        ensures exact { Decides result (StandsFor self.now.places (edges_of self.now) s.now t.now) }
    {
        Signals::both(self.signals).stands_for(s, t)
    }
}
