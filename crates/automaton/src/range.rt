//! Whether numbers and rows make an automaton.
ghost use Rattle.std.specs.Prelude.{◌≡◌, Decides};
ghost use Rattle.automaton.specs.Refusing.{out_of_range_number};
ghost use Rattle.automaton.specs.Testing.{InRange};

use crate::edge::Edge;
use policy::MOST_PLACES;

/// The most states of an automaton.
const MOST_STATES: usize = 16;

/// The most edges of an automaton.
pub(crate) const MOST_EDGES: usize = 64;

/// The refusal of numbers or rows that make no automaton.
#[derive(Clone, Copy, Debug, PartialEq, Eq)]
pub struct OutOfRange;

impl OutOfRange {
    /// The number of the refusal. It is a number since the customer's list gives it.
    pub fn number(&self) -> u8
        ensures { result ≡ out_of_range_number }
    {
        8
    }
}

/// Whether so many places and states, the set of good states and the edges make an automaton.
// They stay apart: a struct of them would be an automaton before it is one.
pub(crate) fn in_range(places: usize, states: usize, good: u16, edges: &[Edge]) -> bool
    ensures { Decides result (InRange places states good edges.now) }
{
    (1..=MOST_PLACES).contains(&places)
        && (1..=MOST_STATES).contains(&states)
        && (good as u32) < 1u32 << states
        && edges.len() <= MOST_EDGES
        && edges.iter().all(|edge| edge.is_within(states))
}
