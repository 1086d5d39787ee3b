//! The signals that an automaton asks for.
ghost use Rattle.std.specs.Prelude.{◌≡◌};
ghost use Rattle.automaton.specs.Testing.{union};

use crate::edge::Edge;

/// The signals in the masks of the first places of all edges.
pub(crate) fn signals_of(edges: &[Edge], places: usize) -> u32
    ensures { result ≡ union places edges.now }
{
    edges.iter().fold(0, |all, edge| all | edge.signals(places))
}
