ghost use Rattle.std.specs.Prelude.{◌≡◌};
ghost use Rattle.fixed_vec.specs.Items.{items_of};
ghost use Rattle.automaton.specs.Testing.{InRange, union};

mod methods;
mod run;

use crate::edge::Edge;
use crate::range::MOST_EDGES;
use fixed_vec::FixedVec;

/// A deterministic automaton over the joined word of a tuple, by its rows, and the signals that
/// its guards ask for.
///
/// The run begins in state 0 and takes, at each step, the first edge of its state that fits, in
/// the order of the rows. A tuple breaks the automaton where no edge fits or the last state is not
/// good.
#[derive(Drop)]
pub struct Automaton {
    places: usize,
    states: usize,
    good: u16,
    edges: FixedVec<Edge, MOST_EDGES>,
    signals: u32,
    ghost sound: { InRange places states good (items_of edges) },
    ghost seen: { signals ≡ union places (items_of edges) },
}
