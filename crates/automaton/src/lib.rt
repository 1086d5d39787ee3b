//! Policies given as automata by rows.
#![tactic(auto)]

mod automaton;
mod edge;
mod range;
mod signals;

pub use automaton::Automaton;
pub use edge::{Edge, Guard};
pub use range::OutOfRange;
