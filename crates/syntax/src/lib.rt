//! The words of cards, the names of signals, and the faults of forms and lines.
#![tactic(auto)]

mod fault;
mod head;
mod names;

pub use fault::{FormFault, LineFault};
pub use head::{Binary, Head, Topic, Unary, UnknownWord, is_sessions};
pub use names::{NameRefusal, Names};
