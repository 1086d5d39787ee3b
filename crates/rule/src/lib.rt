//! Rules as formula tables: the nodes of a table, and the table with its invariant.
#![tactic(auto)]

mod fits;
mod node;
mod table;

pub use fits::MOST_NODES;
pub use node::Node;
pub use table::Table;
