ghost use Rattle.std.specs.Prelude.{◌≡◌, true};
ghost use Rattle.fixed_vec.specs.Items.{items_of};
ghost use Rattle.rule.specs.Testing.{table_test};

mod methods;

use crate::fits::MOST_NODES;
use crate::node::Node;
use fixed_vec::FixedVec;

/// A rule over the sessions of `places` places, as a table of nodes. The last node is the rule.
///
/// A table has 1 to 64 nodes and 1 to 4 places, each node is made of nodes before it, and each
/// place that a node names is one of the table's: `sound` says so.
#[derive(Drop)]
pub struct Table {
    places: usize,
    nodes: FixedVec<Node, MOST_NODES>,
    ghost sound: { table_test places (items_of nodes) ≡ true },
}
