//! Whether nodes make a table.
ghost use Rattle.std.specs.Prelude.{◌≡◌, ℕ, ◌<◌, length, Decides, slice_index_or};
ghost use Rattle.rule.specs.Nodes.{NodeFits, TableFits};
ghost use Rattle.rule.specs.declared.node.Node.TheVariants.{True};

use crate::node::Node;
use policy::MOST_PLACES;

/// The most nodes of a table.
pub const MOST_NODES: usize = 64;

/// Whether each node may stand at its index.
fn all_fit(places: usize, nodes: &[Node]) -> bool
    ensures { Decides result ((i : ℕ) → i < length nodes.now → NodeFits places i (slice_index_or nodes.now i True)) }
{
    nodes
        .iter()
        .enumerate()
        .all(|(index, node)| node.fits(places, index))
}

/// Whether nodes make a table of so many places.
// They stay apart: a struct of both would be a table before it is one.
pub(crate) fn table_fits(places: usize, nodes: &[Node]) -> bool
    ensures { Decides result (TableFits places nodes.now) }
{
    (1..=MOST_NODES).contains(&nodes.len())
        && (1..=MOST_PLACES).contains(&places)
        && all_fit(places, nodes)
}
