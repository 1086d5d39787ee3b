ghost use Rattle.std.specs.Prelude.{◌≡◌, MatchOption};
ghost use Rattle.rule.specs.Nodes.{TableFits};
ghost use Rattle.rule.specs.Tables.{nodes_of, HoldsNodes};

use crate::fits::table_fits;
use crate::node::Node;
use crate::table::Table;
use fixed_vec::FixedVec;

impl Table {
    /// The table of these nodes over so many places, or none where they make no table.
    #[tactic(auto, using(crate::proofs::Tested::table_decides))]
    pub fn new(places: usize, nodes: &[Node]) -> Option<Table>
        ensures { MatchOption result (TableFits places nodes.now → ⊥) (λ t. HoldsNodes places nodes.now t) }
    {
        if !table_fits(places, nodes) {
            return None;
        }
        let mut kept = FixedVec::new(Node::True);
        kept.extend(nodes).unwrap();
        Some(Table {
            places,
            nodes: kept,
        })
    }

    /// How many sessions the rule speaks of.
    pub fn places(&self) -> usize
        ensures { result ≡ self.now.places }
    {
        self.places
    }

    /// The nodes, in their order.
    #[tactic(auto, using(crate::proofs::Tested::table_decides))]
    pub fn nodes(&self) -> &[Node]
        ensures value { result.now ≡ nodes_of self.now }
        ensures fits { TableFits self.now.places result.now }
    {
        self.nodes.as_slice()
    }
}
