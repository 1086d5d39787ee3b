//! Tables to measure with.
use rule::{MOST_NODES, Node, Table};
use std::fmt;

/// How many nodes a table has, and over how many places.
#[derive(Clone, Copy)]
pub(crate) struct Size {
    pub(crate) nodes: u8,
    pub(crate) places: u8,
}

impl fmt::Display for Size {
    fn fmt<W: fmt::Write>(&self, f: &mut fmt::Formatter<W>) -> fmt::Result {
        let Size { nodes, places } = *self;
        write!(f, "{nodes} nodes, {places} sessions")
    }
}

impl Size {
    /// The node at an index: a mix of all forms over the places, each made of nodes shortly before
    /// it.
    fn node(self, index: u8) -> Node {
        let place = index % self.places.max(1);
        let signal = index % 32;
        if index < 4 {
            return Node::At { place, signal };
        }
        let last = index - 1;
        let other = index - 3;
        match index % 8 {
            0 => Node::And(last, other),
            1 | 6 => Node::At { place, signal },
            2 => Node::Or(last, other),
            3 => Node::Near {
                first: 0,
                second: place,
                limit: 9,
                mask: 0xffff_00ff,
            },
            4 => Node::Not(last),
            5 => Node::Next(last),
            _ => Node::Until(last, index.saturating_sub(7)),
        }
    }

    /// A table of the size, or none where no table has it.
    // In place: a Vec can run out of memory, and a table needs none.
    pub(crate) fn table(self) -> Option<Table> {
        let mut index = 0u8;
        let nodes: [Node; MOST_NODES] = std::array::from_fn(|_| {
            let node = self.node(index);
            index = index.wrapping_add(1);
            node
        });
        Table::new(self.places as usize, nodes.get(..self.nodes as usize)?)
    }
}
