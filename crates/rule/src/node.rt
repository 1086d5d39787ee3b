ghost use Rattle.std.specs.Prelude.{◌≡◌, Decides};
ghost use Rattle.rule.specs.Nodes.{NodeFits};

/// How many signals a letter has.
const SIGNALS: u8 = 32;

/// A node of a formula table. A node names the nodes it is made of by their indices, which are
/// below its own. A place is counted from 0.
#[derive(Clone, Copy, Debug, PartialEq, Eq)]
pub enum Node {
    /// It holds at every step.
    True,
    /// The signal is on in the letter of the place.
    At {
        place: u8,
        signal: u8,
    },
    /// The letters of the two places differ in at most `limit` of the signals of the mask.
    Near {
        first: u8,
        second: u8,
        limit: u32,
        mask: u32,
    },
    /// The node does not hold.
    Not(u8),
    /// Both nodes hold.
    And(u8, u8),
    /// One of the two nodes holds.
    Or(u8, u8),
    /// There is a next step, and the node holds at it.
    Next(u8),
    /// The second node holds at this step or a later one, and the first at each step before that.
    Until(u8, u8),
}

impl Node {
    /// Whether the node may stand at an index of a table of so many places.
    pub(crate) fn fits(self, places: usize, index: usize) -> bool
        ensures { Decides result (NodeFits places index self) }
    {
        match self {
            Node::True => true,
            Node::At { place, signal } => (place as usize) < places && signal < SIGNALS,
            Node::Near { first, second, .. } => (first as usize) < places
                && (second as usize) < places,
            Node::Not(f) | Node::Next(f) => (f as usize) < index,
            Node::And(f, g) | Node::Or(f, g) | Node::Until(f, g) => {
                (f as usize) < index && (g as usize) < index
            }
        }
    }
}
