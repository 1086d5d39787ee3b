//! The signals that a table reads upright and inverted.
ghost use Rattle.std.specs.Prelude.{◌≡◌, true, false, List, length};
ghost use Rattle.rule.specs.Nodes.{NodeFits, node_rule};
ghost use Rattle.rule.specs.Rule.{Rule};
ghost use Rattle.rule.specs.Tables.{rule_of};
ghost use Rattle.table_policy.specs.Masks.{mask};
ghost use Rattle.table_policy.specs.Inner.Rows.{signals_read, Reads};

use fixed_vec::FixedVec;
use policy::Signals;
use rule::{MOST_NODES, Node, Table};

/// The signals that a node reads, from those of the nodes before it.
fn signals_of(node: Node, before: &[Signals]) -> Signals
    requires { NodeFits 4 (length before.now) node }
    ensures { (rs : List Rule) → Reads rs before.now → result ≡ signals_read (node_rule rs node) }
{
    match node {
        Node::True => Signals::none(),
        Node::At { signal, .. } => Signals {
            upright: 1 << signal,
            inverted: 0,
        },
        Node::Near { mask, .. } => Signals::both(mask),
        Node::Not(f) => before[f as usize].swapped(),
        Node::Next(f) => before[f as usize],
        Node::And(f, g) | Node::Or(f, g) | Node::Until(f, g) => {
            before[f as usize].union(before[g as usize])
        }
    }
}

/// The signals that the rule of a table reads.
pub(crate) fn signals(table: &Table) -> Signals
    ensures { (result.upright ≡ mask true (rule_of table.now)) × (result.inverted ≡ mask false (rule_of table.now)) }
{
    let mut read: FixedVec<Signals, MOST_NODES> = FixedVec::new(Signals::none());
    for node in table.nodes() {
        let signals = signals_of(*node, read.as_slice());
        read.push(signals).unwrap();
    }
    *read.as_slice().last().unwrap()
}
