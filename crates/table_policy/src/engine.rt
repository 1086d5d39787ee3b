//! The engine: the values of all nodes, from the last step of a joined word back.
ghost use Rattle.std.specs.Prelude.{◌≡◌, suc, ◌-◌, ◌<◌, length, nat_le};
ghost use Rattle.policy.specs.Sessions.{sessions};
ghost use Rattle.rule.specs.Meaning.{differing};
ghost use Rattle.rule.specs.Nodes.{NodeFits, rules};
ghost use Rattle.rule.specs.Tables.{nodes_of, rule_of};
ghost use Rattle.table_policy.specs.Evaluating.{eval};
ghost use Rattle.table_policy.specs.Inner.Rows.{RowIs, ValueIs};

use policy::{JoinedWord, MOST_PLACES, is_on};
use rule::{MOST_NODES, Node, Table};

/// Whether two letters differ in at most `limit` of the signals of the mask.
#[tactic(auto, using(crate::specs::Signals::differing_ones))]
fn is_near(mask: u32, a: u32, b: u32, limit: u32) -> bool
    ensures { result ≡ nat_le (differing mask a b) limit }
{
    (mask & (a ^ b)).count_ones() <= limit
}

/// The value of a node at a step, from the step's letters, the values of the nodes before it and
/// those of all nodes a step later.
// No struct of these: it would take a second method, to write the row, and three ghost lengths.
#[tactic(auto, using(policy::proofs::Places::letters_at), unfolding(crate::specs::Evaluating::until_back))]
fn value(
    node: Node,
    index: usize,
    letters: &[u32; MOST_PLACES],
    row: &[bool; MOST_NODES],
    later: &[bool; MOST_NODES],
) -> bool
    requires fits { NodeFits 4 index node }
    requires small { index < 64 }
    ensures { ValueIs letters.now row.now later.now index node result }
{
    match node {
        Node::True => true,
        Node::At { place, signal } => is_on(letters[place as usize], signal),
        Node::Near {
            first,
            second,
            limit,
            mask,
        } => is_near(
            mask,
            letters[first as usize],
            letters[second as usize],
            limit,
        ),
        Node::Not(f) => !row[f as usize],
        Node::And(f, g) => row[f as usize] & row[g as usize],
        Node::Or(f, g) => row[f as usize] | row[g as usize],
        Node::Next(f) => later[f as usize],
        Node::Until(f, g) => row[g as usize] | (row[f as usize] & later[index]),
    }
}

/// The values of all nodes at a step, from those a step later.
fn row_at(
    table: &Table,
    word: &JoinedWord,
    step: usize,
    later: &[bool; MOST_NODES],
) -> [bool; MOST_NODES]
    requires step { step < word.now.steps }
    requires after { RowIs (sessions word.now.places) word.now.steps (rules (nodes_of table.now)) later.now (word.now.steps - suc step) (length (nodes_of table.now)) }
    ensures { RowIs (sessions word.now.places) word.now.steps (rules (nodes_of table.now)) result (word.now.steps - step) (length (nodes_of table.now)) }
{
    let letters = word.letters_at(step);
    // Fixed memory: a value for each node that a table can have, of which this table's are written.
    let mut row = [false; MOST_NODES];
    for (index, node) in table.nodes().iter().enumerate() {
        row[index] = value(*node, index, &letters, &row, later);
    }
    row
}

/// The value of the last node at the first step of a joined word.
pub(crate) fn first_value(table: &Table, word: &JoinedWord) -> bool
    ensures { result ≡ eval (sessions word.now.places) word.now.steps (rule_of table.now) word.now.steps }
{
    let mut row = [false; MOST_NODES];
    // No fold: its closure would have to state the clauses of `row_at` again.
    for step in (0..word.len()).rev() {
        row = row_at(table, word, step, &row);
    }
    row[table.nodes().len() - 1]
}
