//! The table of a form. It is laid out in another order than a card's, and two shorthands are written
//! out another way: `iff` as two implications, and `weak` as `until` or `always`.
use crate::form::Form;
use rule::{Node, Table};
use std::alloc::{AllocError, Global};
use syntax::{Binary, Unary};

/// The nodes of a table on its way. Each method appends nodes and gives the index of the last.
#[derive(Drop)]
struct Nodes {
    nodes: Vec<Node>,
}

impl Nodes {
    /// One node. Past 255 nodes the index is not right, but no table has so many.
    fn put(&mut self, node: Node) -> Result<u8, AllocError> {
        let index = u8::try_from(self.nodes.len()).unwrap_or(u8::MAX);
        self.nodes.push(node)?;
        Ok(index)
    }

    /// The nodes of "at each step the node holds".
    fn put_always(&mut self, f: u8) -> Result<u8, AllocError> {
        let fails = self.put(Node::Not(f))?;
        let ever = self.put(Node::True)?;
        let broken = self.put(Node::Until(ever, fails))?;
        self.put(Node::Not(broken))
    }

    /// The nodes of "the first node fails or the second holds".
    fn put_implies(&mut self, f: u8, g: u8) -> Result<u8, AllocError> {
        let fails = self.put(Node::Not(f))?;
        self.put(Node::Or(g, fails))
    }

    /// What is said of a node.
    fn put_one(&mut self, said: Unary, f: u8) -> Result<u8, AllocError> {
        match said {
            Unary::Not => self.put(Node::Not(f)),
            Unary::Next => self.put(Node::Next(f)),
            Unary::Always => self.put_always(f),
        }
    }

    /// What is said of two nodes.
    fn put_two(&mut self, said: Binary, f: u8, g: u8) -> Result<u8, AllocError> {
        match said {
            Binary::And => self.put(Node::And(f, g)),
            Binary::Or => self.put(Node::Or(f, g)),
            Binary::Until => self.put(Node::Until(f, g)),
            Binary::Iff => {
                let there = self.put_implies(f, g)?;
                let back = self.put_implies(g, f)?;
                self.put(Node::And(back, there))
            }
            Binary::Weak => {
                let released = self.put(Node::Until(f, g))?;
                let throughout = self.put_always(f)?;
                self.put(Node::Or(released, throughout))
            }
        }
    }

    /// The nodes of a form.
    fn put_form(&mut self, form: &Form) -> Result<u8, AllocError> {
        match form {
            Form::True => self.put(Node::True),
            Form::At { place, signal } => self.put(Node::At {
                place: *place,
                signal: *signal,
            }),
            Form::Near {
                first,
                second,
                limit,
                signals,
            } => self.put(Node::Near {
                first: *first,
                second: *second,
                limit: *limit as u32,
                mask: *signals,
            }),
            Form::One(said, f) => {
                let f = self.put_form(f)?;
                self.put_one(*said, f)
            }
            Form::Two(said, f, g) => {
                let g = self.put_form(g)?;
                let f = self.put_form(f)?;
                self.put_two(*said, f, g)
            }
        }
    }
}

impl Form {
    /// How many nodes the form has on a card.
    pub(crate) fn card_nodes(&self) -> u32 {
        match self {
            Form::True | Form::At { .. } | Form::Near { .. } => 1,
            Form::One(said, f) => {
                let own = match said {
                    Unary::Always => 4,
                    _ => 1,
                };
                f.card_nodes().saturating_add(own)
            }
            Form::Two(said, f, g) => {
                let own = match said {
                    Binary::Iff | Binary::Weak => 5,
                    _ => 1,
                };
                f.card_nodes()
                    .saturating_add(g.card_nodes())
                    .saturating_add(own)
            }
        }
    }

    /// The form's table over so many places, or none where it is too large for one.
    pub(crate) fn table(&self, heap: Global, places: u8) -> Result<Option<Table>, AllocError> {
        let mut table = Nodes {
            nodes: Vec::new(heap),
        };
        table.put_form(self)?;
        Ok(Table::new(places as usize, table.nodes.as_slice()))
    }
}
