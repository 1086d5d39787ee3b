//! The forms of rules, as trees.
use std::alloc::{AllocError, Global};
use syntax::{Binary, Unary};

/// A form, with each shorthand as a form of its own. A place is counted from 0.
#[derive(Drop)]
pub(crate) enum Form {
    True,
    At {
        place: u8,
        signal: u8,
    },
    Near {
        first: u8,
        second: u8,
        limit: u8,
        signals: u32,
    },
    One(Unary, Box<Form>),
    Two(Binary, Box<Form>, Box<Form>),
}

impl Form {
    /// The form that says something of this one.
    pub(crate) fn under(self, heap: Global, unary: Unary) -> Result<Form, AllocError> {
        Ok(Form::One(unary, Box::new(heap, self)?))
    }

    /// The form that says something of this one and another.
    pub(crate) fn with(
        self,
        heap: Global,
        binary: Binary,
        other: Form,
    ) -> Result<Form, AllocError> {
        let first = Box::new(heap, self)?;
        Ok(Form::Two(binary, first, Box::new(heap, other)?))
    }
}
