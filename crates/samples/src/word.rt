//! The steps of a tuple, and how its lists are printed.
use std::fmt;

/// The steps that all lists of a tuple have, at most 128.
#[derive(Clone, Copy)]
pub(crate) struct Word<'a> {
    tuple: &'a [&'a [u32]],
    pub(crate) steps: usize,
}

impl<'a> Word<'a> {
    /// The steps of a tuple.
    pub(crate) fn new(tuple: &'a [&'a [u32]]) -> Word<'a> {
        let steps = tuple
            .iter()
            .fold(128, |steps, session| session.len().min(steps));
        Word { tuple, steps }
    }

    /// The letter of a place at a step.
    pub(crate) fn letter(self, place: u8, step: usize) -> u32 {
        self.tuple
            .get(place as usize)
            .and_then(|session| session.get(step))
            .copied()
            .unwrap_or(0)
    }
}

/// Lists of letters, printed in a row, each after a space.
#[derive(Clone, Copy)]
pub(crate) struct InARow<'a>(pub(crate) &'a [&'a [u32]]);

impl<'a> fmt::Display for InARow<'a> {
    fn fmt<W: fmt::Write>(&self, f: &mut fmt::Formatter<W>) -> fmt::Result {
        for list in self.0 {
            write!(f, " {list:?}")?;
        }
        Ok(())
    }
}
