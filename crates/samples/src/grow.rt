//! Forms that look random.
use crate::form::Form;
use crate::random::{Random, Source};
use std::alloc::AllocError;
use syntax::{Binary, Unary};

/// What a form may name and hold: its places and signals, and how many of the forms that look over
/// all steps stand inside one another.
#[derive(Clone, Copy)]
pub(crate) struct Bounds {
    pub(crate) places: u8,
    pub(crate) signals: u8,
    pub(crate) loops: u8,
}

impl Bounds {
    /// What is left inside a form that looks over all steps.
    fn inside_loop(self) -> Bounds {
        Bounds {
            loops: self.loops.saturating_sub(1),
            ..self
        }
    }

    /// Some of the signals, at least one.
    fn signal_set(self, random: &mut Random) -> u32 {
        random.signal(self.signals) | random.some_of(self.signals, 3)
    }

    /// A form with no part.
    fn leaf(self, random: &mut Random) -> Form {
        match random.below(9) {
            0 => Form::True,
            1 | 2 | 3 => Form::Near {
                first: random.below(self.places),
                second: random.below(self.places),
                limit: random.below(self.signals / 3 + 2),
                signals: self.signal_set(random),
            },
            _ => Form::At {
                place: random.below(self.places),
                signal: random.below(self.signals),
            },
        }
    }

    /// What is said of one form, and the bounds of that.
    fn unary(self, random: &mut Random) -> (Unary, Bounds) {
        match random.below(6) {
            0 | 1 if self.loops > 0 => (Unary::Always, self.inside_loop()),
            2 | 3 => (Unary::Next, self),
            _ => (Unary::Not, self),
        }
    }

    /// What is said of two forms, and the bounds of those.
    fn binary(self, random: &mut Random) -> (Binary, Bounds) {
        match random.below(9) {
            0 | 1 if self.loops > 0 => (Binary::Until, self.inside_loop()),
            2 | 3 if self.loops > 0 => (Binary::Weak, self.inside_loop()),
            4 => (Binary::Iff, self),
            5 | 6 => (Binary::Or, self),
            _ => (Binary::And, self),
        }
    }

    /// A form within the bounds, that goes so deep at most.
    pub(crate) fn grow(self, source: &mut Source<'_>, depth: u8) -> Result<Form, AllocError> {
        if depth == 0 {
            return Ok(self.leaf(&mut source.random));
        }
        match source.random.below(7) {
            0 => Ok(self.leaf(&mut source.random)),
            1 | 2 | 3 => {
                let (said, inner) = self.unary(&mut source.random);
                inner
                    .grow(source, depth - 1)?
                    .under(source.rt.alloc(), said)
            }
            _ => {
                let (said, inner) = self.binary(&mut source.random);
                let first = inner.grow(source, depth - 1)?;
                let second = inner.grow(source, depth - 1)?;
                first.with(source.rt.alloc(), said, second)
            }
        }
    }
}
