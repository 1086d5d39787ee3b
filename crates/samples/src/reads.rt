//! Which signals a form reads upright and inverted.
use crate::form::Form;
use crate::letters::is_on;
use syntax::{Binary, Unary};

impl Form {
    /// Whether the form reads a signal under an even number of negations, or under an odd one.
    pub(crate) fn reads(&self, signal: u8, even: bool) -> bool {
        match self {
            Form::True => false,
            Form::At {
                place: _,
                signal: read,
            } => *read == signal && even,
            Form::Near { signals, .. } => is_on(*signals, signal),
            Form::One(Unary::Not, f) => f.reads(signal, !even),
            Form::One(Unary::Next | Unary::Always, f) => f.reads(signal, even),
            Form::Two(Binary::Iff, f, g) => {
                f.reads(signal, true)
                    || f.reads(signal, false)
                    || g.reads(signal, true)
                    || g.reads(signal, false)
            }
            Form::Two(_, f, g) => f.reads(signal, even) || g.reads(signal, even),
        }
    }
}
