//! Forms as the text of cards.
use crate::form::Form;
use crate::letters::{SIGNALS, is_on};
use std::fmt;
use syntax::{Binary, Unary};

/// A rule, and how many places and signals its card declares; printed as its card.
#[derive(Drop)]
pub(crate) struct Ruling {
    pub(crate) places: u8,
    pub(crate) signals: u8,
    pub(crate) form: Form,
}

/// The signals of a set, printed by name, each after a space.
#[derive(Clone, Copy)]
struct Names(u32);

impl fmt::Display for Names {
    fn fmt<W: fmt::Write>(&self, f: &mut fmt::Formatter<W>) -> fmt::Result {
        for signal in (0..SIGNALS).filter(|signal| is_on(self.0, *signal)) {
            write!(f, " s{signal}")?;
        }
        Ok(())
    }
}

/// A place, printed as cards count it: from 1.
#[derive(Clone, Copy)]
struct Place(u8);

impl fmt::Display for Place {
    fn fmt<W: fmt::Write>(&self, f: &mut fmt::Formatter<W>) -> fmt::Result {
        write!(f, "{}", self.0.saturating_add(1))
    }
}

impl fmt::Display for Form {
    fn fmt<W: fmt::Write>(&self, f: &mut fmt::Formatter<W>) -> fmt::Result {
        match self {
            Form::True => write!(f, "(true)"),
            Form::At { place, signal } => write!(f, "(at {} s{signal})", Place(*place)),
            Form::Near {
                first,
                second,
                limit,
                signals,
            } => write!(
                f,
                "(near {} {} {limit}{})",
                Place(*first),
                Place(*second),
                Names(*signals)
            ),
            Form::One(Unary::Not, part) => write!(f, "(not {part})"),
            Form::One(Unary::Next, part) => write!(f, "(next {part})"),
            Form::One(Unary::Always, part) => write!(f, "(always {part})"),
            Form::Two(Binary::And, first, second) => write!(f, "(and {first} {second})"),
            Form::Two(Binary::Or, first, second) => write!(f, "(or {first} {second})"),
            Form::Two(Binary::Until, first, second) => write!(f, "(until {first} {second})"),
            Form::Two(Binary::Iff, first, second) => write!(f, "(iff {first} {second})"),
            Form::Two(Binary::Weak, first, second) => write!(f, "(weak {first} {second})"),
        }
    }
}

impl fmt::Display for Ruling {
    fn fmt<W: fmt::Write>(&self, f: &mut fmt::Formatter<W>) -> fmt::Result {
        writeln!(f, "(sessions {})", self.places)?;
        for signal in 0..self.signals {
            writeln!(f, "(signal s{signal})")?;
        }
        writeln!(f, "(rule {})", self.form)
    }
}
