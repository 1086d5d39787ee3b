//! What judges beside the engine.
use crate::card_text::Ruling;
use crate::letters::{SIGNALS, are_sessions, is_on, is_session};
use crate::word::Word;
use std::fmt;

/// A second opinion on tuples and sessions, printed as what is judged by.
pub(crate) trait Judge: fmt::Display {
    /// How many places a tuple has.
    fn places(&self) -> u8;

    /// Whether the steps of a tuple of sessions are accepted.
    fn accepts(&self, word: Word<'_>) -> bool;

    /// Whether one signal lets the list `s` stand for the list `t`.
    // Two arguments: a struct of both lists would be no plainer than their names.
    fn allows(&self, signal: u8, s: &[u32], t: &[u32]) -> bool;

    /// Whether a tuple breaks what is judged by.
    fn is_broken(&self, tuple: &[&[u32]]) -> bool {
        are_sessions(tuple, self.places()) && !self.accepts(Word::new(tuple))
    }

    /// Whether the list `s` stands for the list `t`: both are sessions, equally long, and each
    /// signal allows it.
    fn stands(&self, s: &[u32], t: &[u32]) -> bool {
        is_session(s)
            && is_session(t)
            && s.len() == t.len()
            && (0..SIGNALS).all(|signal| self.allows(signal, s, t))
    }
}

/// Whether a signal is on at each step of `t` where it is on in `s`.
fn follows(signal: u8, s: &[u32], t: &[u32]) -> bool {
    s.iter()
        .zip(t)
        .all(|(a, b)| !is_on(*a, signal) || is_on(*b, signal))
}

impl Judge for Ruling {
    fn places(&self) -> u8 {
        self.places
    }

    fn accepts(&self, word: Word<'_>) -> bool {
        self.form.holds(word, 0)
    }

    /// Whether a signal that the form reads upright is on in `t` where it is on in `s`, and one
    /// that it reads inverted is on in `s` where it is on in `t`.
    fn allows(&self, signal: u8, s: &[u32], t: &[u32]) -> bool {
        (!self.form.reads(signal, true) || follows(signal, s, t))
            && (!self.form.reads(signal, false) || follows(signal, t, s))
    }
}

/// Two judges as one: a tuple is broken where one of them says so, and a list stands where both do.
#[derive(Drop)]
pub(crate) struct Both<'a, A, B> {
    pub(crate) first: &'a A,
    pub(crate) second: &'a B,
}

impl<'a, A: Judge, B: Judge> fmt::Display for Both<'a, A, B> {
    fn fmt<W: fmt::Write>(&self, f: &mut fmt::Formatter<W>) -> fmt::Result {
        write!(f, "{}{}", self.first, self.second)
    }
}

impl<'a, A: Judge, B: Judge> Judge for Both<'a, A, B> {
    fn places(&self) -> u8 {
        self.first.places()
    }

    fn accepts(&self, word: Word<'_>) -> bool {
        self.first.accepts(word) && self.second.accepts(word)
    }

    fn allows(&self, signal: u8, s: &[u32], t: &[u32]) -> bool {
        self.first.allows(signal, s, t) && self.second.allows(signal, s, t)
    }
}
