//! Automata by rows, and their runs from the first step to the last.
use crate::judge::Judge;
use crate::letters::{SIGNALS, is_on};
use crate::word::Word;
use automaton::{Automaton, Edge, Guard, OutOfRange};
use std::fmt;

/// What an automaton is made of.
#[derive(Drop)]
pub(crate) struct Rows {
    pub(crate) places: u8,
    pub(crate) states: u8,
    pub(crate) good: u16,
    pub(crate) edges: Vec<Edge>,
}

/// Whether a letter has the guard's value in each signal of the guard's mask, and the value has no
/// other signal.
fn meets(guard: Guard, letter: u32) -> bool {
    (0..SIGNALS).all(|signal| {
        let asked = is_on(guard.mask, signal);
        is_on(guard.value, signal) == (asked && is_on(letter, signal))
    })
}

/// Whether the first guards are met at a step.
fn fits(edge: &Edge, places: u8, word: Word<'_>, step: usize) -> bool {
    edge.guards
        .iter()
        .zip(0..places)
        .all(|(guard, place)| meets(*guard, word.letter(place, step)))
}

/// Whether one of the first guards asks for a signal.
fn asks(edge: &Edge, places: u8, signal: u8) -> bool {
    edge.guards
        .iter()
        .take(places as usize)
        .any(|guard| is_on(guard.mask, signal))
}

/// Whether a signal is the same at each step.
// Apart from the `follows` of judge.rt, which differs in the operator: as one they would take a closure.
fn agrees(signal: u8, s: &[u32], t: &[u32]) -> bool {
    s.iter()
        .zip(t)
        .all(|(a, b)| is_on(*a, signal) == is_on(*b, signal))
}

impl Rows {
    /// The automaton of the rows.
    pub(crate) fn automaton(&self) -> Result<Automaton, OutOfRange> {
        Automaton::new(
            self.places as usize,
            self.states as usize,
            self.good,
            self.edges.as_slice(),
        )
    }

    /// Where the run goes from a state at a step: the rows are gone through from the last to the
    /// first, so that of those that fit the first is what stays.
    fn enters(&self, state: u8, word: Word<'_>, step: usize) -> Option<u8> {
        self.edges
            .iter()
            .rev()
            .filter(|edge| edge.from == state && fits(edge, self.places, word, step))
            .last()
            .map(|edge| edge.to)
    }

    /// Whether the run that is in a state at the step `i` ends in a good one. A recursion, since the
    /// engine's run goes through the steps in a loop, and this one is to be written another way.
    fn ends_well(&self, state: u8, word: Word<'_>, i: usize) -> bool {
        if i >= word.steps {
            return is_on(self.good as u32, state);
        }
        // No `is_some_and`: its closure would need a measure of its own.
        match self.enters(state, word, i) {
            Some(entered) => self.ends_well(entered, word, i + 1),
            None => false,
        }
    }

    /// Whether some row asks for a signal.
    fn asks(&self, signal: u8) -> bool {
        self.edges
            .iter()
            .any(|edge| asks(edge, self.places, signal))
    }

    /// Whether the states of each row are among so many.
    fn states_fit(&self) -> bool {
        self.edges
            .iter()
            .all(|edge| edge.from < self.states && edge.to < self.states)
    }

    /// Whether each good state is one of the states.
    fn good_fit(&self) -> bool {
        !(self.states..16).any(|state| is_on(self.good as u32, state))
    }

    /// Whether the numbers make an automaton.
    pub(crate) fn are_right(&self) -> bool {
        let counts = matches!(
            (self.places, self.states, self.edges.len()),
            (1..=4, 1..=16, 0..=64)
        );
        counts && self.states_fit() && self.good_fit()
    }
}

/// Guards, printed in a row, each after a space.
#[derive(Clone, Copy)]
struct Guards<'a>(&'a [Guard]);

impl<'a> fmt::Display for Guards<'a> {
    fn fmt<W: fmt::Write>(&self, f: &mut fmt::Formatter<W>) -> fmt::Result {
        for guard in self.0 {
            write!(f, " {:x} {:x}", guard.mask, guard.value)?;
        }
        Ok(())
    }
}

impl fmt::Display for Rows {
    fn fmt<W: fmt::Write>(&self, f: &mut fmt::Formatter<W>) -> fmt::Result {
        writeln!(
            f,
            "{} places, {} states, good {:b}",
            self.places, self.states, self.good
        )?;
        for edge in self.edges.iter() {
            writeln!(f, "{} to {}:{}", edge.from, edge.to, Guards(&edge.guards))?;
        }
        Ok(())
    }
}

impl Judge for Rows {
    fn places(&self) -> u8 {
        self.places
    }

    fn accepts(&self, word: Word<'_>) -> bool {
        self.ends_well(0, word, 0)
    }

    /// Whether a signal that some row asks for is the same at each step.
    fn allows(&self, signal: u8, s: &[u32], t: &[u32]) -> bool {
        !self.asks(signal) || agrees(signal, s, t)
    }
}
