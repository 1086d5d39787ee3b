//! Counts of questions and answers.
use std::fmt;

/// How many differences of a kind are printed.
const SHOWN: u32 = 3;

/// How often a question was asked, how often the engine said yes, and how often the other judge
/// said something else.
#[derive(Clone, Copy, Default)]
pub(crate) struct Tally {
    pub(crate) asked: u32,
    pub(crate) yes: u32,
    pub(crate) differences: u32,
}

impl Tally {
    /// Counts two answers to a question; whether they differ and the difference is to be printed.
    pub(crate) fn count(&mut self, engine: bool, other: bool) -> bool {
        self.asked = self.asked.saturating_add(1);
        if engine {
            self.yes = self.yes.saturating_add(1);
        }
        if engine == other {
            return false;
        }
        self.differences = self.differences.saturating_add(1);
        self.differences <= SHOWN
    }
}

/// What came of policies: of their numbers of places, of tuples and of pairs of lists, with how many
/// tuples were not of as many sessions, how many lists stood for another than themselves, and how
/// many policies some tuples broke and some did not.
#[derive(Clone, Copy, Default)]
pub(crate) struct Tallies {
    pub(crate) places: Tally,
    pub(crate) broken: Tally,
    pub(crate) standing: Tally,
    pub(crate) no_tuples: u32,
    pub(crate) unlike: u32,
    pub(crate) mixed: u32,
}

impl Tallies {
    /// How many tuples of sessions did not break the policy.
    fn kept(&self) -> u32 {
        self.broken
            .asked
            .saturating_sub(self.broken.yes)
            .saturating_sub(self.no_tuples)
    }

    /// Counts a policy as mixed where since an earlier state some tuples broke it and some did not.
    pub(crate) fn note_mixed(&mut self, before: Tallies) {
        if self.broken.yes > before.broken.yes && self.kept() > before.kept() {
            self.mixed = self.mixed.saturating_add(1);
        }
    }
}

impl fmt::Display for Tallies {
    fn fmt<W: fmt::Write>(&self, f: &mut fmt::Formatter<W>) -> fmt::Result {
        writeln!(
            f,
            "{}, {} of them broken by some tuples and not by others, {} differences",
            self.places.asked, self.mixed, self.places.differences
        )?;
        writeln!(
            f,
            "    {} tuples: {} not of as many sessions, {} broke, {} differences",
            self.broken.asked, self.no_tuples, self.broken.yes, self.broken.differences
        )?;
        writeln!(
            f,
            "    {} pairs of lists: {} stood, {} of them for another list, {} differences",
            self.standing.asked, self.standing.yes, self.unlike, self.standing.differences
        )
    }
}
