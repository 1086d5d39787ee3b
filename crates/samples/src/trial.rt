//! Trials: samples of one sort, one after another, and what came of them.
use crate::random::Source;
use std::{fmt, io};

/// Samples of one sort, printed as what came of them.
pub(crate) trait Trial: fmt::Display {
    /// How many samples there are.
    fn rounds(&self) -> u32;

    /// Makes the sample of a round, judges by it, and prints what differs.
    fn round(&mut self, source: &mut Source<'_>, round: u32) -> io::Result<()>;
}

/// Goes through the samples of a trial, and prints what came of them.
pub(crate) fn run<T: Trial + Drop>(source: &mut Source<'_>, mut trial: T) -> io::Result<()> {
    for round in 0..trial.rounds() {
        trial.round(source, round)?;
    }
    print!(source.rt; "{trial}")
}
