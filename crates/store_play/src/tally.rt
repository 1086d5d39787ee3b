use std::fmt;

/// What came of the calls that were played.
#[derive(Default, Drop)]
pub(crate) struct Tally {
    pub(crate) calls: u32,
    pub(crate) taken: u32,
    pub(crate) refused: u32,
    pub(crate) differences: u32,
    pub(crate) most_sessions: usize,
    pub(crate) most_letters: usize,
}

impl Tally {
    /// Counts a difference, where there is one.
    pub(crate) fn note(&mut self, alike: bool) {
        if !alike {
            self.differences = self.differences.saturating_add(1);
        }
    }
}

impl fmt::Display for Tally {
    fn fmt<W: fmt::Write>(&self, f: &mut fmt::Formatter<W>) -> fmt::Result {
        writeln!(
            f,
            "{} calls, {} taken, {} refused,",
            self.calls, self.taken, self.refused
        )?;
        write!(
            f,
            "  up to {} sessions and {} letters, {} differences",
            self.most_sessions, self.most_letters, self.differences
        )
    }
}
