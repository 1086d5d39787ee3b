/// How many letters the longest session has, and so a slot.
pub(crate) const LONGEST: usize = 128;

/// How many sessions a store keeps at most.
pub(crate) const MOST_SESSIONS: usize = 64;

/// How many letters of the memory a store uses at most.
pub(crate) const MOST_LETTERS: usize = 8192;

/// How many sessions are kept at most, and how many letters they have in all at most.
#[derive(Clone, Copy, Debug, PartialEq, Eq)]
pub struct Limits {
    pub sessions: usize,
    pub letters: usize,
}
