//! Letters, signal by signal, and lists of them.

/// How many signals a letter has.
pub(crate) const SIGNALS: u8 = 32;

/// Whether a signal is on in a letter: whether the letter, halved once for each signal before it,
/// is odd.
pub(crate) fn is_on(letter: u32, signal: u8) -> bool {
    (0..signal).fold(letter, |rest, _| rest / 2) % 2 == 1
}

/// In how many signals of the set two letters differ, counted one signal after another: the set and
/// the letters are halved together.
pub(crate) fn differing(set: u32, first: u32, second: u32) -> usize {
    let none = (0usize, set, first, second);
    let (count, _, _, _) = (0..SIGNALS).fold(none, |(count, set, first, second), _| {
        let differs = set % 2 == 1 && first % 2 != second % 2;
        (
            count.saturating_add(differs as usize),
            set / 2,
            first / 2,
            second / 2,
        )
    });
    count
}

/// Whether a list of letters is a session.
pub(crate) fn is_session(letters: &[u32]) -> bool {
    matches!(letters.len(), 1..=128)
}

/// Whether the lists are sessions, as many as there are places.
pub(crate) fn are_sessions(tuple: &[&[u32]], places: u8) -> bool {
    tuple.len() == places as usize && tuple.iter().all(|letters| is_session(letters))
}
