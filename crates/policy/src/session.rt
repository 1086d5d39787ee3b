//! Sessions: lists of letters.
ghost use Rattle.std.specs.Prelude.{◌≡◌, ◌<◌, ◌≤◌, length, Decides};
ghost use Rattle.policy.specs.Sessions.{IsSession};

/// The most letters of a session.
const MOST_LETTERS: usize = 128;

/// Whether a list of letters is a session: it has 1 to 128 of them.
pub fn is_session(letters: &[u32]) -> bool
    ensures { Decides result (IsSession letters.now) }
{
    (1..=MOST_LETTERS).contains(&letters.len())
}

/// The one of two recordings that ends first, that recording itself; the first of the two where
/// they are equally long.
pub fn ends_first<'a>(first: &'a [u32], second: &'a [u32]) -> &'a [u32]
    ensures first { length first.now ≤ length second.now → result ≡ first.entry }
    ensures second { length second.now < length first.now → result ≡ second.entry }
{
    if second.len() < first.len() {
        second
    } else {
        first
    }
}
