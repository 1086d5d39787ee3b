//! Tuples of sessions.
ghost use Rattle.std.specs.Prelude.{◌≡◌, ℕ, ◌<◌, [], length, Decides, slice_index_or};
ghost use Rattle.policy.specs.Sessions.{IsSession, IsTuple, sessions};

use crate::session::is_session;

/// The most places of a tuple.
pub const MOST_PLACES: usize = 4;

/// Whether each list of letters is a session.
fn all_sessions(tuple: &[&[u32]]) -> bool
    ensures { Decides result ((v : ℕ) → v < length tuple.now → IsSession (slice_index_or (sessions tuple.now) v [])) }
{
    tuple.iter().all(|session| is_session(session))
}

/// Whether the lists of letters are a tuple of so many places: as many, and each a session.
pub fn is_tuple(tuple: &[&[u32]], places: usize) -> bool
    ensures { Decides result (IsTuple places (sessions tuple.now)) }
{
    tuple.len() == places && all_sessions(tuple)
}
