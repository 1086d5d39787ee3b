/// A session to be kept: its number and its letters.
#[derive(Clone, Copy, Debug, PartialEq, Eq)]
pub struct Session<'a> {
    pub number: u32,
    pub letters: &'a [u32],
}

/// The session is too long, or the store would pass a limit.
#[derive(Clone, Copy, Debug, PartialEq, Eq)]
pub struct NoRoom;
