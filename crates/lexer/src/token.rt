//! Tokens.
use crate::fault::Position;

/// A token of a card.
#[derive(Clone, Copy, Debug, PartialEq, Eq)]
pub enum Token<'a> {
    Open,
    Close,
    LineEnd,
    Number(u16),
    /// The word is that part of the card itself, from this offset on.
    Word { text: &'a [u8], offset: usize },
    /// The card ends here.
    End,
}

/// A token, and where its first byte is.
#[derive(Clone, Copy, Debug, PartialEq, Eq)]
pub struct Spot<'a> {
    pub at: Position,
    pub token: Token<'a>,
}
