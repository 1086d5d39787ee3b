ghost use Rattle.std.specs.Prelude.{◌+◌, ◌≤◌, length};

mod methods;

use crate::fault::Position;

/// A card, and how far its tokens are read.
#[derive(Drop)]
pub struct Lexer<'a> {
    card: &'a [u8],
    at: Position,
    ghost within: { at.place ≤ length card.now },
    ghost lined: { at.line ≤ at.place + 1 },
}
