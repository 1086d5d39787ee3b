//! Where a fault is found and what it says, and the faults of a card's bytes.
ghost use Rattle.std.specs.Prelude.{◌≡◌};
ghost use Rattle.lexer.specs.Faults.{token_report, length_fault};

/// The most bytes of a card.
const MOST_BYTES: usize = 4096;

/// A place in a card: its byte, counted from 0 over the whole card, and its line, counted from 1.
#[derive(Clone, Copy, Debug, PartialEq, Eq)]
pub struct Position {
    pub place: usize,
    pub line: usize,
}

/// The part of the reader that finds a fault: the bytes, a form, or a line around it.
#[derive(Clone, Copy, Debug, PartialEq, Eq)]
pub enum Layer {
    Token,
    Form,
    Line,
}

/// What a fault tells: its number, where it is, and its layer.
#[derive(Clone, Copy, Debug, PartialEq, Eq)]
pub struct Report {
    /// The customer's number, which the card line prints.
    pub number: u8,
    pub at: Position,
    pub layer: Layer,
}

impl Report {
    /// The report of these parts.
    pub fn new(number: u8, at: Position, layer: Layer) -> Report
        ensures { result ≡ record { number = number; at = at; layer = layer } }
    {
        Report { number, at, layer }
    }
}

/// Why bytes make no token.
#[derive(Clone, Copy, Debug, PartialEq, Eq)]
pub enum TokenFault {
    /// The card has more than 4,096 bytes.
    Long,
    /// No token begins with this byte.
    Byte(Position),
    /// The letters and digits that begin here make neither a word nor a number.
    Run(Position),
}

impl From<TokenFault> for Report {
    ghost from_gives = { λ e r. r ≡ token_report e };

    fn from(fault: TokenFault) -> Report {
        match fault {
            TokenFault::Long => {
                let at = Position {
                    place: MOST_BYTES,
                    line: 1,
                };
                Report::new(1, at, Layer::Token)
            }
            TokenFault::Byte(at) => Report::new(2, at, Layer::Token),
            TokenFault::Run(at) => Report::new(2, at, Layer::Token),
        }
    }
}

/// Refuses a card of more than 4,096 bytes.
pub fn check_length(card: &[u8]) -> Result<(), TokenFault>
    ensures { result ≡ length_fault card.now }
{
    if card.len() > MOST_BYTES {
        return Err(TokenFault::Long);
    }
    Ok(())
}
