//! Bytes as characters.
ghost use Rattle.std.specs.Prelude.{◌≡◌};
ghost use Rattle.lexer.specs.Tokens.{kind, wordy};

/// What a byte is to a card.
#[derive(Clone, Copy, Debug, PartialEq, Eq)]
pub enum Kind {
    Space,
    Open,
    Close,
    LineEnd,
    Letter,
    Digit,
    Other,
}

impl From<u8> for Kind {
    ghost from_gives = { λ b r. r ≡ kind b };

    fn from(byte: u8) -> Kind {
        match byte as char {
            ' ' => Kind::Space,
            '(' => Kind::Open,
            ')' => Kind::Close,
            '\n' => Kind::LineEnd,
            'a'..='z' => Kind::Letter,
            '0'..='9' => Kind::Digit,
            _ => Kind::Other,
        }
    }
}

/// Whether a byte may stand in a word or a number.
// By the byte alone, since it is asked of each byte of a card: to ask for its kind first takes longer.
pub(crate) fn is_wordy(byte: u8) -> bool
    ensures { result ≡ wordy (kind byte) }
{
    matches!(byte as char, 'a'..='z' | '0'..='9')
}
