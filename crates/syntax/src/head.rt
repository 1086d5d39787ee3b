//! The words that begin forms and lines.
ghost use Rattle.std.specs.Prelude.{◌≡◌, codes, ok_or};
ghost use Rattle.syntax.specs.Words.{same, head_of, topic_of};

/// The forms over one form.
#[derive(Clone, Copy, Debug, PartialEq, Eq)]
pub enum Unary {
    Not,
    Next,
    Always,
}

/// The forms over two forms.
#[derive(Clone, Copy, Debug, PartialEq, Eq)]
pub enum Binary {
    And,
    Or,
    Until,
    Iff,
    Weak,
}

/// The form that a word begins.
#[derive(Clone, Copy, Debug, PartialEq, Eq)]
pub enum Head {
    True,
    At,
    Near,
    One(Unary),
    Two(Binary),
}

/// What a line after the first is about.
#[derive(Clone, Copy, Debug, PartialEq, Eq)]
pub enum Topic {
    Signal,
    Rule,
}

/// The word begins nothing.
#[derive(Clone, Copy, Debug, PartialEq, Eq)]
pub struct UnknownWord;

impl<'a> TryFrom<&'a [u8]> for Head {
    type Error = UnknownWord;

    ghost try_from_gives = { λ word r. r ≡ ok_or (head_of word.now) (record {}) };

    #[tactic(auto, using(crate::proofs::Spelling::begins_alike))]
    fn try_from(word: &'a [u8]) -> Result<Self, UnknownWord> {
        match word {
            b"true" => Ok(Head::True),
            b"at" => Ok(Head::At),
            b"near" => Ok(Head::Near),
            b"not" => Ok(Head::One(Unary::Not)),
            b"next" => Ok(Head::One(Unary::Next)),
            b"always" => Ok(Head::One(Unary::Always)),
            b"and" => Ok(Head::Two(Binary::And)),
            b"or" => Ok(Head::Two(Binary::Or)),
            b"until" => Ok(Head::Two(Binary::Until)),
            b"iff" => Ok(Head::Two(Binary::Iff)),
            b"weak" => Ok(Head::Two(Binary::Weak)),
            _ => Err(UnknownWord),
        }
    }
}

impl<'a> TryFrom<&'a [u8]> for Topic {
    type Error = UnknownWord;

    ghost try_from_gives = { λ word r. r ≡ ok_or (topic_of word.now) (record {}) };

    fn try_from(word: &'a [u8]) -> Result<Self, UnknownWord> {
        match word {
            b"signal" => Ok(Topic::Signal),
            b"rule" => Ok(Topic::Rule),
            _ => Err(UnknownWord),
        }
    }
}

/// Whether a word is that of the first line.
pub fn is_sessions(word: &[u8]) -> bool
    ensures { result ≡ same word.now (codes "sessions") }
{
    word == b"sessions".as_slice()
}
