ghost use Rattle.std.specs.Prelude.{◌≡◌, ◌+◌, ◌≤◌, drop, IfOk, OnErr};
ghost use Rattle.lexer.specs.Tokens.{run, card_tokens};
ghost use Rattle.lexer.specs.Lexing.{left, unread, Dark, read_one, taken, IsPart, Falls};

use crate::fault::{Position, TokenFault};
use crate::kind::{Kind, is_wordy};
use crate::lexer::Lexer;
use crate::number::number;
use crate::token::{Spot, Token};

/// The most bytes of a word.
const MOST_LETTERS: usize = 16;

impl<'a> Lexer<'a> {
    /// The tokens of a card, from its first byte on.
    pub fn new(card: &'a [u8]) -> Lexer<'a>
        ensures left { left result ≡ card_tokens card.now }
        ensures card { result.card ≡ card.entry }
    {
        Lexer {
            card,
            at: Position { place: 0, line: 1 },
        }
    }

    /// The next token. After a fault, and at the card's end, the same answer comes again.
    pub fn next(&mut self) -> Result<Spot<'a>, TokenFault>
        ensures reads { left self.old ≡ taken result self.new }
        ensures same { OnErr result (left self.new ≡ left self.old) }
        ensures falls { IfOk result (λ s. Falls s.token (unread self.old) (unread self.new)) }
        ensures part { IfOk result (λ s. IsPart self.old.card s.token) }
        ensures card { self.new.card ≡ self.old.card }
    {
        self.skip_spaces();
        let at = self.at;
        let token = self.token()?;
        Ok(Spot { at, token })
    }

    /// The bytes that are left.
    fn rest(&self) -> &'a [u8]
        ensures bytes { result.now ≡ drop self.now.at.place self.now.card.now }
        ensures memory { result.ref_ptr ≡ (self.now.card.ref_ptr.0, self.now.card.ref_ptr.1 + self.now.at.place) }
    {
        &self.card[self.at.place..]
    }

    /// Moves to the first place from here on that holds no space.
    fn skip_spaces(&mut self)
        ensures same { left self.new ≡ left self.old }
        ensures falls { unread self.new ≤ unread self.old }
        ensures card { self.new.card ≡ self.old.card }
        ensures dark { Dark self.new }
    {
        let rest = self.rest();
        let spaces = rest.iter().position(|b| Kind::from(*b) != Kind::Space);
        self.at.place += spaces.unwrap_or(rest.len());
    }

    /// The letters and digits that begin here.
    fn run(&self) -> &'a [u8]
        ensures bytes { result.now ≡ run (drop self.now.at.place self.now.card.now) }
        ensures memory { result.ref_ptr ≡ (self.now.card.ref_ptr.0, self.now.card.ref_ptr.1 + self.now.at.place) }
    {
        let rest = self.rest();
        let end = rest.iter().position(|b| !is_wordy(*b));
        &rest[..end.unwrap_or(rest.len())]
    }

    /// The token that begins here, where no space is. The lexer moves past it, unless it is a fault.
    fn token(&mut self) -> Result<Token<'a>, TokenFault>
        requires dark { Dark self.old }
        ensures reads { left self.old ≡ read_one self.old.at result self.new }
        ensures same { OnErr result (left self.new ≡ left self.old) }
        ensures falls { IfOk result (λ t. Falls t (unread self.old) (unread self.new)) }
        ensures part { IfOk result (λ t. IsPart self.old.card t) }
        ensures card { self.new.card ≡ self.old.card }
    {
        let at = self.at;
        let Some(first) = self.rest().first() else {
            return Ok(Token::End);
        };
        match Kind::from(*first) {
            Kind::Open => {
                self.at.place += 1;
                Ok(Token::Open)
            }
            Kind::Close => {
                self.at.place += 1;
                Ok(Token::Close)
            }
            Kind::LineEnd => {
                self.at.place += 1;
                self.at.line += 1;
                Ok(Token::LineEnd)
            }
            Kind::Letter => {
                let text = self.run();
                if text.len() > MOST_LETTERS {
                    return Err(TokenFault::Run(at));
                }
                self.at.place += text.len();
                Ok(Token::Word {
                    text,
                    offset: at.place,
                })
            }
            Kind::Digit => {
                let digits = self.run();
                let value = number(digits).ok_or(TokenFault::Run(at))?;
                self.at.place += digits.len();
                Ok(Token::Number(value))
            }
            Kind::Space | Kind::Other => Err(TokenFault::Byte(at)),
        }
    }
}
