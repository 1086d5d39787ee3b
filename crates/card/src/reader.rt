//! What reads a card, and what its tokens have said so far.
ghost use Rattle.std.specs.Prelude.{◌≡◌, ℕ, List, IfOk};
ghost use Rattle.lexer.specs.Lexing.{unread, Falls, IsPart};
ghost use Rattle.lexer.specs.Tokens.{card_tokens};
ghost use Rattle.card.specs.Holding.{from, from_token, drafted};
ghost use Rattle.card.specs.Reading.{Due, nothing, run};

use fixed_vec::FixedVec;
use lexer::{Lexer, Spot, TokenFault};
use rule::{MOST_NODES, Node};
use syntax::Names;

/// What the tokens of a card have said so far.
#[derive(Clone, Copy)]
pub(crate) struct Draft {
    pub(crate) sessions: u8,
    pub(crate) names: Names,
    pub(crate) nodes: FixedVec<Node, MOST_NODES>,
}

impl Draft {
    /// No token has said anything.
    fn new() -> Draft
        ensures { drafted result ≡ nothing }
    {
        Draft {
            sessions: 0,
            names: Names::new(),
            nodes: FixedVec::new(Node::True),
        }
    }
}

/// A card on its way to being read: its tokens, and what they have said so far.
#[derive(Drop)]
pub(crate) struct Reader<'a> {
    pub(crate) lexer: Lexer<'a>,
    pub(crate) draft: Draft,
}

impl<'a> Reader<'a> {
    /// A card of which no token is read.
    pub(crate) fn new(card: &'a [u8]) -> Reader<'a>
        ensures { (ds : List Due) (vs : List ℕ) (room : ℕ) → from result ds vs room ≡ run (card_tokens card.now) ds vs room nothing }
    {
        Reader {
            lexer: Lexer::new(card),
            draft: Draft::new(),
        }
    }

    /// The next token.
    pub(crate) fn next(&mut self) -> Result<Spot<'a>, TokenFault>
        ensures reads { (ds : List Due) (vs : List ℕ) (room : ℕ) → from self.old ds vs room ≡ from_token result self.new ds vs room }
        ensures falls { IfOk result (λ s. Falls s.token (unread self.old.lexer) (unread self.new.lexer)) }
        ensures part { IfOk result (λ s. IsPart self.old.lexer.card s.token) }
        ensures draft { self.new.draft ≡ self.old.draft }
    {
        self.lexer.next()
    }
}
