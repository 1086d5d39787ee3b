//! Cards.
ghost use Rattle.std.specs.Prelude.{◌≡◌};
ghost use Rattle.card.specs.Cards.{said, Decided, LinedFault};
ghost use Rattle.syntax.specs.Faults.{line_report};
ghost use Rattle.card.specs.Holding.{after, drafted};
ghost use Rattle.card.specs.Reading.{accepted, reading};

use crate::reader::{Draft, Reader};
use lexer::check_length;
use rule::Table;
use syntax::{LineFault, Names};

/// What an accepted card says: the names of its signals, and its rule as a table. The table's
/// places are the card's sessions.
#[derive(Drop)]
pub struct Card {
    pub names: Names,
    pub table: Table,
}

/// Reads a card, token by token.
fn scan(card: &[u8]) -> Result<Draft, LineFault>
    ensures { after line_report result (λ d. accepted (drafted d)) ≡ reading card.now }
{
    check_length(card)?;
    let mut reader = Reader::new(card);
    reader.lines()?;
    Ok(reader.draft)
}

/// Reads a card.
///
/// The answer is that of the definition of a card's reading, fault by fault. The card is accepted
/// exactly if the grammar derives it within the limits, it has one reading, and the table unfolds
/// to the rule of that reading.
pub fn read(card: &[u8]) -> Result<Card, LineFault>
    ensures exact { said result ≡ reading card.now }
    ensures grammar { Decided card.now result }
    ensures lines { LinedFault card.now result }
{
    let draft = scan(card)?;
    let table = Table::new(draft.sessions as usize, draft.nodes.as_slice()).unwrap();
    let names = draft.names;
    Ok(Card { names, table })
}
