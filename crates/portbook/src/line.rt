//! The line that tells what a card comes to.
ghost use Rattle.std.specs.Prelude.{◌≡◌, ◌+◌, ◌≤◌, ◌++◌, ◌↔◌, length, IsOk, IfOk, OnOk};
ghost use Rattle.fixed_vec.specs.Items.{items_of};
ghost use Rattle.card.specs.Reading.{reading};
ghost use Rattle.portbook.specs.Line.{spaced, three, card_line};

use card::read;
use fixed_vec::{FixedVec, Full};
use itoa::Buffer;
use lexer::Report;

/// Appends a space and a number.
fn put_number(line: &mut FixedVec<u8, 64>, number: usize) -> Result<(), Full>
    ensures taken { IsOk result ↔ (length (items_of line.old) + length (spaced number) ≤ 64) }
    ensures ok { OnOk result (items_of line.new ≡ items_of line.old ++ spaced number) }
{
    line.extend(b" ")?;
    line.extend(Buffer::new().format(number).as_bytes())
}

/// The line of a word and three numbers in brackets, where it has at most 64 bytes.
// Piece by piece: no clause of `write!` says when it succeeds, and the line is written for every card.
fn three_numbers(word: &[u8], a: usize, b: usize, c: usize) -> Result<FixedVec<u8, 64>, Full>
    ensures taken { IsOk result ↔ (length (three word.now a b c) ≤ 64) }
    ensures ok { IfOk result (λ line. items_of line ≡ three word.now a b c) }
{
    let mut line = FixedVec::new(0);
    line.extend(b"(")?;
    line.extend(word)?;
    put_number(&mut line, a)?;
    put_number(&mut line, b)?;
    put_number(&mut line, c)?;
    line.extend(b")\n")?;
    Ok(line)
}

/// The line of a card: what an accepted card has, or what the fault of a refused one tells.
pub(crate) fn line_of(card: &[u8]) -> FixedVec<u8, 64>
    ensures { items_of result ≡ card_line (reading card.now) }
{
    let line = match read(card) {
        Ok(card) => three_numbers(
            b"card",
            card.table.places(),
            card.names.len(),
            card.table.nodes().len(),
        ),
        Err(fault) => {
            let report = Report::from(fault);
            three_numbers(
                b"fault",
                report.number as usize,
                report.at.line,
                report.at.place,
            )
        }
    };
    line.unwrap()
}
