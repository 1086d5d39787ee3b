//! The card line.
ghost use Rattle.std.specs.Prelude.{◌≡◌, ◌≤◌, IfOk};
ghost use Rattle.portbook.specs.Line.{answer, code, written};

use crate::line::line_of;

/// The least room for a card line.
const LEAST_ROOM: usize = 64;

/// There is too little room for a card line.
#[derive(Clone, Copy, Debug, PartialEq, Eq)]
pub struct NoRoom;

/// Writes the line of a card to the front of `out` and gives its length. The rest of `out` stays as
/// it is. Where `out` has under 64 bytes there is no room, and nothing is written.
pub fn write_card_line(card: &[u8], out: &mut [u8]) -> Result<usize, NoRoom>
    ensures answer { code result ≡ answer card.now out.old }
    ensures bound { IfOk result (λ n. n ≤ 64) }
    ensures written { out.new ≡ written card.now out.old }
{
    if out.len() < LEAST_ROOM {
        return Err(NoRoom);
    }
    let line = line_of(card);
    let text = line.as_slice();
    out[..text.len()].copy_from_slice(text);
    Ok(text.len())
}
