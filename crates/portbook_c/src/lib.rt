//! The entries that C calls, over the library.
#![tactic(auto)]

ghost use Rattle.std.specs.Prelude.{◌≡◌, pos, ◌≤ℤ◌};
ghost use Rattle.portbook.specs.Line.{answer, written};

use portbook::{NoRoom, write_card_line};

#[cfg(test)]
mod tests;

/// The answer where there is too little room: C has no Result, so the entry answers a number.
const NO_ROOM: i32 = -13;

/// Writes the line of a card to the front of `out` and answers its length. The rest of `out` stays
/// as it is. Where `out` has under 64 bytes the answer is -13, and nothing is written.
#[unsafe(no_mangle)]
pub extern "C" fn portbook_card_line(card: &[u8], out: &mut [u8]) -> i32
    ensures answer { result ≡ answer card.now out.old }
    ensures bound { result ≤ℤ pos 64 }
    ensures written { out.new ≡ written card.now out.old }
{
    match write_card_line(card, out) {
        Ok(length) => length as i32,
        Err(NoRoom) => NO_ROOM,
    }
}
