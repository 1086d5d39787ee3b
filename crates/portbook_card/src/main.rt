//! Prints the line of the card in `card.txt`.
#![tactic(auto)]

ghost use Rattle.std.specs.Prelude.{◌≡◌, ◌≤◌, length};

use portbook::write_card_line;
use std::fs::File;
use std::io;
use std::io::{Read, Write};

/// How many bytes of the file are read: one more than a card may have.
const MOST_BYTES: usize = 4097;

/// Reads a file to the buffer's front, as far as there is room; how many bytes were read. A file
/// that cannot be opened has none.
fn load(rt: &HostRuntime, path: &str, buffer: &mut [u8]) -> usize
    ensures { result ≤ length buffer.new }
{
    let Ok(mut file) = File::open(rt, path) else {
        return 0;
    };
    // By hand, over a buffer in place: a Vec can run out of memory, and this program does not fail for that.
    let mut len = 0;
    while len < buffer.len() {
        match file.read(&mut buffer[len..]) {
            Ok(0) | Err(_) => return len,
            Ok(n) => len += n,
        }
    }
    len
}

fn main(rt: HostRuntime) -> io::Result<()> {
    let mut bytes = [0; MOST_BYTES];
    let len = load(&rt, "card.txt", &mut bytes);
    let mut line = [0; 64];
    let length = write_card_line(&bytes[0..len], &mut line).unwrap();
    rt.stdout().write_all(&line[0..length])
}
