use crate::{NoRoom, write_card_line};

/// Whether the card's line is this one, at the front of a buffer whose rest stays.
fn line_is(card: &[u8], wanted: &[u8]) -> bool {
    let mut out = [b'.'; 64];
    match write_card_line(card, &mut out) {
        Ok(end) => &out[0..end] == wanted && out[end..].iter().all(|b| *b == b'.'),
        Err(NoRoom) => false,
    }
}

#[test]
fn the_sample_card(rt: HostRuntime) {
    let card =
        b"(sessions 2)\n(signal tariff)\n(signal load)\n(signal feed)\n(rule (weak (near 1 2 0 feed) (not (near 1 2 0 tariff))))\n";
    assert!(rt; line_is(card, b"(card 2 3 8)\n"));
}

#[test]
fn nine_sessions(rt: HostRuntime) {
    assert!(rt; line_is(b"(sessions 9)", b"(fault 6 1 10)\n"));
}

#[test]
fn little_room(rt: HostRuntime) {
    let mut out = [b'.'; 63];
    assert_eq!(rt; write_card_line(b"(sessions 9)", &mut out), Err(NoRoom));
    assert!(rt; out.iter().all(|b| *b == b'.'));
}
