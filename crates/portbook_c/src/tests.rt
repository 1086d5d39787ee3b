use crate::portbook_card_line;

#[test]
fn nine_sessions(rt: HostRuntime) {
    let mut out = [b'.'; 64];
    assert_eq!(rt; portbook_card_line(b"(sessions 9)", &mut out), 15);
}

#[test]
fn little_room(rt: HostRuntime) {
    let mut out = [b'.'; 63];
    assert_eq!(rt; portbook_card_line(b"(sessions 9)", &mut out), -13);
    assert!(rt; out.iter().all(|b| *b == b'.'));
}
