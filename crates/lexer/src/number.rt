//! Numbers of one to three digits.
ghost use Rattle.std.specs.Prelude.{◌≡◌, ◌-◌, cond, Some, None};
ghost use Rattle.lexer.specs.Tokens.{is_digit, number_value};

/// The value of a digit.
fn digit(byte: u8) -> Option<u16>
    ensures { result ≡ cond (is_digit byte) (Some (byte - 48)) None }
{
    (byte as char).to_digit(10).map(|value| value as u16)
}

/// The number that the bytes write: one to three digits, with no zero before another digit.
pub(crate) fn number(digits: &[u8]) -> Option<u16>
    ensures { result ≡ number_value digits.now }
{
    match digits {
        [ones] => digit(*ones),
        [b'0', ..] => None,
        [tens, ones] => Some(10 * digit(*tens)? + digit(*ones)?),
        [hundreds, tens, ones] => {
            Some(100 * digit(*hundreds)? + 10 * digit(*tens)? + digit(*ones)?)
        }
        _ => None,
    }
}
