//! Letters: which signals are on at a step.
ghost use Rattle.std.specs.Prelude.{◌≡◌};
ghost use Rattle.policy.specs.Sessions.{on};

/// How many signals a letter has.
const SIGNALS: u8 = 32;

/// Whether a signal is on in a letter; no signal past 31 is.
pub fn is_on(letter: u32, signal: u8) -> bool
    ensures { result ≡ on letter signal }
{
    signal < SIGNALS && (letter >> signal) & 1 == 1
}
