//! Which session stands for which, by two sets of signals.
ghost use Rattle.std.specs.Prelude.{◌≡◌, ℕ, ◌<◌, true, ◌&&◌, bit_or, length, Decides, slice_index};
ghost use Rattle.policy.specs.Standing.{StandsBy};
ghost use Rattle.policy.specs.Testing.{covers};

use crate::session::is_session;

/// Whether each signal of the set that is on in one letter is on in the other.
fn is_covered(signals: u32, a: u32, b: u32) -> bool
    ensures { result ≡ covers signals a b }
{
    signals & a & b == signals & a
}

/// The signals that are read upright and those that are read inverted, each as a set.
#[derive(Clone, Copy, Debug, PartialEq, Eq)]
pub struct Signals {
    pub upright: u32,
    pub inverted: u32,
}

impl Signals {
    /// No signal is read.
    pub fn none() -> Signals
        ensures { (result.upright ≡ 0) × (result.inverted ≡ 0) }
    {
        Signals {
            upright: 0,
            inverted: 0,
        }
    }

    /// The signals of a set, read upright and inverted.
    pub fn both(signals: u32) -> Signals
        ensures { (result.upright ≡ signals) × (result.inverted ≡ signals) }
    {
        Signals {
            upright: signals,
            inverted: signals,
        }
    }

    /// What is read by one or the other.
    pub fn union(self, other: Signals) -> Signals
        ensures { (result.upright ≡ bit_or self.upright other.upright) × (result.inverted ≡ bit_or self.inverted other.inverted) }
    {
        Signals {
            upright: self.upright | other.upright,
            inverted: self.inverted | other.inverted,
        }
    }

    /// What the opposite reads: inverted where this reads upright, and upright where inverted.
    pub fn swapped(self) -> Signals
        ensures { (result.upright ≡ self.inverted) × (result.inverted ≡ self.upright) }
    {
        Signals {
            upright: self.inverted,
            inverted: self.upright,
        }
    }

    /// Whether at each step the upright signals on in `s` are on in `t`, and the inverted signals
    /// on in `t` are on in `s`.
    fn covers_throughout(self, s: &[u32], t: &[u32]) -> bool
        requires { length s.now ≡ length t.now }
        ensures { Decides result ((i : ℕ) → i < length s.now → (covers self.upright (slice_index s.now i) (slice_index t.now i) && covers self.inverted (slice_index t.now i) (slice_index s.now i)) ≡ true) }
    {
        s.iter().zip(t).all(|(a, b)| is_covered(self.upright, *a, *b)
            & is_covered(self.inverted, *b, *a))
    }

    /// Whether `s` stands for `t`: both are sessions, equally long, and at each step the upright
    /// signals on in `s` are on in `t`, and the inverted signals on in `t` are on in `s`.
    pub fn stands_for(self, s: &[u32], t: &[u32]) -> bool
        ensures { Decides result (StandsBy self.upright self.inverted s.now t.now) }
    {
        s.len() == t.len() && is_session(s) && self.covers_throughout(s, t)
    }
}
