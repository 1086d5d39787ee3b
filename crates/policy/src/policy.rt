ghost use Rattle.std.specs.Prelude.{◌≡◌, map};
ghost use Rattle.policy.specs.Policy.{Meaning, Lawful};

/// A policy over sessions: how many places its tuples have, which tuples break it, and which
/// session stands for which.
///
/// Its meaning is a ghost, and its laws are owed by each implementation. Asking changes nothing.
pub trait Policy {
    ghost meaning: { Self → Meaning };

    /// How many places a tuple has.
    fn arity(&self) -> usize
        ensures { result ≡ (meaning self.now).arity };

    /// Whether a tuple breaks the policy; no for what is no tuple of so many sessions.
    fn breaks(&self, tuple: &[&[u32]]) -> bool
        ensures { result ≡ (meaning self.now).breaks (map (λ x. x.now) tuple.now) };

    /// Whether the session `s` stands for the session `t`; no where one of them is no session.
    // Two arguments: a struct of both sessions would be no plainer than their names.
    fn stands_for(&self, s: &[u32], t: &[u32]) -> bool
        ensures { result ≡ (meaning self.now).stands s.now t.now };

    ghost lawful: { (p : Self) → Lawful (meaning p) };
}
