ghost use Rattle.std.specs.Prelude.{◌≡◌, List, [], length, if◌then◌else◌, is_ok, OnErr};
ghost use Rattle.std.specs.Option.{option_map};
ghost use Rattle.std.specs.List.{slice_get};
ghost use Rattle.store.specs.declared.limits.Limits.{Limits};
ghost use Rattle.store.specs.Entries.{Entry, Within, entry_of, exchanged, takes, read_at, written};

use crate::session::{NoRoom, Session};

/// A store of sessions: a list of entries, each a session's number and its letters, within two
/// limits that never change.
///
/// What it holds is a ghost, and each implementation owes the law that the entries are within the
/// limits. Asking changes nothing.
pub trait Store {
    ghost entries: { Self → List Entry };

    ghost limits: { Self → Limits };

    /// The session number and the length of the entry at a place, or none where there is no entry.
    fn entry(&self, place: usize) -> Option<(u32, usize)>
        ensures { result ≡ option_map (λ e. (e.number, length e.letters)) (slice_get (entries self.now) place) };

    /// Copies the letters of the entry at a place to the front of the buffer, and answers how many
    /// they are. None, and nothing is written, where there is no entry or the buffer is too short.
    // One answer for both, as the customer's list has it.
    fn letters(&self, place: usize, buffer: &mut [u32]) -> Option<usize>
        ensures count { result ≡ option_map length (read_at (entries self.now) place (length buffer.old)) }
        ensures copy { buffer.new ≡ written (read_at (entries self.now) place (length buffer.old)) buffer.old };

    /// The entries at the places leave, and the session stands last. No room, and nothing has
    /// changed, where it has over 128 letters or the list would pass a limit. A place without an
    /// entry is ignored, and one named twice counts once.
    fn exchange(&mut self, places: &[usize], session: Session) -> Result<(), NoRoom>
        ensures test { is_ok result ≡ takes (limits self.old) places.now (entries self.old) (entry_of session.entry) }
        ensures after { entries self.new ≡ (if is_ok result then exchanged places.now (entries self.old) (entry_of session.entry) else entries self.old) }
        ensures stays { limits self.new ≡ limits self.old }
        ensures refused { OnErr result (self.new ≡ self.old) };

    /// Leaves no entry.
    fn clear(&mut self)
        ensures empty { entries self.new ≡ [] }
        ensures stays { limits self.new ≡ limits self.old };

    ghost within: { (s : Self) → Within (limits s) (entries s) };
}
