ghost use Rattle.std.specs.Prelude.{◌≡◌, ◌+◌, ◌≤◌, length, drop};
ghost use Rattle.std.proofs.Math.Seq.{paste};

/// Moves a run of letters down. One that stays where it is is not written.
pub(crate) fn move_down(memory: &mut [u32], from: usize, to: usize, len: usize)
    requires down { to ≤ from }
    requires inside { from + len ≤ length memory.old }
    ensures { memory.new ≡ paste memory.old to (drop from memory.old) len }
{
    if from != to {
        copy_down(memory, from, to, len);
    }
}

/// Copies a run of letters down.
// Not inlined, so that the loop over the sessions keeps its counts in registers.
#[inline(never)]
fn copy_down(memory: &mut [u32], from: usize, to: usize, len: usize)
    requires down { to ≤ from }
    requires inside { from + len ≤ length memory.old }
    ensures { memory.new ≡ paste memory.old to (drop from memory.old) len }
{
    memory.copy_within(from..from + len, to);
}

/// Writes letters over those that begin at `at`.
pub(crate) fn write_at(memory: &mut [u32], at: usize, letters: &[u32])
    requires { at + length letters.now ≤ length memory.old }
    ensures { memory.new ≡ paste memory.old at letters.now (length letters.now) }
{
    memory[at..at + letters.len()].copy_from_slice(letters);
}
