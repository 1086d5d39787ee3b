//! Worked samples of rules.
ghost use Rattle.std.specs.Prelude.{◌≡◌};
ghost use Rattle.std.specs.Option.{option_map};
ghost use Rattle.std.specs.List.{AllByRecursion, slice_get};
ghost use Rattle.table_policy.specs.Samples.{Right, samples};

/// Whether the rule holds, sample by sample.
const HOLDS: [bool; 9] = [true, false, true, false, true, false, true, false, true];

/// Whether the rule of a worked sample holds on its tuple, or none past the last sample. What is
/// said of each sample is what the meaning of rules gives.
#[tactic(auto, using(crate::proofs::Sampling::samples_right))]
pub fn sample_holds(index: usize) -> Option<bool>
    ensures answer { result ≡ option_map (λ s. s.holds) (slice_get samples index) }
    ensures right { AllByRecursion Right samples }
{
    HOLDS.get(index).copied()
}
