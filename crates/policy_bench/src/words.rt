//! Sessions to measure with.

/// A session of 128 letters that looks random, another for each seed.
pub(crate) fn session(seed: u32) -> [u32; 128] {
    let mut state = seed;
    std::array::from_fn(|_| {
        state = state.wrapping_mul(1664525).wrapping_add(1013904223);
        state ^ (state >> 13)
    })
}
