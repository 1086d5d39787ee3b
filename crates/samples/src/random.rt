//! Numbers that look random, and what samples are made with.
ghost use Rattle.std.specs.Prelude.{◌≤◌};

/// A source of numbers that look random and are the same on each run.
#[derive(Drop)]
pub(crate) struct Random {
    state: u64,
}

impl Random {
    /// The source of a seed.
    pub(crate) fn new(seed: u64) -> Random {
        Random { state: seed }
    }

    /// The next 64 bits.
    fn next(&mut self) -> u64 {
        self.state = self.state.wrapping_add(0x9e37_79b9_7f4a_7c15);
        let mut bits = self.state;
        bits = (bits ^ (bits >> 30)).wrapping_mul(0xbf58_476d_1ce4_e5b9);
        bits = (bits ^ (bits >> 27)).wrapping_mul(0x94d0_49bb_1331_11eb);
        bits ^ (bits >> 31)
    }

    /// A letter: any 32 bits.
    pub(crate) fn letter(&mut self) -> u32 {
        (self.next() & 0xffff_ffff) as u32
    }

    /// A number below the limit; 0 where the limit is 0.
    pub(crate) fn below(&mut self, limit: u8) -> u8
        ensures { result ≤ limit }
    {
        (self.next() % limit.max(1) as u64) as u8
    }

    /// A number of places: 1 to 4.
    pub(crate) fn places(&mut self) -> u8 {
        self.below(4).saturating_add(1)
    }

    /// The set of one of the first signals, of which there are so many.
    pub(crate) fn signal(&mut self, signals: u8) -> u32 {
        1 << self.below(signals).min(31)
    }

    /// True once in so many times.
    pub(crate) fn one_in(&mut self, times: u8) -> bool {
        self.below(times) == 0
    }

    /// Some of the first bits, of which there are so many, each once in so many times.
    pub(crate) fn some_of(&mut self, bits: u8, times: u8) -> u32 {
        (0..bits.min(32))
            .filter(|_| self.one_in(times))
            .fold(0, |set, bit| set | 1 << bit)
    }
}

/// What samples are made with, and where what differs is printed.
#[derive(Drop)]
pub(crate) struct Source<'a> {
    pub(crate) rt: &'a HostRuntime,
    pub(crate) random: Random,
}
