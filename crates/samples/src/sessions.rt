//! Lists of letters to judge.
use crate::random::{Random, Source};
use std::alloc::AllocError;

/// How many lists there are at a time.
const LISTS: u8 = 6;

/// Lists of letters to choose from: sessions of different lengths, some that differ little from one
/// another, and a few lists that are no sessions.
#[derive(Drop)]
pub(crate) struct Lists {
    lists: Vec<Vec<u32>>,
}

/// How many letters a list has that is to have at most so many: now and then none, or more than a
/// session may have.
fn list_len(random: &mut Random, longest: u8) -> usize {
    match random.below(40) {
        0 => 0,
        1 => 128 + random.below(3) as usize,
        _ => random.below(longest) as usize + 1,
    }
}

impl<'a> Source<'a> {
    /// A list of mostly at most so many letters, each mostly the one before it with a signal changed.
    fn drifting(&mut self, longest: u8, signals: u8) -> Result<Vec<u32>, AllocError> {
        let random = &mut self.random;
        let len = list_len(random, longest);
        let calm = random.below(20);
        let mut letter = random.letter();
        (0..len)
            .map(|_| {
                if random.one_in(calm) {
                    letter ^= random.signal(signals);
                }
                letter
            })
            .collect(self.rt.alloc())
    }

    /// A list with the same letters, but for a signal in some of them, that is turned on in all of
    /// those or off in all.
    fn varied(&mut self, letters: &[u32], signals: u8) -> Result<Vec<u32>, AllocError> {
        let random = &mut self.random;
        let signal = random.signal(signals);
        let turned_on = random.one_in(2);
        letters
            .iter()
            .map(|letter| match (random.one_in(2), turned_on) {
                (true, true) => *letter | signal,
                (true, false) => *letter & !signal,
                (false, _) => *letter,
            })
            .collect(self.rt.alloc())
    }
}

impl Lists {
    /// Lists of mostly at most so many letters, in which so many signals change.
    pub(crate) fn new(
        source: &mut Source<'_>,
        longest: u8,
        signals: u8,
    ) -> Result<Lists, AllocError> {
        let mut all = Lists {
            lists: Vec::new(source.rt.alloc()),
        };
        for made in 0..LISTS {
            let list = if made == 0 || source.random.one_in(2) {
                source.drifting(longest, signals)?
            } else {
                let model = source.random.below(made);
                source.varied(all.get(model), signals)?
            };
            all.lists.push(list)?;
        }
        Ok(all)
    }

    /// The list at an index; none at all past the last.
    fn get(&self, index: u8) -> &[u32] {
        self.lists
            .get(index as usize)
            .map_or(&[], |list| list.as_slice())
    }

    /// One of the lists.
    pub(crate) fn any(&self, random: &mut Random) -> &[u32] {
        self.get(random.below(LISTS))
    }
}
