//! What forms mean, by their quantifiers over the steps.
use crate::form::Form;
use crate::letters::{differing, is_on};
use crate::word::Word;
use syntax::{Binary, Unary};

impl Form {
    /// Whether the form holds at the step `i` of a word.
    // The step goes beside the word: each of the five methods asks at steps of its own.
    #[cycle(holds)]
    pub(crate) fn holds(&self, word: Word<'_>, i: usize) -> bool {
        match self {
            Form::True => true,
            Form::At { place, signal } => is_on(word.letter(*place, i), *signal),
            Form::Near {
                first,
                second,
                limit,
                signals,
            } => differing(*signals, word.letter(*first, i), word.letter(*second, i))
                <= *limit as usize,
            Form::One(Unary::Not, f) => !f.holds(word, i),
            Form::One(Unary::Next, f) => {
                let later = i.saturating_add(1);
                later < word.steps && f.holds(word, later)
            }
            Form::One(Unary::Always, f) => f.each(word, i, word.steps),
            Form::Two(Binary::And, f, g) => f.holds(word, i) && g.holds(word, i),
            Form::Two(Binary::Or, f, g) => f.holds(word, i) || g.holds(word, i),
            Form::Two(Binary::Iff, f, g) => f.holds(word, i) == g.holds(word, i),
            Form::Two(Binary::Until, f, g) => f.until(g, word, i),
            Form::Two(Binary::Weak, f, g) => f.weak(g, word, i),
        }
    }

    // The quantifiers are methods: within `holds` it was not shown that a closure's form is smaller.

    /// Whether the form holds at each step from `i` to the one before `j`.
    #[cycle(holds)]
    fn each(&self, word: Word<'_>, i: usize, j: usize) -> bool {
        (i..j).all(|l| self.holds(word, l))
    }

    /// Whether the form holds at some step from `i` to the one before `j`.
    #[cycle(holds)]
    fn some(&self, word: Word<'_>, i: usize, j: usize) -> bool {
        (i..j).any(|l| self.holds(word, l))
    }

    /// Whether there is a step from `i` on where `other` holds, with the form at each step from `i`
    /// to the one before it.
    #[cycle(holds)]
    fn until(&self, other: &Form, word: Word<'_>, i: usize) -> bool {
        (i..word.steps).any(|j| other.holds(word, j) && self.each(word, i, j))
    }

    /// Whether at each step from `i` on the form holds, or `other` has held at some step from `i` on.
    #[cycle(holds)]
    fn weak(&self, other: &Form, word: Word<'_>, i: usize) -> bool {
        (i..word.steps).all(|j| self.holds(word, j) || other.some(word, i, j.saturating_add(1)))
    }
}
