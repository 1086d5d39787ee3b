//! Reads the lines of a card.
ghost use Rattle.std.specs.Prelude.{◌≡◌, ℕ, ◌<◌, ◌≤◌, List, [], ◌∷◌, ◌++◌, length, IfOk, OnOk};
ghost use Rattle.lexer.specs.declared.fault.Layer.TheVariants as layer;
ghost use Rattle.lexer.specs.Lexing.{unread};
ghost use Rattle.syntax.specs.Faults.{line_report};
ghost use Rattle.syntax.specs.declared.head.Topic.TheVariants as topic;
ghost use Rattle.card.specs.Holding.{from, from_topic, after, drafted, LineGoes, MarkGoes, WordGoes};
ghost use Rattle.card.specs.Reading as due;
ghost use Rattle.card.specs.Reading.{Due, accepted};

use crate::reader::Reader;
use lexer::{Position, Token};
use syntax::{LineFault, Topic, is_sessions};

/// The most sessions that a rule speaks of.
const MOST_SESSIONS: u16 = 4;

/// How many brackets may be open inside the bracket of a line.
const BRACKETS: u8 = 11;

/// A token without a value: a bracket of a line, its end, or the card's end.
#[derive(Clone, Copy)]
enum Mark {
    Open,
    Close,
    LineEnd,
    End,
}

impl<'a> Reader<'a> {
    /// Reads a mark.
    fn mark(&mut self, mark: Mark) -> Result<(), LineFault>
        ensures goes { MarkGoes mark self.old self.new result }
        ensures falls { OnOk result (unread self.new.lexer ≤ unread self.old.lexer) }
    {
        let spot = self.next()?;
        match (mark, spot.token) {
            (Mark::Open, Token::Open)
            | (Mark::Close, Token::Close)
            | (Mark::LineEnd, Token::LineEnd)
            | (Mark::End, Token::End) => Ok(()),
            _ => Err(LineFault::Stray(spot.at)),
        }
    }

    /// A word of a line, and where it is.
    // Apart from the forms' `word`: one method for both would want its fault's type at each call.
    fn line_word(&mut self) -> Result<(Position, &'a [u8]), LineFault>
        ensures goes { WordGoes layer.Line 11 line_report self.old self.new result }
        ensures falls { OnOk result (unread self.new.lexer < unread self.old.lexer) }
        ensures short { IfOk result (λ w. length w.1.now ≤ 16) }
    {
        let spot = self.next()?;
        let Token::Word { text, .. } = spot.token else {
            return Err(LineFault::Stray(spot.at));
        };
        Ok((spot.at, text))
    }

    /// The word `sessions`.
    fn sessions_word(&mut self) -> Result<(), LineFault>
        ensures { LineGoes (due.words due.sessions_word ∷ []) 11 [] 11 self.old self.new result }
    {
        let (at, text) = self.line_word()?;
        if !is_sessions(text) {
            return Err(LineFault::Stray(at));
        }
        Ok(())
    }

    /// The number of sessions.
    fn sessions_number(&mut self) -> Result<(), LineFault>
        ensures { LineGoes (due.numbers due.sessions ∷ []) 11 [] 11 self.old self.new result }
    {
        let spot = self.next()?;
        let Token::Number(n) = spot.token else {
            return Err(LineFault::Stray(spot.at));
        };
        if !(1..=MOST_SESSIONS).contains(&n) {
            return Err(LineFault::Range(spot.at));
        }
        self.draft.sessions = n as u8;
        Ok(())
    }

    /// The word of a line after the first.
    fn topic(&mut self) -> Result<Topic, LineFault>
        ensures goes { (ds : List Due) (vs : List ℕ) → from self.old (due.words due.topic ∷ ds) vs 11 ≡ after line_report result (λ t. from self.new (due.after_topic t ++ ds) vs 11) }
        ensures falls { OnOk result (unread self.new.lexer < unread self.old.lexer) }
    {
        let (at, text) = self.line_word()?;
        Topic::try_from(text).map_err(|_| LineFault::Stray(at))
    }

    /// A name to declare.
    fn new_name(&mut self) -> Result<(), LineFault>
        ensures goes { LineGoes (due.words due.new_name ∷ []) 11 [] 11 self.old self.new result }
        ensures falls { OnOk result (unread self.new.lexer < unread self.old.lexer) }
    {
        let (at, text) = self.line_word()?;
        self.draft
            .names
            .declare(text)
            .map_err(|_| LineFault::Name(at))
    }

    /// The first line.
    fn first_line(&mut self) -> Result<(), LineFault>
        ensures { LineGoes (due.opens due.first_line ∷ []) 12 (due.line ∷ []) 12 self.old self.new result }
    {
        self.mark(Mark::Open)?;
        self.sessions_word()?;
        self.sessions_number()?;
        self.mark(Mark::Close)?;
        self.mark(Mark::LineEnd)
    }

    /// A later line as far as its form, or to its end where it has none.
    fn later_line(&mut self) -> Result<Topic, LineFault>
        ensures goes { (ds : List Due) (vs : List ℕ) → from self.old (due.line ∷ ds) vs 12 ≡ after line_report result (λ t. from_topic t self.new ds vs) }
        ensures falls { OnOk result (unread self.new.lexer < unread self.old.lexer) }
    {
        self.mark(Mark::Open)?;
        let topic = self.topic()?;
        if let Topic::Signal = topic {
            self.new_name()?;
            self.mark(Mark::Close)?;
            self.mark(Mark::LineEnd)?;
        }
        Ok(topic)
    }

    /// The later lines as far as the form of the last.
    fn later_lines(&mut self) -> Result<(), LineFault>
        ensures { LineGoes (due.line ∷ []) 12 (due.after_topic topic.Rule) 11 self.old self.new result }
    {
        while let Topic::Signal = self.later_line()? {}
        Ok(())
    }

    /// The form of the last line, and the rest of the card.
    fn rule(&mut self) -> Result<(), LineFault>
        ensures { (vs : List ℕ) → from self.old (due.after_topic topic.Rule) vs 11 ≡ after line_report result (λ _. accepted (drafted self.new.draft)) }
    {
        self.form(BRACKETS)?;
        self.mark(Mark::Close)?;
        self.mark(Mark::LineEnd)?;
        self.mark(Mark::End)
    }

    /// All lines of the card.
    pub(crate) fn lines(&mut self) -> Result<(), LineFault>
        ensures { from self.old (due.opens due.first_line ∷ []) [] 12 ≡ after line_report result (λ _. accepted (drafted self.new.draft)) }
    {
        self.first_line()?;
        self.later_lines()?;
        self.rule()
    }
}
