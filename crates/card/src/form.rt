//! Reads a form.
ghost use Rattle.std.specs.Prelude.{◌≡◌, ℕ, ◌+◌, ◌-◌, ◌^◌, ◌<◌, List, [], ◌∷◌, ◌++◌, length, drop, IfOk, OnOk};
ghost use Rattle.fixed_vec.specs.Items.{items_of};
ghost use Rattle.lexer.specs.declared.fault.Layer.TheVariants as layer;
ghost use Rattle.syntax.specs.declared.head.Head.{Head as HeadOf};
ghost use Rattle.syntax.specs.declared.head.Head.TheVariants as head;
ghost use Rattle.syntax.specs.Faults.{form_report};
ghost use Rattle.card.specs.Holding.{from, after, after_step, drafted, stray_number, FormGoes, WordGoes};
ghost use Rattle.card.specs.Layout.{arity, head_nodes};
ghost use Rattle.card.specs.Reading as due;
ghost use Rattle.card.specs.Reading.{Due, Numbers};

use crate::reader::Reader;
use lexer::{Position, Spot, Token};
use rule::Node;
use syntax::{Binary, FormFault, Head, Unary};

/// The most differences that `near` may allow.
const MOST_DIFFERENCES: u16 = 32;

/// The fault of a token that cannot come here, where `room` brackets may still open.
fn stray(spot: Spot, room: u8) -> FormFault
    ensures { form_report result ≡ record { number = stray_number spot.entry.token room; at = spot.entry.at; layer = layer.Form } }
{
    match spot.token {
        Token::Open if room == 0 => FormFault::Deep(spot.at),
        _ => FormFault::Stray(spot.at),
    }
}

/// The set of one signal.
fn bit(signal: u8) -> u32
    requires { signal < 32 }
    ensures { result ≡ 2 ^ signal }
{
    1 << signal
}

impl<'a> Reader<'a> {
    /// The opening bracket of a form.
    fn opening(&mut self, room: u8) -> Result<(), FormFault>
        ensures goes { (ds : List Due) (vs : List ℕ) → from self.old (due.form ∷ ds) vs room ≡ after form_report result (λ _. from self.new (due.words due.head ∷ ds) vs (room - 1)) }
        ensures spare { OnOk result (0 < room) }
    {
        let spot = self.next()?;
        match spot.token {
            Token::Open if room > 0 => Ok(()),
            _ => Err(stray(spot, room)),
        }
    }

    /// A word of a form, and where it is.
    fn word(&mut self, room: u8) -> Result<(Position, &'a [u8]), FormFault>
        ensures goes { WordGoes layer.Form room form_report self.old self.new result }
        ensures draft { self.new.draft ≡ self.old.draft }
    {
        let spot = self.next()?;
        let Token::Word { text, .. } = spot.token else {
            return Err(stray(spot, room));
        };
        Ok((spot.at, text))
    }

    /// A number of a form, and where it is.
    fn number(&mut self, room: u8) -> Result<(Position, u16), FormFault>
        ensures goes { (k : Numbers) (ds : List Due) (vs : List ℕ) → due.numbers_layer k ≡ layer.Form → from self.old (due.numbers k ∷ ds) vs room ≡ after form_report result (λ n. after_step n.0 self.new (due.numbered n.1 k ds vs room (drafted self.new.draft))) }
        ensures draft { self.new.draft ≡ self.old.draft }
    {
        let spot = self.next()?;
        let Token::Number(n) = spot.token else {
            return Err(stray(spot, room));
        };
        Ok((spot.at, n))
    }

    /// The word of a form.
    fn head(&mut self, room: u8) -> Result<Head, FormFault>
        ensures { (ds : List Due) (vs : List ℕ) → from self.old (due.words due.head ∷ ds) vs room ≡ after form_report result (λ h. from self.new (due.parts h ++ ds) vs room) }
    {
        let (at, text) = self.word(room)?;
        Head::try_from(text).map_err(|_| FormFault::Stray(at))
    }

    /// A session, as a place counted from 0.
    fn place(&mut self, room: u8) -> Result<u8, FormFault>
        ensures { FormGoes (due.numbers due.place ∷ []) room room self.old self.new result }
    {
        let (at, n) = self.number(room)?;
        if !(1..=self.draft.sessions as u16).contains(&n) {
            return Err(FormFault::Range(at));
        }
        Ok((n - 1) as u8)
    }

    /// How many differences are allowed.
    fn limit(&mut self, room: u8) -> Result<u32, FormFault>
        ensures { FormGoes (due.numbers due.limit ∷ []) room room self.old self.new result }
    {
        let (at, n) = self.number(room)?;
        if n > MOST_DIFFERENCES {
            return Err(FormFault::Range(at));
        }
        Ok(n as u32)
    }

    /// The name of a signal.
    fn signal(&mut self, room: u8) -> Result<u8, FormFault>
        ensures one { FormGoes (due.words due.signal ∷ []) room room self.old self.new result }
        ensures set { (ds : List Due) (vs : List ℕ) → from self.old (due.words due.mask ∷ ds) vs room ≡ after form_report result (λ i. from self.new ds ((2 ^ i) ∷ vs) room) }
        ensures bound { IfOk result (λ i. i < 32) }
    {
        let (at, text) = self.word(room)?;
        self.draft.names.find(text).ok_or(FormFault::Name(at))
    }

    /// Adds the nodes of a form whose closing bracket is at `at`; the index of the last.
    fn add(&mut self, at: Position, nodes: &[Node]) -> Result<u8, FormFault>
        requires { 0 < length nodes.now }
        ensures { (ds : List Due) (vs : List ℕ) (room : ℕ) → after_step at self.old (due.adding nodes.now ds vs room (drafted self.old.draft)) ≡ after form_report result (λ i. from self.new ds (i ∷ vs) (room + 1)) }
    {
        self.draft
            .nodes
            .extend(nodes)
            .map_err(|_| FormFault::Nodes(at))?;
        Ok((self.draft.nodes.len() - 1) as u8)
    }

    /// The closing bracket of a form, which adds these nodes; the index of the last.
    fn close(&mut self, room: u8, nodes: &[Node]) -> Result<u8, FormFault>
        requires { 0 < length nodes.now }
        ensures { (h : HeadOf) (ds : List Due) (vs : List ℕ) → head_nodes h vs (length (items_of self.old.draft.nodes)) ≡ nodes.now → from self.old (due.makes h ∷ ds) vs room ≡ after form_report result (λ i. from self.new ds (i ∷ drop (arity h) vs) (room + 1)) }
    {
        let spot = self.next()?;
        let Token::Close = spot.token else {
            return Err(stray(spot, room));
        };
        self.add(spot.at, nodes)
    }

    /// What follows `at`.
    fn at(&mut self, room: u8) -> Result<u8, FormFault>
        ensures { FormGoes (due.parts head.At) room (room + 1) self.old self.new result }
    {
        let place = self.place(room)?;
        let signal = self.signal(room)?;
        self.close(room, &[Node::At { place, signal }])
    }

    /// The further names of `near`, which join a set, and the closing bracket; where it is, and
    /// the set.
    fn names(&mut self, room: u8, start: u32) -> Result<(Position, u32), FormFault>
        ensures { (ds : List Due) (vs : List ℕ) → from self.old (due.names ∷ ds) (start ∷ vs) room ≡ after form_report result (λ m. after_step m.0 self.new (due.making head.Near ds (m.1 ∷ vs) room (drafted self.new.draft))) }
    {
        let mut mask = start;
        // No chain is plainer: a name, the bracket and any other token each end a turn in their own way.
        loop {
            let spot = self.next()?;
            match spot.token {
                Token::Word { text, .. } => {
                    let signal = self.draft.names.find(text).ok_or(FormFault::Name(spot.at))?;
                    mask |= bit(signal);
                }
                Token::Close => return Ok((spot.at, mask)),
                _ => return Err(stray(spot, room)),
            }
        }
    }

    /// What follows `near`.
    fn near(&mut self, room: u8) -> Result<u8, FormFault>
        ensures { FormGoes (due.parts head.Near) room (room + 1) self.old self.new result }
    {
        let first = self.place(room)?;
        let second = self.place(room)?;
        let limit = self.limit(room)?;
        let signal = self.signal(room)?;
        let (at, mask) = self.names(room, bit(signal))?;
        self.add(
            at,
            &[Node::Near {
                first,
                second,
                limit,
                mask,
            }],
        )
    }

    /// A form, where `room` brackets may still open; the index of its node.
    #[cycle(form_one_parts_two)]
    pub(crate) fn form(&mut self, room: u8) -> Result<u8, FormFault>
        ensures { FormGoes (due.form ∷ []) room room self.old self.new result }
    {
        self.opening(room)?;
        self.parts(room - 1)
    }

    /// The parts of a form, from its word to its closing bracket; the index of its node.
    #[cycle(form_one_parts_two)]
    fn parts(&mut self, room: u8) -> Result<u8, FormFault>
        ensures { FormGoes (due.words due.head ∷ []) room (room + 1) self.old self.new result }
    {
        match self.head(room)? {
            Head::True => self.close(room, &[Node::True]),
            Head::At => self.at(room),
            Head::Near => self.near(room),
            Head::One(unary) => self.one(room, unary),
            Head::Two(binary) => self.two(room, binary),
        }
    }

    /// A form, and the closing bracket of the form over it.
    #[cycle(form_one_parts_two)]
    fn one(&mut self, room: u8, unary: Unary) -> Result<u8, FormFault>
        ensures { FormGoes (due.parts (head.One unary)) room (room + 1) self.old self.new result }
    {
        let f = self.form(room)?;
        let n = self.draft.nodes.len() as u8;
        match unary {
            Unary::Not => self.close(room, &[Node::Not(f)]),
            Unary::Next => self.close(room, &[Node::Next(f)]),
            Unary::Always => self.close(
                room,
                &[
                    Node::True,
                    Node::Not(f),
                    Node::Until(n, n + 1),
                    Node::Not(n + 2),
                ],
            ),
        }
    }

    /// Two forms, and the closing bracket of the form over them.
    #[cycle(form_one_parts_two)]
    fn two(&mut self, room: u8, binary: Binary) -> Result<u8, FormFault>
        ensures { FormGoes (due.parts (head.Two binary)) room (room + 1) self.old self.new result }
    {
        let f = self.form(room)?;
        let g = self.form(room)?;
        let n = self.draft.nodes.len() as u8;
        match binary {
            Binary::And => self.close(room, &[Node::And(f, g)]),
            Binary::Or => self.close(room, &[Node::Or(f, g)]),
            Binary::Until => self.close(room, &[Node::Until(f, g)]),
            Binary::Iff => {
                let neither = Node::And(n + 1, n + 2);
                self.close(
                    room,
                    &[
                        Node::And(f, g),
                        Node::Not(f),
                        Node::Not(g),
                        neither,
                        Node::Or(n, n + 3),
                    ],
                )
            }
            Binary::Weak => {
                let broken = Node::Until(n + 1, n + 2);
                self.close(
                    room,
                    &[
                        Node::Not(f),
                        Node::Not(g),
                        Node::And(n, n + 1),
                        broken,
                        Node::Not(n + 3),
                    ],
                )
            }
        }
    }
}
