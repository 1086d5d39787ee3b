//! The reader of cards.
#![tactic(auto)]

mod card;
mod form;
mod line;
mod reader;

pub use card::{Card, read};
