//! The entries of the library.
#![tactic(auto)]

mod entry;
mod line;

pub use entry::{NoRoom, write_card_line};

#[cfg(test)]
mod tests;
