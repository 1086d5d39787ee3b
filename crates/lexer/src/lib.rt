//! The tokens of a card, and the faults of its bytes.
#![tactic(auto)]

mod fault;
mod kind;
mod lexer;
mod number;
mod token;

pub use fault::{Layer, Position, Report, TokenFault, check_length};
pub use lexer::Lexer;
pub use token::{Spot, Token};
