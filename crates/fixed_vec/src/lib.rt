//! A list of bounded length that lies in place and never allocates.
#![tactic(auto)]

mod vec;

pub use vec::{FixedVec, Full};
