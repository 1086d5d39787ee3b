//! The policy of a formula table: its engine, and the signals by which a session stands for another.
#![tactic(auto)]

mod engine;
mod masks;
mod samples;
mod table_policy;

pub use samples::sample_holds;
pub use table_policy::TablePolicy;
