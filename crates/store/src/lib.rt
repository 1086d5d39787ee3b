//! Stores of sessions, over memory that the caller moves in.
#![tactic(auto)]

mod compact;
mod header;
mod headers;
mod layout;
mod limits;
mod memory;
mod memory_store;
mod packed;
mod session;
mod slots;
mod store;
mod too_short;

pub use layout::Layout;
pub use limits::Limits;
pub use memory_store::{MemoryStore, PackedStore, SlotStore};
pub use packed::Packed;
pub use session::{NoRoom, Session};
pub use slots::Slots;
pub use store::Store;
pub use too_short::TooShort;
