//! Sessions, tuples of sessions, and what a policy is.
#![tactic(auto)]

mod joined_word;
mod letter;
mod pair;
mod policy;
mod session;
mod signals;
mod tuple;

pub use joined_word::{JoinedWord, letters_at};
pub use letter::is_on;
pub use pair::{Pair, UnlikePlaces};
pub use policy::Policy;
pub use session::{ends_first, is_session};
pub use signals::Signals;
pub use tuple::{MOST_PLACES, is_tuple};
