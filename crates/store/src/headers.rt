ghost use Rattle.std.specs.Prelude.{◌≡◌, true};
ghost use Rattle.fixed_vec.specs.Items.{items_of};
ghost use Rattle.store.specs.Inner.Kept.{all_short};

mod methods;

use crate::header::Header;
use crate::limits::MOST_SESSIONS;
use fixed_vec::FixedVec;

/// The headers of the kept sessions by their places, none of over 128 letters.
#[derive(Drop)]
pub struct Headers {
    list: FixedVec<Header, MOST_SESSIONS>,
    ghost short: { all_short (items_of list) ≡ true },
}
