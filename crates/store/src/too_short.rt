ghost use Rattle.std.specs.Prelude.{◌≡◌};
ghost use Rattle.store.specs.Limits.{short_number};

/// Memory of under 128 letters, which makes no store: it comes back as it was.
#[derive(Drop)]
pub struct TooShort {
    pub memory: Vec<u32>,
}

impl TooShort {
    /// The number of the refusal. It is a plain number, as the customer's list has it.
    pub fn number(&self) -> u8
        ensures { result ≡ short_number }
    {
        10
    }
}
