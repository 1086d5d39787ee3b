/// The number of a kept session, and how many letters it has.
#[derive(Clone, Copy, Debug, PartialEq, Eq)]
pub struct Header {
    pub number: u32,
    pub len: usize,
}

/// What stands in the room for headers that is not used.
pub(crate) const UNUSED: Header = Header { number: 0, len: 0 };
