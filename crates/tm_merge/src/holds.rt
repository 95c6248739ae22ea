use tm_base::Entry;

/// A place at which no event arrived: in a thread, or at an object.
#[derive(Clone, Copy, Debug, PartialEq, Eq)]
pub enum Missing {
    Thread { thread: u32, place: u64 },
    Object { object: u32, at: u64 },
}

/// An event that is held, and the place for which it waits.
#[derive(Clone, Copy, Debug, PartialEq, Eq)]
pub struct Hold {
    pub entry: Entry,
    pub missing: Missing,
}
