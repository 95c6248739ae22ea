use crate::asked::Asked;
use tm_base::{Entry, Reply};
use tm_merge::Missing;

/// Why an event isn't a joint step.
#[derive(Clone, Copy, Debug, PartialEq, Eq)]
pub enum Cause {
    /// Its thread has ended.
    Ended,
    /// Its place in its thread or at its object isn't the next one, which is this.
    Place(Missing),
    /// Its stamp isn't 1 plus the greater of the last stamps of its thread and its object, which is this.
    Stamp(u64),
    /// Its thread waits at this object, and the event isn't `resume` there, or the call isn't granted yet.
    Waiting(u32),
    /// Its thread may not do this now; it may do what is asked.
    NotAsked(Asked),
    /// `main` stops an object that was stopped before.
    StoppedAlready,
    /// The object replies this.
    Reply(Reply),
}

/// An event that was refused, with the first cause.
#[derive(Clone, Copy, Debug, PartialEq, Eq)]
pub struct Illegal {
    pub entry: Entry,
    pub cause: Cause,
}
