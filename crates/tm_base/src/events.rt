use crate::operations::Op;
use crate::replies::Reply;

/// An event: one entry in the history of one object. Thread 0 is `main`, objects count from 0,
/// `place` in the thread and `at` in the object count from 1.
#[derive(Clone, Copy, Debug, PartialEq, Eq)]
pub struct Entry {
    pub thread: u32,
    pub place: u64,
    pub object: u32,
    pub at: u64,
    /// The Lamport stamp, from 1.
    pub stamp: u64,
    pub op: Op,
    pub reply: Reply,
}
