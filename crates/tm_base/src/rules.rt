/// The most calls that a limit allows a thread.
pub const MOST_CALLS: u32 = 10_000;

/// How many calls a thread may make where no limit is set.
pub const USUAL_CALLS: u32 = 1_000;

/// What a run keeps to besides its exercise.
#[derive(Clone, Copy, Debug, PartialEq, Eq)]
pub struct Rules {
    /// 0 for the threads in cyclic order, else the number that the draws begin with.
    pub schedule: u64,
    /// How many calls a thread may make, its `begin` and `end` not counted.
    pub limit: u32,
}
