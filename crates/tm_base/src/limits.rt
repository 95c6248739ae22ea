/// The most threads of an exercise, `main` not counted.
pub const MOST_THREADS: usize = 64;

/// The greatest value of a semaphore.
pub const GREATEST_SEMAPHORE_VALUE: u32 = 2_147_483_647;
