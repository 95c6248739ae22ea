/// The most bytes of a text.
pub const MOST_BYTES: usize = 1_048_576;

/// The least and the greatest number.
pub const LEAST_NUMBER: i64 = i64::MIN;

pub const GREATEST_NUMBER: i64 = i64::MAX;

/// The greatest value that a semaphore starts with.
pub const MOST_START: i64 = 1_000_000;

/// The most conditions of a monitor.
pub const MOST_CONDITIONS: i64 = 16;

/// The most parties of a barrier.
pub const MOST_PARTIES: i64 = 64;

/// The greatest capacity of an asynchronous channel.
pub const MOST_CAPACITY: i64 = 65_535;

/// The most turns of a `repeat`.
pub const MOST_TURNS: i64 = 1_000_000;

/// The most objects of an exercise, threads' own objects counted.
pub const MOST_OBJECTS: usize = 256;

/// The most instructions of a thread, `end` lines not counted.
pub const MOST_INSTRUCTIONS: usize = 4_096;
