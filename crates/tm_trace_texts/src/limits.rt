/// The most bytes of a trace's text. Its exercise may have no more than any text of an exercise.
pub const MOST_TRACE_BYTES: usize = 268_435_456;
