use tm_base::Entry;

/// What a worker's turn answers.
#[derive(Clone, Copy, Debug, PartialEq, Eq)]
pub enum Turned {
    /// It made this event, and sent it.
    Made(Entry),
    /// Its call waits, and was granted no reply.
    NotYet,
    /// The pass with this number held the turn when this turn lost it.
    Busy(u32),
    /// It made its `end` before, or is worn.
    Over,
}
