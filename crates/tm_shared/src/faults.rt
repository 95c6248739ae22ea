/// Why `try_begin` made no event.
#[derive(Clone, Copy, Debug, PartialEq, Eq)]
pub enum TryFault {
    /// The pass with this number held the turn when this call lost it.
    Busy(u32),
    /// Memory ran out.
    NoMemory,
}

/// Why `try_finish` made no event.
#[derive(Clone, Copy, Debug, PartialEq, Eq)]
pub enum FinishFault {
    /// The call still waits, and was granted no reply.
    NotYet,
    /// The pass with this number held the turn when this call lost it.
    Busy(u32),
}
