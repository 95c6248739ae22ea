/// Where a thread can be held up before a call. A gate is handed in by the caller, and carries no promise.
pub trait Gate {
    /// Called, while no turn is held, before each call that the thread's program asks, with the place that
    /// the call will have in the thread, from 1.
    fn pass(&self, thread: u32, place: u64);
}

/// A gate that holds nobody up.
#[derive(Clone, Copy, Debug, Drop)]
pub struct NoGate;

impl Gate for NoGate {
    fn pass(&self, _thread: u32, _place: u64) {}
}
