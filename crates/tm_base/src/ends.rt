/// How a run ended: every thread by itself, with a thread cut in a stuck state, or with a thread
/// cut by its limit of calls.
#[derive(Clone, Copy, Debug, PartialEq, Eq)]
pub enum End {
    Done,
    Stuck,
    Budget,
}
