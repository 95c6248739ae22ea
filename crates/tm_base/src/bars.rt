/// What a thread's history bar shows.
#[derive(Clone, Copy, Debug, PartialEq, Eq)]
pub enum Bar {
    Unborn,
    Runs,
    Blocked,
    Granted,
    Ended,
}
