/// What a watcher answers at an event: whether it is to see the next one.
#[derive(Clone, Copy, Debug, PartialEq, Eq)]
pub enum Verdict {
    Keep,
    Retire,
}
