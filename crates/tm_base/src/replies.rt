/// What an object answers. `Gave` names the thread that was granted.
#[derive(Clone, Copy, Debug, PartialEq, Eq)]
pub enum Reply {
    Ok,
    Wait,
    Gave(u32),
    Got(i64),
    Held,
    NotOwner,
    Busy,
    Zero,
    Full,
    Last,
    Stopped,
    Closed,
    Already,
    Myself,
    Cut,
}
