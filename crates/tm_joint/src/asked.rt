use tm_base::Op;

/// What a thread may do next.
#[derive(Clone, Copy, Debug, PartialEq, Eq)]
pub enum Asked {
    /// The call that its program asks, which it may cut short by an `end`; a thread that hasn't begun is
    /// asked `begin` on its own object.
    Call { object: u32, op: Op },
    /// Its program is over: `end` on its own object.
    Over,
    /// Its last reply was `Stopped`: `end`, cut, on its own object.
    Cut,
    /// It is `main`, which stops objects.
    Stop,
}
