ghost use Rattle.tm_shared.specs.OwnEvents.{OwnEventsTell};

/// What a thread's own events say of it, in every legal history: whether its call is pending, which stamp it
/// has passed, and what it may call. So a thread that knows no event but its own knows this much of an object.
pub fn own_events_tell()
    ensures { OwnEventsTell }
{}
