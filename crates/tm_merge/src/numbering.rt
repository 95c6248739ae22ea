ghost use Rattle.tm_merge.specs.Numbering.{NumberedEventsAreClosed, NumberedEventsAreInOrder};

/// Where the events of each thread, and those at each object, stand in a list in the order of their places
/// from 1 on, none stands twice, and each stands after its direct predecessors.
pub fn numbered_events_are_in_order()
    ensures { NumberedEventsAreInOrder }
{}

/// The first events of such a list, however many, are closed under Lamport's happened-before, and so a
/// consistent cut, in all events that there are or may still come, as long as no two have one place.
pub fn numbered_events_are_closed()
    ensures { NumberedEventsAreClosed }
{}
