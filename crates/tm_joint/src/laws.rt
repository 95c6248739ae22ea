ghost use Rattle.tm_joint.specs.Refusals.{CausesAreUnique, RefusedEventsAreNoSteps};

/// Where an event is refused no joint step has it, whatever state it would leave.
pub fn refused_events_are_no_steps()
    ensures { RefusedEventsAreNoSteps }
{}

/// An event has one first cause at most: two refusals of it in the same state are equal.
pub fn causes_are_unique()
    ensures { CausesAreUnique }
{}
