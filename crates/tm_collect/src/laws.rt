ghost use Rattle.tm_collect.specs.NextEvents.{NextEventsAreShown, NextRowsAreBegun};

/// Where all that arrived is shown, an event that can happen next in the joint state is taken when it is
/// handed in; and the `pump` after it shows that event and no other, sends its row, and leaves the joint
/// state that the event leaves. Then all that arrived is shown again.
pub fn next_events_are_shown()
    ensures { NextEventsAreShown }
{}

/// Where memory runs out in that `pump`, what it sent are the first bytes of the event's row.
pub fn next_rows_are_begun()
    ensures { NextRowsAreBegun }
{}
