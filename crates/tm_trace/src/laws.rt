ghost use Rattle.tm_trace.specs.Accepting.{LegalEventsAreAccepted};

/// Where some order of the events is a joint run, exactly one order of them is accepted.
pub fn legal_events_are_accepted()
    ensures { LegalEventsAreAccepted }
{}
