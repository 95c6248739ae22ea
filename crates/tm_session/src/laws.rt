ghost use Rattle.tm_session.specs.AloneEnds.{AloneRunsEnd};
ghost use Rattle.tm_session.specs.Determinism.{AloneRunExists, AloneTextExists, BegunRunsArePrefixes, OneAloneRun, OneAloneText};

/// A well-formed exercise has exactly one whole alone run under a schedule and a limit: it has one, and two
/// runs with the same rules have the same events in the same order, and leave the same state.
pub fn exercises_have_one_alone_run()
    ensures exists { AloneRunExists }
    ensures unique { OneAloneRun }
{}

/// Whatever was begun of the alone run is a prefix of the whole one, and the rest leads on from the state to
/// which it came: no run goes on for ever, and none comes to a state that isn't over and has no next event.
pub fn begun_runs_are_prefixes()
    ensures { BegunRunsArePrefixes }
{}

/// So it has exactly one text: it has one, and two texts of its alone run have the same events, end in the
/// same way, name the same threads, and are the same bytes.
pub fn exercises_have_one_alone_text()
    ensures exists { AloneTextExists }
    ensures unique { OneAloneText }
{}

/// A whole alone run of a well-formed exercise is an ended run for the limit of its rules: every
/// thread has ended, and none made more calls than the limit; a thread ended with `cut` only after the
/// reply `stopped` or by its limit; and before each `stop` there was a stuck state in which the stopped
/// object had a waiter.
pub fn alone_runs_end()
    ensures { AloneRunsEnd }
{}
