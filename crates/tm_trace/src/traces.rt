ghost use Rattle.std.specs.Prelude.{◌≡◌};
ghost use Rattle.tm_trace.specs.Traces.{AreTraceable};

use std::marker::Model;
use tm_base::Entry;
use tm_text::Exercise;

/// A trace: an exercise, and events over it in the order of their lines, which need not be the order in
/// which they happened. Contracts see both.
#[derive(Debug, Drop)]
pub struct Trace {
    exercise: Exercise,
    entries: Vec<Entry>,
}

impl Model for Trace {
    ghost use Rattle.tm_trace.specs.Traces.{TraceView};

    ghost Value = { TraceView };

    ghost use Rattle.tm_trace.specs.StoredTraces.{trace_view, KeepsTrace};

    ghost view = { trace_view };

    ghost invariant = { KeepsTrace };
}

impl Trace {
    /// The trace of these events over the exercise, in the order of their lines. Each is one that a line of a
    /// trace can say. It takes no memory.
    pub fn make(exercise: Exercise, entries: Vec<Entry>) -> Trace
        requires { AreTraceable exercise entries.items }
        ensures { result ≡ record { exercise = exercise; entries = entries.items } }
    {
        Trace { exercise, entries }
    }

    /// The exercise.
    pub fn exercise(&self) -> &Exercise
        ensures { result.now ≡ self.now.exercise }
    {
        &self.exercise
    }

    /// The events, in the order of their lines.
    pub fn entries(&self) -> &[Entry]
        ensures value { result.now ≡ self.now.entries }
        ensures traceable { AreTraceable self.now.exercise self.now.entries }
    {
        self.entries.as_slice()
    }
}
