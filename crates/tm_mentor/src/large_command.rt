ghost use Rattle.std.specs.Prelude.{◌≡◌, ◌≤◌, IfOk, OnErr, OnOk, map};
ghost use Rattle.tm_watch.specs.Watchers.{told_all};
ghost use Rattle.tm_mentor.specs.Answers.{HaveWatched, Sends};
ghost use Rattle.tm_mentor.specs.LargeCommand.{LargeAnswers, RunsLarge};
ghost use Rattle.tm_mentor.specs.Outside.{output_of};

use crate::answers::Answer;
use crate::refusals::send_lines;
use std::alloc::Global;
use tm_base::{NoMemory, USUAL_CALLS};
use tm_makers::large;
use tm_outside::{MemorySink, Sink};
use tm_session::{Finished, alone};
use tm_timeline::summary;
use tm_watch::Watcher;

/// Runs the large exercise of the number, with the number as the schedule and the usual limit of calls, and writes
/// the summary of its run, line by line. The watchers are told of each event.
pub(crate) fn large_run<K: Sink>(
    alloc: Global,
    number: u64,
    sink: &mut K,
    watchers: &mut Vec<Box<dyn Watcher>>,
) -> Answer
    ensures answers { LargeAnswers number (output_of K.written K.fault_count sink.old) (output_of K.written K.fault_count sink.new) result }
    ensures watched { HaveWatched (map (λ b. watch b) watchers.old.items) result (map (λ b. watch b) watchers.new.items) }
    ensures never_falls { K.fault_count sink.old ≤ K.fault_count sink.new }
{
    match summarized(alloc, number, sink, watchers) {
        Ok(finished) => Answer::Ran(finished),
        Err(NoMemory) => Answer::NoMemory,
    }
}

/// The run of the large exercise of the number, whose summary was sent.
fn summarized<K: Sink>(
    alloc: Global,
    number: u64,
    sink: &mut K,
    watchers: &mut Vec<Box<dyn Watcher>>,
) -> Result<Finished, NoMemory>
    ensures ran { IfOk result (λ f. RunsLarge number (output_of K.written K.fault_count sink.old) (output_of K.written K.fault_count sink.new) f) }
    ensures watched { IfOk result (λ f. map (λ b. watch b) watchers.new.items ≡ told_all (map (λ b. watch b) watchers.old.items) f.shown) }
    ensures unwritten { OnErr result (sink.new ≡ sink.old) }
    ensures never_falls { K.fault_count sink.old ≤ K.fault_count sink.new }
{
    let exercise = large(alloc, number)?;
    // A sink without room fails at the first row, after which none is written.
    let mut no_rows = MemorySink::make(alloc, 0, &[])?;
    let finished = alone(
        alloc,
        &exercise,
        number,
        USUAL_CALLS,
        &mut no_rows,
        watchers,
    )?;
    let text = summary(
        alloc,
        &exercise,
        finished.shown.as_slice(),
        finished.end,
        finished.cut.as_slice(),
    )?;
    let write_fault = send_lines(sink, text.as_slice());
    Ok(Finished {
        write_fault,
        ..finished
    })
}
