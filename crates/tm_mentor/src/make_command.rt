ghost use Rattle.std.specs.Prelude.{◌≡◌, ◌≤◌, true};
ghost use Rattle.tm_makers.specs.Plans.{is_in_range};
ghost use Rattle.tm_mentor.specs.MakeCommand.{MakeAnswers, text_of_plan};
ghost use Rattle.tm_mentor.specs.Outside.{output_of};
ghost use Rattle.std.specs.Prelude.{IfOk};

use crate::answers::Answer;
use crate::refusals::fails;
use std::alloc::Global;
use tm_base::{Bytes, NoMemory};
use tm_makers::{Plan, make_exercise};
use tm_outside::Sink;
use tm_text::print;

/// Writes the canonical text of the plan's exercise, in one piece.
pub(crate) fn make<K: Sink>(alloc: Global, plan: Plan, sink: &mut K) -> Answer
    requires in_range { is_in_range plan ≡ true }
    ensures answers { MakeAnswers plan (output_of K.written K.fault_count sink.old) (output_of K.written K.fault_count sink.new) result }
    ensures never_falls { K.fault_count sink.old ≤ K.fault_count sink.new }
{
    match text_of_plan(alloc, plan) {
        Ok(text) => Answer::Wrote {
            write_fault: fails(sink, text.as_slice()),
        },
        Err(NoMemory) => Answer::NoMemory,
    }
}

/// The canonical text of the plan's exercise.
fn text_of_plan(alloc: Global, plan: Plan) -> Result<Bytes, NoMemory>
    requires in_range { is_in_range plan ≡ true }
    ensures { IfOk result (λ text. text ≡ text_of_plan plan) }
{
    let exercise = make_exercise(alloc, plan)?;
    print(alloc, &exercise)
}
