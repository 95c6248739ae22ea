ghost use Rattle.std.specs.Prelude.{◌≡◌, ◌≢◌, map, ◌↔◌, ℕ, ◌<◌, ◌≤◌, [], ◌∷◌, List, Contains, IfSome, IsSomeAnd, IfNone, MatchOption, false, ◌⊎◌};
ghost use Rattle.tm_base.specs.declared.ends.End.{End};
ghost use Rattle.tm_base.specs.declared.events.Entry.{Entry};
ghost use Rattle.tm_base.specs.declared.rules.Rules.{Rules};
ghost use Rattle.tm_base.specs.Counters.{next_count};
ghost use Rattle.tm_outside.specs.Faults.{Rose};
ghost use Rattle.tm_lines.specs.declared.limits.TheConstants.{MOST_BYTES};
ghost use Rattle.tm_makers.specs.declared.plans.Plan.{Plan};
ghost use Rattle.tm_text.specs.Exercises.{ExerciseView};
ghost use Rattle.tm_text.specs.Texts.{IsExercise};
ghost use Rattle.tm_order.specs.LegalEvents.{AreLegal};
ghost use Rattle.tm_trace_texts.specs.declared.limits.TheConstants.{MOST_TRACE_BYTES};
ghost use Rattle.tm_trace_texts.specs.TraceTexts.{IsTraceText};
ghost use Rattle.tm_watch.specs.Watchers.{told_all};
ghost use Rattle.tm_words.specs.declared.commands.Command.TheVariants.{Check, Large, Make, Run};
ghost use Rattle.tm_words.specs.Commands.{Spells, SpellsNothing};
ghost use Rattle.tm_mentor.specs.declared.answers.Answer.{Answer};
ghost use Rattle.tm_mentor.specs.Answers.{IsWritten, end_status, outcome_of, run_status, statuses};
ghost use Rattle.tm_mentor.specs.CheckCommand.{IsNoTrace};
ghost use Rattle.tm_mentor.specs.Commands.{Answers};
ghost use Rattle.tm_mentor.specs.Outside.{input_of, output_of};
ghost use Rattle.tm_mentor.specs.RunCommand.{IsNoExercise};
ghost use Rattle.tm_mentor.specs.Sources.{ReadsAtMost};

use crate::answers::carry_out;
use crate::outcomes::Outcome;
use std::alloc::Global;
use tm_outside::{Sink, Source};
use tm_watch::Watcher;

/// Does what the words say, which are those after the program's name.
///
/// - `run` reads an exercise of at most 2^20 bytes to its end, and writes the rows of its alone run and the last
///   line. Two options may follow it, each at most once: `--schedule` with a number below 2^64, else 0, and
///   `--events` with the number of calls that a thread may make, from 1 to 10,000, else 1,000.
/// - `check` reads a trace of at most 2^28 bytes to its end: an exercise, a line `trace`, and its events in any order.
///   Where some order of them is a legal run it writes the rows of the order by stamp and `legal` with their number, else
///   three lines that say which event can't be, and what was expected.
/// - `make` with a kind, its sizes and its way or guard writes the text of a ready-made exercise.
/// - `large` with a number below 2^64 runs the large exercise that is drawn from it, with the number as the schedule,
///   and writes a summary of the run.
///
/// The watchers are told of each event of a run. Where nothing is done it writes a line that says why, unless memory
/// runs out: `mentor: usage`, `mentor: read fault`, or for a text of no exercise or no trace its first faulty line and
/// what is wrong with it, as `mentor: line 4: unknown`.
pub fn mentor_alone<S: Source, K: Sink>(
    alloc: Global,
    words: &[String],
    source: &mut S,
    sink: &mut K,
    watchers: &mut Vec<Box<dyn Watcher>>,
) -> Outcome
    // All that happened, by the command that the words spell. A status from 2 to 4, 8 or 9 names the answer, as
    // `statuses_name_answers` says.
    ensures answered { (answer : Answer) × Answers words.now (record {
      source_before = input_of S.left S.fault_count source.old;
      source_after = input_of S.left S.fault_count source.new;
      sink_before = output_of K.written K.fault_count sink.old;
      sink_after = output_of K.written K.fault_count sink.new;
    }) answer
        × (result ≡ outcome_of answer) }

    // Each watcher that is left was told of all events of the run and retired at none, and the others are gone;
    // where nothing was run, all are as before, unless memory ran out.
    ensures watched { IfSome result.finished (λ f. map (λ b. watch b) watchers.new.items ≡ told_all (map (λ b. watch b) watchers.old.items) f.shown) }
    ensures untold { IfNone result.finished (result.status ≢ 9 → map (λ b. watch b) watchers.new.items ≡ map (λ b. watch b) watchers.old.items) }

    // The statuses, of runs and of the rest.
    ensures statuses { Contains statuses result.status }
    ensures ended { MatchOption result.finished (Contains (0 ∷ 2 ∷ 3 ∷ 4 ∷ 5 ∷ 8 ∷ 9 ∷ []) result.status)
        (λ f. result.status ≡ run_status f) }
    ensures written { IfSome result.finished (λ f. (end : End) → (result.status ≡ end_status end) ↔ IsWritten end f) }
    ensures made { IfNone result.finished (result.status ≡ 0
        → ((plan : Plan) × Spells words.now (Make plan)) ⊎ Spells words.now Check) }

    // Words that spell no command, and words that spell neither `run` nor `check`: of these nothing is read.
    ensures usage { result.status ≡ 2 → SpellsNothing words.now }
    ensures unspelled { SpellsNothing words.now → Contains (2 ∷ 5 ∷ 9 ∷ []) result.status }
    ensures unread { ((rules : Rules) → ¬ Spells words.now (Run rules)) → ¬ Spells words.now Check → source.new ≡ source.old }

    // In every answer no more is read than tells that a text is too long.
    ensures taken { ReadsAtMost MOST_TRACE_BYTES (S.left source.old) (S.left source.new) }
    ensures taken_by_run { ¬ Spells words.now Check → ReadsAtMost MOST_BYTES (S.left source.old) (S.left source.new) }

    // All that the source had left, where it tells that, is the text of no exercise, or of no trace.
    ensures text { result.status ≡ 3
        → (((rules : Rules) × Spells words.now (Run rules)) × IfSome (S.left source.old) IsNoExercise)
        ⊎ (Spells words.now Check × IfSome (S.left source.old) IsNoTrace) }
    ensures no_trace { Spells words.now Check → IsSomeAnd (S.left source.old) IsNoTrace
        → Contains (3 ∷ 4 ∷ 5 ∷ 9 ∷ []) result.status }
    ensures no_exercise { (rules : Rules) → Spells words.now (Run rules)
        → IsSomeAnd (S.left source.old) IsNoExercise
        → Contains (3 ∷ 4 ∷ 5 ∷ 9 ∷ []) result.status }

    // Faults show, and only faults do: 4 comes with one of the source, and 5 with one of the sink.
    ensures read_fault { result.status ≡ 4 → S.fault_count source.new ≡ next_count (S.fault_count source.old) }
    ensures write_fault { result.status ≡ 5 → K.fault_count sink.new ≡ next_count (K.fault_count sink.old) }
    ensures read_faults_show { S.fault_count source.old < S.fault_count source.new
        → Contains (4 ∷ 5 ∷ []) result.status }
    ensures write_faults_show { K.fault_count sink.old < K.fault_count sink.new
        → Contains (5 ∷ 9 ∷ []) result.status }

    // Without a fault an exercise runs, a ready-made one is written, a large one runs, and a trace is judged: 0 comes
    // where some order of its events is a legal run, and 8 where none is.
    ensures complete { (x : ExerciseView) (rules : Rules) → Spells words.now (Run rules)
        → IsSomeAnd (S.left source.old) (λ bytes. IsExercise bytes x)
        → ¬ Rose (S.fault_count source.old) (S.fault_count source.new)
        → ¬ Rose (K.fault_count sink.old) (K.fault_count sink.new)
        → Contains (0 ∷ 6 ∷ 7 ∷ 9 ∷ []) result.status }
    ensures complete_make { (plan : Plan) → Spells words.now (Make plan)
        → ¬ Rose (K.fault_count sink.old) (K.fault_count sink.new)
        → Contains (0 ∷ 9 ∷ []) result.status }
    ensures complete_large { (number : ℕ) → Spells words.now (Large number)
        → ¬ Rose (K.fault_count sink.old) (K.fault_count sink.new)
        → Contains (0 ∷ 6 ∷ 7 ∷ 9 ∷ []) result.status }

    ensures complete_check { (x : ExerciseView) (es : List Entry) → Spells words.now Check
        → IsSomeAnd (S.left source.old) (λ bytes. IsTraceText bytes x es) → AreLegal x es
        → ¬ Rose (S.fault_count source.old) (S.fault_count source.new)
        → ¬ Rose (K.fault_count sink.old) (K.fault_count sink.new)
        → Contains (0 ∷ 9 ∷ []) result.status }
    ensures complete_illegal { (x : ExerciseView) (es : List Entry) → Spells words.now Check
        → IsSomeAnd (S.left source.old) (λ bytes. IsTraceText bytes x es) → ¬ AreLegal x es
        → ¬ Rose (S.fault_count source.old) (S.fault_count source.new)
        → ¬ Rose (K.fault_count sink.old) (K.fault_count sink.new)
        → Contains (8 ∷ 9 ∷ []) result.status }

    ensures source_never_falls { S.fault_count source.old ≤ S.fault_count source.new }
    ensures sink_never_falls { K.fault_count sink.old ≤ K.fault_count sink.new }
{
    let answer = carry_out(alloc, words, source, sink, watchers);
    Outcome::of(answer)
}
