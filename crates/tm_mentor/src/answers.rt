ghost use Rattle.std.specs.Prelude.{◌≡◌, ◌≤◌, map};
ghost use Rattle.tm_base.specs.declared.rules.Rules.{Rules};
ghost use Rattle.tm_lines.specs.declared.limits.TheConstants.{MOST_BYTES};
ghost use Rattle.tm_trace_texts.specs.declared.limits.TheConstants.{MOST_TRACE_BYTES};
ghost use Rattle.tm_words.specs.declared.commands.Command.TheVariants.{Check, Run};
ghost use Rattle.tm_words.specs.Commands.{Spells};
ghost use Rattle.tm_mentor.specs.Answers.{HaveWatched};
ghost use Rattle.tm_mentor.specs.Commands.{Answers};
ghost use Rattle.tm_mentor.specs.Outside.{input_of, output_of};
ghost use Rattle.tm_mentor.specs.Sources.{ReadsAtMost};

use crate::check_command::check;
use crate::large_command::large_run;
use crate::make_command::make;
use crate::refusals::{Refusal, refuse};
use crate::run_command::run;
use std::alloc::Global;
use tm_base::NoMemory;
use tm_outside::{Sink, Source};
use tm_session::Finished;
use tm_watch::Watcher;
use tm_words::{Command, spell};

/// How a command ended.
#[derive(Drop)]
pub enum Answer {
    /// Nothing was run, and the line that says why was sent to the sink, which may have failed.
    Refused { refusal: Refusal, write_fault: bool },
    /// A run ended, and its text or its summary was sent.
    Ran(Finished),
    /// Nothing was to be run, and what the command writes was sent: a ready-made exercise, or the rows of a trace that is
    /// legal.
    Wrote { write_fault: bool },
    /// A trace was judged, no order of its events is a legal run, and the lines that say why were sent.
    Illegal { write_fault: bool },
    /// Memory ran out.
    NoMemory,
}

/// Does what the words say.
pub(crate) fn carry_out<S: Source, K: Sink>(
    alloc: Global,
    words: &[String],
    source: &mut S,
    sink: &mut K,
    watchers: &mut Vec<Box<dyn Watcher>>,
) -> Answer
    ensures answers { Answers words.now (record {
      source_before = input_of S.left S.fault_count source.old;
      source_after = input_of S.left S.fault_count source.new;
      sink_before = output_of K.written K.fault_count sink.old;
      sink_after = output_of K.written K.fault_count sink.new;
    }) result }
    ensures watched { HaveWatched (map (λ b. watch b) watchers.old.items) result (map (λ b. watch b) watchers.new.items) }
    ensures taken { ReadsAtMost MOST_TRACE_BYTES (S.left source.old) (S.left source.new) }
    ensures taken_by_run { ¬ Spells words.now Check → ReadsAtMost MOST_BYTES (S.left source.old) (S.left source.new) }
    ensures unread { ((rules : Rules) → ¬ Spells words.now (Run rules)) → ¬ Spells words.now Check → source.new ≡ source.old }
    ensures source_never_falls { S.fault_count source.old ≤ S.fault_count source.new }
    ensures sink_never_falls { K.fault_count sink.old ≤ K.fault_count sink.new }
{
    match spell(alloc, words) {
        Ok(Some(Command::Run(rules))) => run(alloc, rules, source, sink, watchers),
        Ok(Some(Command::Check)) => check(alloc, source, sink),
        Ok(Some(Command::Make(plan))) => make(alloc, plan, sink),
        Ok(Some(Command::Large(number))) => large_run(alloc, number, sink, watchers),
        Ok(None) => refuse(alloc, Refusal::Usage, sink),
        Err(NoMemory) => Answer::NoMemory,
    }
}
