ghost use Rattle.std.specs.Prelude.{◌≡◌};
ghost use Rattle.tm_mentor.specs.Answers.{StatusesNameAnswers, end_status, outcome_of, unless_failed};

use crate::answers::Answer;
use crate::refusals::refusal_status;
use tm_base::End;
use tm_session::Finished;

/// What a command answers: its status, and the run where one ended.
#[derive(Drop)]
pub struct Outcome {
    /// 0, 6 or 7: a run ended by itself, stuck or with a thread cut at its limit of calls, and its
    /// text or its summary was written; or 0: the text of an exercise was written, or a trace is legal. 2: the
    /// words spell no command. 3: what was read is the text of no exercise, or of no trace. 4: the source failed.
    /// 5: the sink failed. 8: a trace is not legal. 9: memory ran out.
    pub status: u8,
    /// The run that ended, whether its text was written or the sink failed.
    pub finished: Option<Finished>,
}

impl Outcome {
    /// The answer in a status and a run.
    pub(crate) fn of(answer: Answer) -> Outcome
        ensures { result ≡ outcome_of answer }
    {
        match answer {
            Answer::Refused {
                refusal,
                write_fault,
            } => Outcome {
                status: unless_failed(write_fault, refusal_status(refusal)),
                finished: None,
            },
            Answer::Ran(finished) => Outcome {
                status: unless_failed(finished.write_fault, end_status(finished.end)),
                finished: Some(finished),
            },
            Answer::Wrote { write_fault } => Outcome {
                status: unless_failed(write_fault, 0),
                finished: None,
            },
            Answer::Illegal { write_fault } => Outcome {
                status: unless_failed(write_fault, 8),
                finished: None,
            },
            Answer::NoMemory => Outcome {
                status: 9,
                finished: None,
            },
        }
    }
}

/// The status of a run whose text was written, by how it ended.
fn end_status(end: End) -> u8
    ensures { result ≡ end_status end }
{
    match end {
        End::Done => 0,
        End::Stuck => 6,
        End::Budget => 7,
    }
}

/// The status, or 5 where a write failed.
fn unless_failed(write_fault: bool, status: u8) -> u8
    ensures { result ≡ unless_failed write_fault status }
{
    if write_fault { 5 } else { status }
}

/// A status from 2 to 4, 8 or 9 names its answer: a refusal whose line was written, a trace that isn't legal, whose
/// lines were, or that memory ran out.
pub fn statuses_name_answers()
    ensures { StatusesNameAnswers }
{}
