ghost use Rattle.std.specs.Prelude.{◌≡◌, IfOk, OnOk, MatchOption, [], ◌∷◌, false};
ghost use Rattle.tm_replay.specs.Bars.{bars_of, is_over, is_stuck, waited_objects};
ghost use Rattle.tm_collect.specs.Collectors.{shown_of};
ghost use Rattle.tm_session.specs.AloneRuns.{run_state_of, GoesOnBy, HaltsAt, IsRunning, Makes, MovesOn, Stops};
ghost use Rattle.tm_session.specs.Records.{CanPerform, HaveRecorded};
ghost use Rattle.tm_session.specs.Turns.{due_stops};

use crate::alone_runs::AloneRun;
use crate::book_calls::enter;
use crate::choices::{choose, draw_after};
use crate::next_calls::NextCall;
use tm_base::{Entry, NoMemory, Op, Rules};
use tm_text::Exercise;

impl<'x> AloneRun<'x> {
    /// Makes the run's next event in its object's book.
    pub fn go(&mut self, exercise: &Exercise, rules: Rules) -> Result<Entry, NoMemory>
        requires running { IsRunning exercise.now self.old }
        requires going { is_over (bars_of self.old.collector.joint.state) ≡ false }
        ensures goes { IfOk result (λ e. GoesOnBy exercise.now rules self.old e self.new) }
        ensures collector { self.new.collector ≡ self.old.collector }
    {
        match self.due(exercise)? {
            Some(object) => self.halt(exercise, object),
            None => self.move_on(exercise, rules),
        }
    }

    /// Takes the object that `main` stops next. In a stuck state all that have a waiter are due.
    fn due(&mut self, exercise: &Exercise) -> Result<Option<u32>, NoMemory>
        requires running { IsRunning exercise.now self.old }
        ensures due { IfOk result (λ next. MatchOption next
            ((due_stops (run_state_of self.old) ≡ []) × (self.new.stops.items ≡ []))
            (λ object. due_stops (run_state_of self.old) ≡ object ∷ self.new.stops.items)) }
        ensures books { self.new.books ≡ self.old.books }
        ensures tickets { self.new.tickets ≡ self.old.tickets }
        ensures collector { self.new.collector ≡ self.old.collector }
        ensures last { self.new.last ≡ self.old.last }
        ensures draw { self.new.draw ≡ self.old.draw }
    {
        if self.stops.is_empty() && self.collector.joint().stuck() {
            self.list_waited(exercise)?;
        }
        Ok(self.stops.pop_front())
    }

    /// Lists the objects that have a waiter, in rising number, where none was listed.
    fn list_waited(&mut self, exercise: &Exercise) -> Result<(), NoMemory>
        requires running { IsRunning exercise.now self.old }
        requires none { self.old.stops.items ≡ [] }
        ensures waited { OnOk result (self.new.stops.items ≡ waited_objects self.old.collector.joint.state) }
        ensures books { self.new.books ≡ self.old.books }
        ensures tickets { self.new.tickets ≡ self.old.tickets }
        ensures collector { self.new.collector ≡ self.old.collector }
        ensures last { self.new.last ≡ self.old.last }
        ensures draw { self.new.draw ≡ self.old.draw }
    {
        for object in 0..exercise.objects() {
            if self.collector.joint().waiters(object) > 0 {
                self.stops.push_back(object)?;
            }
        }
        Ok(())
    }

    /// `main` stops the object.
    fn halt(&mut self, exercise: &Exercise, object: u32) -> Result<Entry, NoMemory>
        requires { HaltsAt exercise.now self.old object }
        ensures stops { IfOk result (λ e. Stops exercise.now self.old object e self.new) }
        ensures collector { self.new.collector ≡ self.old.collector }
    {
        // What holds of every exercise is known once it is read.
        let _exercise = exercise;
        self.perform(
            0,
            NextCall {
                object,
                op: Op::Stop,
            },
        )
    }

    /// The thread that the schedule chooses goes on.
    fn move_on(&mut self, exercise: &Exercise, rules: Rules) -> Result<Entry, NoMemory>
        requires running { IsRunning exercise.now self.old }
        requires going { is_over (bars_of self.old.collector.joint.state) ≡ false }
        requires free { is_stuck (bars_of self.old.collector.joint.state) ≡ false }
        ensures moves { IfOk result (λ e. MovesOn exercise.now rules self.old e self.new) }
        ensures collector { self.new.collector ≡ self.old.collector }
    {
        let joint = self.collector.joint();
        let draw = draw_after(rules.schedule, self.draw);
        let Some(thread) = choose(joint, rules.schedule, self.last, draw) else {
            unreachable!()
        };
        let next_call = NextCall::of(joint.seat(thread), exercise.own(thread), rules.limit);
        self.last = thread;
        self.draw = draw;
        self.perform(thread, next_call)
    }

    /// Makes the thread's next event in its object's book. Only running out of memory refuses it.
    fn perform(&mut self, thread: u32, next_call: NextCall) -> Result<Entry, NoMemory>
        requires can { CanPerform self.old.collector.joint.state thread next_call }
        requires recorded { HaveRecorded (shown_of self.old.collector) self.old.collector.joint.state self.old.books.items self.old.tickets.items }
        ensures makes { IfOk result (λ e. Makes self.old thread next_call e self.new) }
        ensures collector { self.new.collector ≡ self.old.collector }
        ensures last { self.new.last ≡ self.old.last }
        ensures draw { self.new.draw ≡ self.old.draw }
        ensures stops { self.new.stops ≡ self.old.stops }
    {
        let book = &mut self.books[next_call.object as usize];
        enter(book, &mut self.tickets[thread as usize], next_call.op)
    }
}
