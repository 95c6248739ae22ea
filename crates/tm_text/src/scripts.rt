ghost use Rattle.std.specs.Prelude.{◌≡◌, ◌≤◌, IfOk, length};
ghost use Rattle.tm_programs.specs.Programs.{Over, answered, asked_of, whole};
ghost use Rattle.tm_text.specs.Exercises.{kinds_of, program_of_thread};
ghost use Rattle.tm_text.specs.Scripts.{IsScriptFor};

use crate::exercises::Exercise;
use std::alloc::Global;
use std::marker::Model;
use tm_base::{Ask, Body, NoMemory, Reply};
use tm_programs::Interpreter;

/// A thread's program as it goes on. Contracts see what is left of it, with the last final reply.
#[derive(Drop)]
pub struct Script {
    interpreter: Interpreter,
}

impl Model for Script {
    ghost use Rattle.tm_programs.specs.Programs.{Rest};

    ghost Value = { Rest };

    ghost use Rattle.tm_programs.specs.Codes.{rest_code};

    ghost coded = { rest_code };

    ghost view = { λ s. s.interpreter };
}

impl Script {
    /// The whole program of the thread, which is 1 to `threads`. Its calls are those of the exercise's objects.
    pub fn make(alloc: Global, exercise: &Exercise, thread: u32) -> Result<Script, NoMemory>
        requires program { 1 ≤ thread }
        requires known { thread ≤ length exercise.now.programs }
        ensures whole { IfOk result (λ s. s ≡ whole (program_of_thread exercise.now thread)) }
        ensures suits { IfOk result (λ s. IsScriptFor (kinds_of exercise.now.objects) s) }
    {
        // What holds of every exercise is known from this call.
        let _threads = exercise.threads();
        Ok(Script {
            interpreter: Interpreter::make(alloc, exercise.instructions(thread))?,
        })
    }

    /// A script that asks nothing. It takes no memory.
    pub fn empty(alloc: Global) -> Script
        ensures { result ≡ whole Over }
    {
        Script {
            interpreter: Interpreter::empty(alloc),
        }
    }

    /// What the program asks next: a call, or nothing more. `None` exactly after the reply
    /// `Stopped`, after which nothing is asked.
    pub fn asked(&self) -> Option<Ask>
        ensures { result ≡ asked_of self.now }
    {
        self.interpreter.asked()
    }

    /// The last final reply: that of `begin`, or of the last call that has one.
    pub fn last(&self) -> Option<Reply>
        ensures { result ≡ self.now.last }
    {
        self.interpreter.last()
    }

    /// Goes on by the final reply of `begin`, or of the call that was asked.
    pub fn answer(&mut self, reply: Reply)
        ensures { self.new ≡ answered self.old reply }
    {
        self.interpreter.answer(reply);
    }
}

impl Body for Script {
    ghost use Rattle.std.specs.Prelude.{is_some};
    ghost use Rattle.tm_programs.specs.Programs.{answered as rest_after};
    ghost use Rattle.tm_text.specs.Scripts.{IsScriptFor as IsFor, asked_after, is_over_by};

    ghost asked = { asked_after };

    ghost rest = { rest_after };

    ghost is_for = { IsFor };

    ghost begun = { λ s. is_some s.last };

    ghost over = { is_over_by };

    fn next(&mut self, last: Reply) -> Ask {
        self.answer(last);
        match self.asked() {
            Some(ask) => ask,
            None => Ask::Over,
        }
    }
}
