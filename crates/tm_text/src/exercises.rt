ghost use Rattle.std.specs.Prelude.{◌≡◌, ◌≤◌, ◌<◌, IfOk, IfSome, length, map, slice_get};
ghost use Rattle.tm_text.specs.Exercises.{ExerciseView, IsWellFormed, own_of, instructions_of};

use crate::objects::owns;
use std::alloc::Global;
use std::marker::Model;
use tm_base::{Kind, Name, NoMemory};
use tm_programs::Instruction;

/// An object as the text declares it. A thread's object has the thread's name.
#[derive(Clone, Copy, Debug, PartialEq, Eq)]
pub struct Declaration {
    pub name: Name,
    pub kind: Kind,
}

/// An exercise: objects with names and kinds, in order of declaration, and a program for each
/// thread. Objects count from 0 and threads from 1; each thread has an object of its own.
#[derive(Debug, Drop)]
pub struct Exercise {
    objects: Vec<Declaration>,
    programs: Vec<Vec<Instruction>>,
    owns: Vec<u32>,
}

impl Model for Exercise {
    ghost use Rattle.tm_text.specs.Exercises.{ExerciseView};

    ghost Value = { ExerciseView };

    ghost use Rattle.tm_text.specs.StoredExercises.{exercise_view, IsKept};

    ghost view = { exercise_view };

    ghost invariant = { IsKept };
}

impl Exercise {
    /// The exercise of these objects, in order of declaration, and of these programs, from thread 1.
    /// `NoMemory` only where memory runs out.
    pub fn new(
        alloc: Global,
        objects: Vec<Declaration>,
        programs: Vec<Vec<Instruction>>,
    ) -> Result<Exercise, NoMemory>
        requires well_formed { IsWellFormed
            (record { objects = objects.items; programs = map (λ p. p.items) programs.items }) }
        ensures { IfOk result (λ exercise.
            exercise ≡ record { objects = objects.items; programs = map (λ p. p.items) programs.items }) }
    {
        let owns = owns(alloc, objects.as_slice())?;
        Ok(Exercise {
            objects,
            programs,
            owns,
        })
    }

    /// How many threads it has, `main` not counted: at most `MOST_THREADS`.
    pub fn threads(&self) -> u32
        ensures value { result ≡ length self.now.programs }
        ensures well_formed { IsWellFormed self.now }
    {
        self.programs.len() as u32
    }

    /// How many objects it has, threads' own objects counted: at most `MOST_OBJECTS`.
    pub fn objects(&self) -> u32
        ensures value { result ≡ length self.now.objects }
        ensures well_formed { IsWellFormed self.now }
    {
        self.objects.len() as u32
    }

    /// The object's name.
    pub fn name(&self, object: u32) -> Name
        requires { object < length self.now.objects }
        ensures { IfSome (slice_get self.now.objects object) (λ declared. result ≡ declared.name) }
    {
        self.objects[object as usize].name
    }

    /// The object's kind.
    pub fn kind(&self, object: u32) -> Kind
        requires { object < length self.now.objects }
        ensures { IfSome (slice_get self.now.objects object) (λ declared. result ≡ declared.kind) }
    {
        self.objects[object as usize].kind
    }

    /// The number of the thread's own object. The thread is 1 to `threads`.
    pub fn own(&self, thread: u32) -> u32
        requires program { 1 ≤ thread }
        requires known { thread ≤ length self.now.programs }
        ensures { result ≡ own_of self.now.objects thread }
    {
        self.owns[thread as usize - 1]
    }

    /// The thread's instructions. The thread is 1 to `threads`.
    pub fn instructions(&self, thread: u32) -> &[Instruction]
        requires program { 1 ≤ thread }
        requires known { thread ≤ length self.now.programs }
        ensures { result.now ≡ instructions_of self.now thread }
    {
        self.programs[thread as usize - 1].as_slice()
    }
}
