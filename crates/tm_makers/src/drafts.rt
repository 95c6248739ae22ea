ghost use Rattle.std.specs.Prelude.{◌≡◌, ◌+◌, ◌<◌, ◌≤◌, true, length, map, IfOk, OnOk};
ghost use Rattle.tm_text.specs.Exercises.{IsWellFormed};
ghost use Rattle.tm_makers.specs.Drafts.{is_short_name, no_parts, objects_of, threads_of, with_part, with_parts, Object, Thread};

use crate::numbered_names::numbered;
use std::alloc::Global;
use std::marker::Model;
use tm_base::{Kind, Name, NoMemory};
use tm_programs::Instruction;
use tm_text::{Declaration, Exercise};

/// An exercise that is made part by part: each part is declared behind the ones before it.
#[derive(Drop)]
pub struct Draft {
    objects: Vec<Declaration>,
    programs: Vec<Vec<Instruction>>,
}

impl Model for Draft {
    ghost use Rattle.tm_text.specs.Exercises.{ExerciseView};

    ghost Value = { ExerciseView };

    ghost use Rattle.tm_makers.specs.StoredDrafts.{draft_view};

    ghost view = { draft_view };
}

impl Draft {
    /// Before the first part.
    pub fn new(alloc: Global) -> Draft
        ensures { result ≡ no_parts }
    {
        Draft {
            objects: Vec::new(alloc),
            programs: Vec::new(alloc),
        }
    }

    /// Declares an object that is no thread's own.
    pub fn declare(&mut self, name: Name, kind: Kind) -> Result<(), NoMemory>
        ensures { OnOk result (self.new ≡ with_part self.old (Object name kind)) }
    {
        self.objects.push(Declaration { name, kind })?;
        Ok(())
    }

    /// Declares so many objects of the kind, with the word and the numbers from 0 on as names.
    pub fn declare_all(
        &mut self,
        alloc: Global,
        word: &[u8],
        count: u32,
        kind: Kind,
    ) -> Result<(), NoMemory>
        requires word { is_short_name word.now ≡ true }
        requires few { count ≤ 100 }
        ensures added { OnOk result (self.new ≡ with_parts self.old (objects_of word.now count kind)) }
        ensures threads { OnOk result (self.new.programs ≡ self.old.programs) }
    {
        for i in 0..count {
            self.declare(numbered(alloc, word, i)?, kind)?;
        }
        Ok(())
    }

    /// Declares a thread with this program. There may be 64 threads.
    pub fn run(
        &mut self,
        alloc: Global,
        name: Name,
        program: &[Instruction],
    ) -> Result<(), NoMemory>
        requires { length self.old.programs < 64 }
        ensures { OnOk result (self.new ≡ with_part self.old (Thread name program.now)) }
    {
        let own = self.programs.len() as u32 + 1;
        let kind = Kind::Thread { own, held: false };
        self.programs.push(Vec::from_slice(alloc, program)?)?;
        self.declare(name, kind)
    }

    /// Declares so many threads with this program, with the word and the numbers from 1 on as names.
    pub fn run_all(
        &mut self,
        alloc: Global,
        word: &[u8],
        count: u32,
        program: &[Instruction],
    ) -> Result<(), NoMemory>
        requires word { is_short_name word.now ≡ true }
        requires few { length self.old.programs + count ≤ 64 }
        ensures added { OnOk result (self.new ≡ with_parts self.old (threads_of word.now count program.now)) }
        ensures threads { OnOk result (length self.new.programs ≡ length self.old.programs + count) }
    {
        for i in 0..count {
            self.run(alloc, numbered(alloc, word, i + 1)?, program)?;
        }
        Ok(())
    }

    /// The exercise of the parts. `NoMemory` only where memory runs out.
    pub fn finish(self, alloc: Global) -> Result<Exercise, NoMemory>
        requires { IsWellFormed self }
        ensures { IfOk result (λ exercise. exercise ≡ self) }
    {
        Exercise::new(alloc, self.objects, self.programs)
    }
}
