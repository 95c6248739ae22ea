ghost use Rattle.std.specs.Prelude.{◌≡◌, suc, OnOk, map};
ghost use Rattle.tm_text.specs.SpelledPrograms.{after_declaration, after_end, after_line, nothing_spelled, with_instruction};

use std::alloc::Global;
use std::marker::Model;
use std::mem::replace;
use tm_base::NoMemory;
use tm_lines::FirstWord;
use tm_programs::Instruction;

/// The programs of the threads that were ended, and that of the next one as far as it was read, with how many
/// of its blocks are open.
#[derive(Drop)]
pub struct Programs {
    ended: Vec<Vec<Instruction>>,
    begun: Vec<Instruction>,
    depth: usize,
}

impl Model for Programs {
    ghost use Rattle.tm_text.specs.SpelledPrograms.{Spelled};

    ghost Value = { Spelled };

    ghost use Rattle.tm_text.specs.StoredPrograms.{IsShallow, spelled_view};

    ghost view = { spelled_view };

    ghost invariant = { IsShallow };
}

impl Programs {
    /// Before the first line.
    pub fn new(alloc: Global) -> Programs
        ensures { result ≡ nothing_spelled }
    {
        Programs {
            ended: Vec::new(alloc),
            begun: Vec::new(alloc),
            depth: 0,
        }
    }

    /// The programs of the threads that were ended.
    pub fn into_ended(self) -> Vec<Vec<Instruction>>
        ensures { map (λ p. p.items) result.items ≡ self.ended }
    {
        self.ended
    }

    /// Adds what a line with this first word says; it says the instruction, if it says one.
    pub fn take(
        &mut self,
        alloc: Global,
        first: FirstWord,
        instruction: Instruction,
    ) -> Result<(), NoMemory>
        ensures { OnOk result (self.new ≡ after_line self.old first instruction) }
    {
        match first {
            FirstWord::Declares(_) => self.begin(),
            FirstWord::End => self.end(alloc),
            FirstWord::Repeat => self.open(instruction),
            FirstWord::While => self.open(instruction),
            FirstWord::If => self.open(instruction),
            FirstWord::Calls(_) => self.push(instruction),
            FirstWord::Set => self.push(instruction),
            FirstWord::Inc => self.push(instruction),
        }
    }

    /// Goes on after a declaration.
    fn begin(&mut self) -> Result<(), NoMemory>
        ensures { OnOk result (self.new ≡ after_declaration self.old) }
    {
        self.depth = 0;
        Ok(())
    }

    /// Adds an instruction that opens no block and ends none.
    fn push(&mut self, instruction: Instruction) -> Result<(), NoMemory>
        ensures { OnOk result (self.new ≡ with_instruction self.old instruction self.old.depth) }
    {
        self.begun.push(instruction)?;
        Ok(())
    }

    /// Adds an instruction that opens a block.
    fn open(&mut self, instruction: Instruction) -> Result<(), NoMemory>
        ensures { OnOk result (self.new ≡ with_instruction self.old instruction (suc self.old.depth)) }
    {
        self.begun.push(instruction)?;
        self.depth += 1;
        Ok(())
    }

    /// Ends the innermost block, or where none is open the program.
    fn end(&mut self, alloc: Global) -> Result<(), NoMemory>
        ensures { OnOk result (self.new ≡ after_end self.old self.old.depth) }
    {
        if self.depth == 0 {
            let program = replace(&mut self.begun, Vec::new(alloc));
            self.ended.push(program)?;
            return Ok(());
        }
        self.begun.push(Instruction::End)?;
        self.depth -= 1;
        Ok(())
    }
}
