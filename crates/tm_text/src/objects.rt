ghost use Rattle.std.specs.Prelude.{◌≡◌, ◌≤◌, ◌++◌, ◌∷◌, List, length, IfOk, MatchOption, OnOk, Some};
ghost use Rattle.tm_base.specs.Names.{IsName};
ghost use Rattle.tm_lines.specs.NamedLines.{declarator_of};
ghost use Rattle.tm_text.specs.Objects.{IsDeclarable, TakesLine, no_objects, object_by, owns_of, with_object};
ghost use Rattle.tm_text.specs.Texts.{next_thread};

use crate::exercises::Declaration;
use std::alloc::Global;
use std::marker::Model;
use tm_base::{Kind, Name, NoMemory};
use tm_lines::{Declarator, FirstWord, MOST_OBJECTS, Words, declared_kind};

/// The objects that the lines of a text declare, and the number of the next thread.
#[derive(Drop)]
pub struct Objects {
    declarations: Vec<Declaration>,
    thread: u32,
}

impl Model for Objects {
    ghost use Rattle.tm_text.specs.Objects.{DeclaredObjects};

    ghost Value = { DeclaredObjects };

    ghost use Rattle.tm_text.specs.StoredObjects.{IsWithin, declared_view};

    ghost view = { declared_view };

    ghost invariant = { IsWithin };
}

impl Objects {
    /// Before the first line.
    pub fn new(alloc: Global) -> Objects
        ensures { result ≡ no_objects }
    {
        Objects {
            declarations: Vec::new(alloc),
            thread: 1,
        }
    }

    /// The objects, in order of declaration.
    pub fn into_declarations(self) -> Vec<Declaration>
        ensures objects { result.items ≡ self.objects }
        ensures few { length result.items ≤ MOST_OBJECTS }
    {
        self.declarations
    }

    /// Adds the object that a line with this first word and these words declares, if it declares one.
    pub fn take(&mut self, first: FirstWord, words: &Words) -> Result<(), NoMemory>
        ensures { OnOk result (TakesLine self.old first words.now self.new) }
    {
        match declarator(first) {
            None => Ok(()),
            Some(declarator) => self.add(declarator, *words),
        }
    }

    /// Adds the object that a line of these words declares, if it has a name and there may be one more.
    #[inline(never)]
    fn add(&mut self, declarator: Declarator, words: Words) -> Result<(), NoMemory>
        ensures { OnOk result ((later : List Declaration)
            → IsDeclarable (self.old.objects ++ object_by self.old.thread declarator words.entry ∷ later)
            → self.new ≡ with_object self.old (object_by self.old.thread declarator words.entry)
            (next_thread self.old.thread declarator)) }
    {
        let Some(declared) = declaration(self.thread, declarator, &words) else {
            return Ok(());
        };
        if MOST_OBJECTS <= self.declarations.len() {
            return Ok(());
        }
        self.declarations.push(declared)?;
        self.thread = next_thread(self.thread, declarator);
        Ok(())
    }
}

/// What a line with this first word declares, where it declares an object.
fn declarator(first: FirstWord) -> Option<Declarator>
    ensures { result ≡ declarator_of (Some first) }
{
    match first {
        FirstWord::Declares(declarator) => Some(declarator),
        _ => None,
    }
}

/// The object that a line of these words declares, if it has a name. A thread has this number.
fn declaration(thread: u32, declarator: Declarator, words: &Words) -> Option<Declaration>
    ensures { MatchOption result (¬ IsName words.now.second.now)
        (λ d. d ≡ object_by thread declarator words.now) }
{
    let name = Name::make(words.second)?;
    Some(Declaration {
        name,
        kind: declared_kind(thread, declarator, words.third, words.fourth),
    })
}

/// The number of the next thread after a declaration, where it was this before.
fn next_thread(thread: u32, declarator: Declarator) -> u32
    requires { thread ≤ MOST_OBJECTS }
    ensures { result ≡ next_thread thread declarator }
{
    match declarator {
        Declarator::Thread => thread + 1,
        _ => thread,
    }
}

/// The numbers of the threads' own objects.
pub fn owns(alloc: Global, objects: &[Declaration]) -> Result<Vec<u32>, NoMemory>
    requires { length objects.now ≤ MOST_OBJECTS }
    ensures { IfOk result (λ v. v.items ≡ owns_of 0 objects.now) }
{
    let mut owns = Vec::new(alloc);
    for (object, declared) in objects.iter().enumerate() {
        if let Kind::Thread { .. } = declared.kind {
            owns.push(object as u32)?;
        }
    }
    Ok(owns)
}
