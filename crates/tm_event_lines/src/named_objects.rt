ghost use Rattle.std.specs.Prelude.{◌≡◌, ◌<◌, ◌==◌, IfOk, IfSome, length, slice_get};
ghost use Rattle.std.specs.HashMap as hash;
ghost use Rattle.std.specs.Str.{bytes_eq};
ghost use Rattle.tm_text.specs.Exercises.{IsWellFormed};
ghost use Rattle.tm_text.specs.Texts.{number_in};

use std::alloc::Global;
use std::collections::HashMap;
use std::marker::Model;
use tm_base::{Kind, NoMemory};
use tm_text::Exercise;

/// The objects of an exercise, found by their names: by an index, where one was made, and else by a scan.
#[derive(Drop)]
pub struct NamedObjects<'a> {
    exercise: &'a Exercise,
    /// The number of each object by its name.
    numbers: Option<HashMap<Vec<u8>, u32>>,
}

impl<'a> Model for NamedObjects<'a> {
    ghost use Rattle.std.specs.Prelude.{◌≡◌, ℕ, IfSome, List};
    ghost use Rattle.std.specs.HashMap as hash;
    ghost use Rattle.std.specs.Str.{bytes_eq};
    ghost use Rattle.tm_text.specs.Exercises.{ExerciseView};
    ghost use Rattle.tm_text.specs.Texts.{number_in};

    ghost Value = { ExerciseView };

    ghost view = { λ a. a.exercise.now };

    ghost invariant = { λ a. IfSome a.numbers (λ numbers. (name : List ℕ) →
        hash.get_by (λ k. bytes_eq name k.items) numbers ≡ number_in 0 a.exercise.now.objects name) };
}

impl<'a> NamedObjects<'a> {
    /// The objects of the exercise, found by a scan.
    pub fn scanned(exercise: &'a Exercise) -> NamedObjects<'a>
        ensures { result ≡ exercise.now }
    {
        NamedObjects {
            exercise,
            numbers: None,
        }
    }

    /// The objects of the exercise, found by an index. `NoMemory` only where memory runs out.
    pub fn indexed(alloc: Global, exercise: &'a Exercise) -> Result<NamedObjects<'a>, NoMemory>
        ensures { IfOk result (λ objects. objects ≡ exercise.now) }
    {
        let mut numbers = HashMap::new(alloc);
        // Backwards, so that of objects with one name the first would stay, as a scan finds it.
        for object in (0..exercise.objects()).rev() {
            let name = exercise.name(object);
            numbers.insert(Vec::from_slice(alloc, name.bytes())?, object)?;
        }
        Ok(NamedObjects {
            exercise,
            numbers: Some(numbers),
        })
    }

    /// The number of the object with the name, from 0. `None` exactly where no object has it.
    pub fn number(&self, name: &[u8]) -> Option<u32>
        ensures number { result ≡ number_in 0 self.now.objects name.now }
        ensures known { IfSome result (λ object. object < length self.now.objects) }
        ensures well_formed { IsWellFormed self.now }
    {
        match &self.numbers {
            None => number_scanned(self.exercise, name),
            Some(numbers) => number_indexed(self.exercise, numbers, name),
        }
    }

    /// The object's kind.
    pub fn kind(&self, object: u32) -> Kind
        requires { object < length self.now.objects }
        ensures { IfSome (slice_get self.now.objects object) (λ declared. result ≡ declared.kind) }
    {
        self.exercise.kind(object)
    }
}

/// The number of the object with the name, by the index.
fn number_indexed(exercise: &Exercise, numbers: &HashMap<Vec<u8>, u32>, name: &[u8]) -> Option<u32>
    requires { hash.get_by (λ k. bytes_eq name.now k.items) numbers.now ≡ number_in 0 exercise.now.objects name.now }
    ensures number { result ≡ number_in 0 exercise.now.objects name.now }
    ensures known { IfSome result (λ object. object < length exercise.now.objects) }
    ensures well_formed { IsWellFormed exercise.now }
{
    // That the exercise is well formed is known from this call.
    let _objects = exercise.objects();
    numbers.get(name).copied()
}

/// The number of the first object with the name, by a scan.
fn number_scanned(exercise: &Exercise, name: &[u8]) -> Option<u32>
    ensures number { result ≡ number_in 0 exercise.now.objects name.now }
    ensures known { IfSome result (λ object. object < length exercise.now.objects) }
    ensures well_formed { IsWellFormed exercise.now }
{
    for object in 0..exercise.objects() {
        if exercise.name(object).bytes() == name {
            return Some(object);
        }
    }
    None
}
