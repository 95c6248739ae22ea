ghost use Rattle.std.specs.Prelude.{◌≡◌, ◌==◌, true, false, MatchOption, OnSome};
ghost use Rattle.std.specs.List.{position_or_len};
ghost use Rattle.tm_text.specs.Exercises.{IsWellFormed};
ghost use Rattle.tm_event_lines.specs.EventFaults.{has_unknown_name};
ghost use Rattle.tm_event_lines.specs.EventWords.{parts_in};
ghost use Rattle.tm_event_lines.specs.SaidWords.{granted_of, name_in, names_said, place_in, thread_in, thread_named};

use crate::event_words::EventWords;
use crate::named_objects::NamedObjects;
use crate::reply_words::is_gave;
use tm_base::Kind;

/// The threads and the object that an event line names.
#[derive(Clone, Copy, Debug)]
pub struct EventNames {
    /// Who did it; 0 is `main`.
    pub thread: u32,
    pub object: u32,
    /// The thread that the reply names, and 0 where it names none.
    pub granted: u32,
}

impl EventNames {
    /// The threads and the object that these words name. `None` exactly where one of them isn't known.
    pub fn of_words(objects: &NamedObjects, words: &EventWords) -> Option<EventNames>
        ensures names { MatchOption result (has_unknown_name objects.now.objects (parts_in words.now) ≡ true)
            (λ names. (has_unknown_name objects.now.objects (parts_in words.now) ≡ false)
            × (names ≡ names_said objects.now.objects (parts_in words.now))) }
        // Every exercise is, which is known once its objects are looked at.
        ensures well_formed { OnSome result (IsWellFormed objects.now) }
    {
        let thread = thread_named(objects, name_in(words.thread))?;
        let object = objects.number(name_in(words.object))?;
        let granted = granted_of(objects, words)?;
        Some(EventNames {
            thread,
            object,
            granted,
        })
    }
}

/// The name in the word of a thread or an object: what stands before its first `.`.
fn name_in(word: &[u8]) -> &[u8]
    ensures { result.now ≡ name_in word.now }
{
    &word[..name_len(word)]
}

/// The place in the word: what stands behind its first `.`.
pub fn place_in(word: &[u8]) -> &[u8]
    ensures { result.now ≡ place_in word.now }
{
    let end = name_len(word);
    if end < word.len() {
        &word[end + 1..]
    } else {
        b""
    }
}

/// How many bytes stand before the first `.`.
fn name_len(word: &[u8]) -> usize
    ensures { result ≡ position_or_len (λ b. b == 46) word.now }
{
    word.iter().take_while(|b| **b != b'.').count()
}

/// The thread with the name; `main` is thread 0.
fn thread_named(objects: &NamedObjects, name: &[u8]) -> Option<u32>
    ensures { result ≡ thread_named objects.now.objects name.now }
{
    if name == b"main".as_slice() {
        Some(0)
    } else {
        thread_in(objects, name)
    }
}

/// The thread with a program that has the name.
fn thread_in(objects: &NamedObjects, name: &[u8]) -> Option<u32>
    ensures { result ≡ thread_in objects.now.objects name.now }
{
    let object = objects.number(name)?;
    match objects.kind(object) {
        Kind::Thread { own, .. } => Some(own),
        _ => None,
    }
}

/// The thread that the reply names, which has a program; 0 where the reply names none.
fn granted_of(objects: &NamedObjects, words: &EventWords) -> Option<u32>
    ensures { result ≡ granted_of objects.now.objects (parts_in words.now) }
{
    if is_gave(words.reply) {
        thread_in(objects, words.detail)
    } else {
        Some(0)
    }
}
