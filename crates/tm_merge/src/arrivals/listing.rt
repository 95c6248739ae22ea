ghost use Rattle.std.specs.Prelude.{◌≡◌, ℕ, Bool, ◌<◌, ◌==◌, not, false, length, filter, IfSome, Some};
ghost use Rattle.std.specs.Vec.{vec_capacity};
ghost use Rattle.tm_base.specs.declared.events.Entry.{Entry};
ghost use Rattle.tm_merge.specs.ReadyThreads.{is_listed, with_thread, ListsAllReady, ListsOnlyReady, ListsReady};
ghost use Rattle.tm_merge.specs.Showing.{IsReady};
ghost use Rattle.tm_merge.specs.StoredArrivals.{KeepsArrivals, view_of};

use super::Arrivals;
use tm_base::Entry;

/// Puts the thread into the list, once.
fn list_thread(threads: &mut Vec<u32>, thread: u32)
    requires { is_listed threads.old.items thread ≡ false → length threads.old.items < vec_capacity threads.old }
    ensures items { threads.new.items ≡ with_thread threads.old.items thread }
    ensures capacity { vec_capacity threads.new ≡ vec_capacity threads.old }
{
    if threads.contains(&thread) {
        return;
    }
    threads.push_reserved(thread);
}

/// Takes the thread from the list.
fn unlist_thread(threads: &mut Vec<u32>, thread: u32)
    ensures items { threads.new.items ≡ filter (λ t. not (t == thread)) threads.old.items }
    ensures capacity { vec_capacity threads.new ≡ vec_capacity threads.old }
{
    threads.retain(|listed| *listed != thread);
}

impl Arrivals {
    /// Lists the thread, if its next event is ready.
    pub(crate) fn list_if_ready(&mut self, thread: u32)
        requires keeps { KeepsArrivals self.old }
        requires known { thread < length self.old.threads.items }
        requires lists { ListsReady self.old (λ e. e.thread == thread) }
        ensures keeps { KeepsArrivals self.new }
        ensures same { view_of self.new ≡ view_of self.old }
        ensures lists { ListsAllReady self.new }
        ensures only { (skips : ℕ → Bool) → ListsOnlyReady self.old skips → ListsOnlyReady self.new skips }
    {
        if self.ready_in(thread as usize).is_some() {
            list_thread(&mut self.ready, thread);
        }
    }

    /// Takes the thread from the list, unless its next event is ready.
    pub(super) fn unlist_if_not_ready(&mut self, thread: u32)
        requires keeps { KeepsArrivals self.old }
        requires known { thread < length self.old.threads.items }
        requires lists { ListsAllReady self.old }
        requires only { ListsOnlyReady self.old (λ t. t == thread) }
        ensures keeps { KeepsArrivals self.new }
        ensures same { view_of self.new ≡ view_of self.old }
        ensures lists { ListsAllReady self.new }
        ensures only { ListsOnlyReady self.new (λ _. false) }
    {
        if self.ready_in(thread as usize).is_none() {
            unlist_thread(&mut self.ready, thread);
        }
    }

    /// The event that is next at the object: no other one there can be ready.
    fn next_at(&self, object: u32) -> Option<Entry>
        requires keeps { KeepsArrivals self.now }
        requires known { object < length self.now.objects.items }
        ensures only { (e : Entry) → IsReady (view_of self.now) e → e.object ≡ object → result ≡ Some e }
        ensures thread { IfSome result (λ e. e.thread < length self.now.threads.items) }
    {
        let slot = self.objects[object as usize].next()?;
        self.slots[slot]
    }

    /// Lists the thread of the event that is next at the object, if it is ready.
    pub(super) fn list_next_at(&mut self, object: u32)
        requires keeps { KeepsArrivals self.old }
        requires known { object < length self.old.objects.items }
        requires lists { ListsReady self.old (λ e. e.object == object) }
        ensures keeps { KeepsArrivals self.new }
        ensures same { view_of self.new ≡ view_of self.old }
        ensures lists { ListsAllReady self.new }
        ensures only { (skips : ℕ → Bool) → ListsOnlyReady self.old skips → ListsOnlyReady self.new skips }
    {
        let Some(event) = self.next_at(object) else {
            return;
        };
        self.list_if_ready(event.thread);
    }
}
