ghost use Rattle.std.specs.Prelude.{◌≡◌, ◌+◌, ◌≤◌, suc, length, OnOk};
ghost use Rattle.std.specs.Bool.{OnTrue};
ghost use Rattle.std.specs.Vec.{vec_capacity};
ghost use Rattle.tm_merge.specs.Following.{Appends, Follows};
ghost use Rattle.tm_merge.specs.ReadyThreads.{KeepsAll};
ghost use Rattle.tm_merge.specs.StoredArrivals.{view_of};

use super::Arrivals;
use tm_base::{Entry, NoMemory};

impl Arrivals {
    /// Whether the event follows what is shown: in its thread and at its object it is the next one, with a
    /// greater stamp, and none is held behind it. Such an event isn't refused.
    pub(crate) fn is_followed_by(&self, entry: &Entry) -> bool
        ensures { OnTrue result (Follows self.now entry.now) }
    {
        let thread = entry.thread as usize;
        let object = entry.object as usize;
        if entry.stamp == 0 || thread >= self.threads.len() || object >= self.objects.len() {
            return false;
        }
        self.threads[thread].is_followed_by(entry.place, entry.stamp)
            && self.objects[object].is_followed_by(entry.at, entry.stamp)
    }

    /// Makes room for showing all that is held and one event more. Only running out of memory refuses it.
    pub(crate) fn make_room_to_follow(&mut self) -> Result<(), NoMemory>
        requires { KeepsAll self.old }
        ensures all { KeepsAll self.new }
        ensures same { view_of self.new ≡ view_of self.old }
        ensures lines { self.new.threads ≡ self.old.threads }
        ensures objects { self.new.objects ≡ self.old.objects }
        ensures room { OnOk result (suc (length self.new.shown.items + self.new.held) ≤ vec_capacity self.new.shown) }
    {
        self.shown.reserve(self.held + 1)?;
        Ok(())
    }

    /// The event, which follows what is shown, is put behind it at once.
    pub(crate) fn follow(&mut self, entry: Entry)
        requires all { KeepsAll self.old }
        requires follows { Follows self.old entry }
        requires room { suc (length self.old.shown.items + self.old.held) ≤ vec_capacity self.old.shown }
        ensures all { KeepsAll self.new }
        ensures appends { Appends (view_of self.old) entry (view_of self.new) }
    {
        self.shown.push_reserved(entry);
        self.threads[entry.thread as usize].follow(entry.place, entry);
        self.objects[entry.object as usize].follow(entry.at, entry);
    }
}
