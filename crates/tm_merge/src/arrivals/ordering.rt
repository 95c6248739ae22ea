ghost use Rattle.std.specs.Prelude.{◌≡◌, ◌≤◌, length};
ghost use Rattle.tm_merge.specs.ReadyThreads.{KeepsAll};
ghost use Rattle.tm_merge.specs.Rising.{AreSorted, IsSortedFrom, Sorts};
ghost use Rattle.tm_merge.specs.Showing.{IsSettled};
ghost use Rattle.tm_merge.specs.StoredArrivals.{view_of};

use super::Arrivals;
use tm_base::Entry;

/// Sorts the events by stamp, and by thread where stamps are equal. It takes no memory, and where they are
/// sorted it only looks.
fn sort(events: &mut [Entry])
    ensures { AreSorted events.old events.new }
{
    events.sort_unstable_by_key(|event| (event.stamp, event.thread));
}

/// Sorts the events from this index on.
fn sort_from(events: &mut [Entry], from: usize)
    requires { from ≤ length events.old }
    ensures { IsSortedFrom from events.old events.new }
{
    sort(&mut events[from..]);
}

impl Arrivals {
    /// Puts the shown events from this index on into the order of their stamps and threads. None is ready.
    pub(crate) fn order_from(&mut self, from: usize)
        requires all { KeepsAll self.old }
        requires settled { IsSettled (view_of self.old) }
        requires within { from ≤ length self.old.shown.items }
        ensures all { KeepsAll self.new }
        ensures sorts { Sorts from (view_of self.old) (view_of self.new) }
    {
        sort_from(self.shown.as_mut_slice(), from);
    }
}
