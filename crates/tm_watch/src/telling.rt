ghost use Rattle.std.specs.Prelude.{◌≡◌, map};
ghost use Rattle.tm_watch.specs.Watchers.{after_entry, stays_at, told};

use crate::{Verdict, Watcher};
use tm_base::Entry;

/// Tells each watcher in order the entry. One that retires is removed at this entry, and the others keep
/// their order. It takes no memory.
pub fn tell(watchers: &mut Vec<Box<dyn Watcher>>, entry: &Entry)
    ensures { map (λ b. watch b) watchers.new.items ≡ told (map (λ b. watch b) watchers.old.items) entry.now }
{
    let stays = |watcher: &mut Box<dyn Watcher>| -> bool
        ensures moved { watch watcher.exit.now ≡ after_entry (watch watcher.entry.now) entry.entry.now }
        ensures stays { result ≡ stays_at (watch watcher.entry.now) entry.entry.now }
    { matches!(watcher.saw(entry), Verdict::Keep) };
    watchers.retain_mut(stays);
}
