ghost use Rattle.std.specs.Prelude.{◌≡◌, ◌+◌, ◌<◌, ◌≤◌, ◌^◌, length};
ghost use Rattle.tm_laws.specs.Tidy.{IsSound};
ghost use Rattle.tm_replay.specs.SoundStates.{waits_at};
ghost use Rattle.tm_joint.specs.Showing.{NamesKnown, Renews, RenewsOne, Shows, ShowsOne, bar_by, heir_alone, waiting_bar};

use crate::bars::Bars;
use crate::objects::Object;
use crate::seats::Seat;
use tm_base::{Bar, Entry, Machine, Reply};
use tm_replay::Phase;

/// Brings the bars up to date after the event, before which so many calls waited at the object: that of its
/// thread, and where calls were granted that of the one thread that was, or those of all that wait there.
pub fn show(bars: &mut Bars, seats: &[Seat], object: &Object, entry: &Entry, before: u32)
    requires sound { IsSound object.now.view }
    requires count { length seats.now ≡ length bars.old + 1 }
    requires known { entry.now.thread < length seats.now }
    requires short { length seats.now < 2 ^ 31 }
    requires few { before < 2 ^ 31 }
    requires named { NamesKnown entry.now.reply (length seats.now) }
    ensures { Shows seats.now object.now entry.now before bars.old bars.new }
{
    show_one(bars, seats, object, entry.thread);
    let own = u32::from(object.waits(entry.thread));
    let waiting = object.machine().waiters();
    if waiting == before + own {
        return;
    }
    match heir_alone(entry.reply, waiting, before) {
        Some(heir) => renew_one(bars, seats, object, entry.object, heir),
        None => renew(bars, seats, object, entry.object),
    }
}

/// The thread that the reply names, where one call fewer waits than before.
fn heir_alone(reply: Reply, waiting: u32, before: u32) -> Option<u32>
    ensures { result ≡ heir_alone reply waiting before }
{
    match reply {
        Reply::Gave(heir) if waiting < before && before - waiting == 1 => Some(heir),
        _ => None,
    }
}

/// Brings the thread's bar up to date, where it isn't `main`. If it waits, it does so at the object.
fn show_one(bars: &mut Bars, seats: &[Seat], object: &Object, thread: u32)
    requires sound { IsSound object.now.view }
    requires count { length seats.now ≡ length bars.old + 1 }
    requires known { thread < length seats.now }
    ensures { ShowsOne seats.now object.now thread bars.old bars.new }
{
    if thread == 0 {
        return;
    }
    bars.set(
        thread,
        bar_by(object, thread, seats[thread as usize].phase()),
    );
}

/// Brings the bars of the threads up to date that wait at the object of this number.
fn renew(bars: &mut Bars, seats: &[Seat], object: &Object, number: u32)
    requires sound { IsSound object.now.view }
    requires count { length seats.now ≡ length bars.old + 1 }
    requires few { length seats.now < 2 ^ 31 }
    ensures { Renews seats.now object.now number bars.old bars.new }
{
    for thread in 1..seats.len() as u32 {
        renew_one(bars, seats, object, number, thread);
    }
}

/// Brings the thread's bar up to date, if it waits at the object of this number.
fn renew_one(bars: &mut Bars, seats: &[Seat], object: &Object, number: u32, thread: u32)
    requires sound { IsSound object.now.view }
    requires count { length seats.now ≡ length bars.old + 1 }
    requires program { 1 ≤ thread }
    requires known { thread < length seats.now }
    ensures { RenewsOne seats.now object.now number thread bars.old bars.new }
{
    if waits_at(seats[thread as usize].phase(), number) {
        bars.set(thread, waiting_bar(object, thread));
    }
}

/// The bar of a thread in this phase, which waits at this object if at any.
fn bar_by(object: &Object, thread: u32, phase: Phase) -> Bar
    requires { IsSound object.now.view }
    ensures { result ≡ bar_by object.now thread phase }
{
    match phase {
        Phase::Main | Phase::Free => Bar::Runs,
        Phase::NotBegun => Bar::Unborn,
        Phase::Waits(_) => waiting_bar(object, thread),
        Phase::Ended { .. } => Bar::Ended,
    }
}

/// The bar of a thread that waits at the object, or was granted there.
fn waiting_bar(object: &Object, thread: u32) -> Bar
    requires { IsSound object.now.view }
    ensures { result ≡ waiting_bar object.now thread }
{
    if object.waits(thread) {
        Bar::Blocked
    } else {
        Bar::Granted
    }
}

/// Whether a thread in this phase waits at the object of this number, or was granted there.
fn waits_at(phase: Phase, number: u32) -> bool
    ensures { result ≡ waits_at phase number }
{
    match phase {
        Phase::Waits(at) => at == number,
        _ => false,
    }
}
