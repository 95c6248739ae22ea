ghost use Rattle.std.specs.Prelude.{◌≡◌, ◌-◌, ◌<◌, ◌≤◌, IfOk, count_by, length, replicate, slice_get, slice_set, Some, not};
ghost use Rattle.tm_replay.specs.Bars.{is_ended, is_runnable, is_over, is_stuck};
ghost use Rattle.tm_replay.specs.Choosing.{next_thread, runnable_threads};
ghost use Rattle.tm_joint.specs.StoredBars.{goes_on};

use crate::bits::{first_place, first_places, with_place};
use std::alloc::Global;
use std::marker::Model;
use tm_base::{Bar, MOST_THREADS, NoMemory};

/// One bar for each program thread, in rising number. How many threads haven't ended, and how many are
/// runnable, is counted beside them, and which are is a set, with thread 1 at place 0.
#[derive(Drop)]
pub struct Bars {
    bars: Vec<Bar>,
    going: usize,
    runnable: usize,
    running: u64,
}

impl Model for Bars {
    ghost use Rattle.std.specs.Prelude.{List};
    ghost use Rattle.tm_base.specs.declared.bars.Bar.{Bar};

    ghost Value = { List Bar };

    ghost use Rattle.tm_joint.specs.StoredBars.{KeepsBars};

    ghost view = { λ b. b.bars.items };

    ghost invariant = { KeepsBars };
}

impl Bars {
    /// The bars of this many threads that haven't begun, at most `MOST_THREADS`.
    pub fn make(alloc: Global, threads: u32) -> Result<Bars, NoMemory>
        requires { threads ≤ MOST_THREADS }
        ensures { IfOk result (λ bars. bars ≡ replicate threads Bar.Unborn) }
    {
        let running = first_places(threads);
        let threads = threads as usize;
        let bars = vec![in alloc; Bar::Unborn; threads]?;
        Ok(Bars {
            bars,
            going: threads,
            runnable: threads,
            running,
        })
    }

    /// The bars, from thread 1.
    pub fn as_slice(&self) -> &[Bar]
        ensures { result.now ≡ self.now }
    {
        self.bars.as_slice()
    }

    /// The thread's bar.
    pub fn bar(&self, thread: u32) -> Bar
        requires program { 1 ≤ thread }
        requires known { thread ≤ length self.now }
        ensures { slice_get self.now (thread - 1) ≡ Some result }
    {
        self.bars[thread as usize - 1]
    }

    /// Puts the thread's new bar in the place of the old one.
    pub fn set(&mut self, thread: u32, bar: Bar)
        requires program { 1 ≤ thread }
        requires known { thread ≤ length self.old }
        ensures { self.new ≡ slice_set self.old (thread - 1) bar }
    {
        let old = self.bars[thread as usize - 1];
        self.going = self.going + usize::from(goes_on(bar)) - usize::from(goes_on(old));
        self.runnable = self.runnable + usize::from(is_runnable(bar))
            - usize::from(is_runnable(old));
        self.running = with_place(self.running, thread - 1, is_runnable(bar));
        self.bars[thread as usize - 1] = bar;
    }

    /// How many threads are runnable.
    pub fn runnable_count(&self) -> u64
        ensures count { result ≡ count_by is_runnable self.now }
        ensures listed { result ≡ length (runnable_threads self.now) }
    {
        self.runnable as u64
    }

    /// The runnable thread at this place, from 0, in rising number. `None` exactly where there are no more.
    pub fn nth_runnable(&self, nth: u64) -> Option<u32>
        ensures { result ≡ slice_get (runnable_threads self.now) nth }
    {
        let mut left = nth;
        let mut from = 0;
        while left > 0 {
            let Some(place) = first_place(self.running, from) else {
                return None;
            };
            from = place + 1;
            left -= 1;
        }
        match first_place(self.running, from) {
            Some(place) => Some(place + 1),
            None => None,
        }
    }

    /// The next runnable thread in cyclic order after this one. `None` exactly where none is runnable.
    pub fn next_runnable(&self, last: u32) -> Option<u32>
        requires { last ≤ length self.now }
        ensures { result ≡ next_thread self.now last }
    {
        if let Some(place) = first_place(self.running, last) {
            return Some(place + 1);
        }
        match first_place(self.running, 0) {
            Some(place) => Some(place + 1),
            None => None,
        }
    }

    /// Whether every thread has ended.
    pub fn is_over(&self) -> bool
        ensures { result ≡ is_over self.now }
    {
        self.going == 0
    }

    /// Whether a thread hasn't ended, and none is runnable.
    pub fn is_stuck(&self) -> bool
        ensures { result ≡ is_stuck self.now }
    {
        !self.is_over() && self.runnable == 0
    }
}

/// Whether the thread with this bar hasn't ended.
fn goes_on(bar: Bar) -> bool
    ensures { result ≡ goes_on bar }
{
    !matches!(bar, Bar::Ended)
}

/// Whether the thread with this bar hasn't ended, and no call of it waits ungranted.
pub fn is_runnable(bar: Bar) -> bool
    ensures { result ≡ is_runnable bar }
{
    !matches!(bar, Bar::Ended | Bar::Blocked)
}
