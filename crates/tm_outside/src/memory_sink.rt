ghost use Rattle.std.specs.Prelude.{◌≡◌, ◌↔◌, ◌⊎◌, ◌<◌, ◌≤◌, length, take, Some, IfOk, OnOk, OnErr, IsErr};
ghost use Rattle.tm_base.specs.Counters.{next_count};
ghost use Rattle.tm_outside.specs.Appending.{Appends};
ghost use Rattle.tm_outside.specs.MemoryStates.{new_sink, RefusesPiece, after_write, after_failed_write};

use crate::faults::{is_listed, one_more};
use crate::{Failed, Sink};
use std::alloc::Global;
use std::marker::Model;
use tm_base::NoMemory;

/// A sink in memory with room for so many bytes, some of whose writes fail. Contracts see the bytes
/// written, the room left, how many writes there were, the numbers of those that fail, and how many
/// failed.
#[derive(Drop)]
pub struct MemorySink {
    bytes: Vec<u8>,
    room: usize,
    calls: u64,
    fails: Vec<u64>,
    faults: u64,
}

impl Model for MemorySink {
    ghost use Rattle.std.specs.Prelude.{◌+◌, ◌≤◌, vec_len, vec_capacity};
    ghost use Rattle.tm_outside.specs.MemoryStates.{SinkState};

    ghost Value = { SinkState };

    ghost view = { λ s. record { written = s.bytes.items; room = s.room; calls = s.calls; fails = s.fails.items; faults = s.faults } };

    ghost invariant = { λ s. vec_len s.bytes + s.room ≤ vec_capacity s.bytes };
}

impl MemorySink {
    /// A sink with room for `room` bytes, whose memory it takes now. The writes whose numbers from
    /// 1 stand in `fails` fail, and those of a piece that is longer than the room left; no other
    /// does. A write after the last of 2^64 - 1 numbers has that number. `NoMemory` only where
    /// memory runs out.
    pub fn make(alloc: Global, room: usize, fails: &[u64]) -> Result<MemorySink, NoMemory>
        ensures { IfOk result (λ sink. sink ≡ new_sink room fails.now) }
    {
        let bytes = Vec::with_capacity(alloc, room)?;
        let fails = Vec::from_slice(alloc, fails)?;
        Ok(MemorySink {
            bytes,
            room,
            calls: 0,
            fails,
            faults: 0,
        })
    }

    /// The bytes written.
    pub fn bytes(&self) -> &[u8]
        ensures { result.now ≡ self.now.written }
    {
        self.bytes.as_slice()
    }
}

impl Sink for MemorySink {
    ghost use Rattle.std.specs.Prelude.{Some};

    ghost written = { λ s. Some s.written };

    ghost fault_count = { λ s. s.faults };

    fn faults(&self) -> u64 {
        self.faults
    }

    /// Takes the piece whole.
    fn write(&mut self, piece: &[u8]) -> Result<usize, Failed>
        ensures within { IfOk result (λ n. n ≤ length piece.now) }
        ensures some { IfOk result (λ n. 0 < length piece.now → 0 < n) }
        ensures bytes { IfOk result (λ n. Appends (Some self.old.written) (Some self.new.written) (take n piece.now)) }
        ensures kept { OnErr result (Some self.new.written ≡ Some self.old.written) }

        ensures steady { OnOk result (self.new.faults ≡ self.old.faults) }
        ensures counted { OnErr result (self.new.faults ≡ next_count self.old.faults) }
        ensures never_falls { self.old.faults ≤ self.new.faults }

        // When it fails, and what it leaves.
        ensures fails { IsErr result ↔ RefusesPiece self.old piece.now }
        ensures whole { IfOk result (λ n. n ≡ length piece.now) }
        ensures after { OnOk result (self.new ≡ after_write self.old piece.now) }
        ensures after_failure { OnErr result (self.new ≡ after_failed_write self.old) }
    {
        self.calls = one_more(self.calls);
        if piece.len() > self.room || is_listed(&self.fails, self.calls) {
            self.faults = one_more(self.faults);
            return Err(Failed);
        }
        if self.bytes.extend_from_slice(piece).is_err() {
            unreachable!();
        }
        self.room -= piece.len();
        Ok(piece.len())
    }
}
