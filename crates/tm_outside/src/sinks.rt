ghost use Rattle.std.specs.Prelude.{◌≡◌, ℕ, ◌<◌, ◌≤◌, List, length, take, Option, IfOk, OnOk, OnErr};
ghost use Rattle.tm_base.specs.Counters.{next_count};
ghost use Rattle.tm_outside.specs.Appending.{Appends};

use crate::Failed;

/// What bytes are written to. Contracts see the bytes that it was given, where it tells them, and the
/// count of its faults.
pub trait Sink {
    // The bytes written. `None` claims nothing.
    ghost written: { Self → Option (List ℕ) };

    // How many faults there were.
    ghost fault_count: { Self → ℕ };

    /// How many writes failed so far, at most 2^64 - 1.
    fn faults(&self) -> u64
        ensures { result ≡ fault_count self.now };

    /// Writes a prefix of the piece, and answers how many bytes: at least one, unless the piece is
    /// empty, which appends nothing. `Failed` only after a fault outside; the bytes written are then
    /// as before.
    fn write(&mut self, piece: &[u8]) -> Result<usize, Failed>
        ensures within { IfOk result (λ n. n ≤ length piece.now) }
        ensures some { IfOk result (λ n. 0 < length piece.now → 0 < n) }
        ensures bytes { IfOk result (λ n. Appends (written self.old) (written self.new) (take n piece.now)) }
        ensures kept { OnErr result (written self.new ≡ written self.old) }

        ensures steady { OnOk result (fault_count self.new ≡ fault_count self.old) }
        ensures counted { OnErr result (fault_count self.new ≡ next_count (fault_count self.old)) }
        ensures never_falls { fault_count self.old ≤ fault_count self.new };
}
