ghost use Rattle.std.specs.Prelude.{◌≡◌, ℕ, ◌<◌, ◌≤◌, List, length, take, Option, IfOk, OnOk, OnErr};
ghost use Rattle.tm_base.specs.Counters.{next_count};
ghost use Rattle.tm_outside.specs.Taking.{Takes, IsAtEnd};

use crate::Failed;

/// What bytes are read from. Contracts see the bytes that it has left, where it tells them, and the
/// count of its faults.
pub trait Source {
    // The bytes left. `None` claims nothing.
    ghost left: { Self → Option (List ℕ) };

    // How many faults there were.
    ghost fault_count: { Self → ℕ };

    /// How many reads failed so far, at most 2^64 - 1.
    fn faults(&self) -> u64
        ensures { result ≡ fault_count self.now };

    /// Reads into the start of the buffer, and answers how many bytes. The rest of the buffer may hold
    /// anything afterwards, and after `Failed` all of it. `Ok(0)` on a buffer that is not empty is the
    /// end. `Failed` only after a fault outside; the bytes left are then as before.
    fn read(&mut self, buf: &mut [u8]) -> Result<usize, Failed>
        ensures within { IfOk result (λ n. n ≤ length buf.old) }
        ensures bytes { IfOk result (λ n. Takes (left self.old) (left self.new) (take n buf.new)) }
        ensures end { IfOk result (λ n. n ≡ 0 → 0 < length buf.old → IsAtEnd (left self.new)) }
        ensures kept { OnErr result (left self.new ≡ left self.old) }

        ensures steady { OnOk result (fault_count self.new ≡ fault_count self.old) }
        ensures counted { OnErr result (fault_count self.new ≡ next_count (fault_count self.old)) }
        ensures never_falls { fault_count self.old ≤ fault_count self.new };
}
