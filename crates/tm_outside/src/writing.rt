ghost use Rattle.std.specs.Prelude.{◌≡◌, ◌≤◌, OnOk, OnErr};
ghost use Rattle.tm_base.specs.Counters.{next_count};
ghost use Rattle.tm_outside.specs.Appending.{Appends, AppendsProperPrefix};

use crate::{Failed, Sink};

/// Writes the whole piece. `Failed` at the first write that fails: exactly one did, and a prefix of the
/// piece was written, and not all of it.
pub fn write_all<K: Sink>(sink: &mut K, piece: &[u8]) -> Result<(), Failed>
    ensures ok { OnOk result (Appends (K.written sink.old) (K.written sink.new) piece.now) }
    ensures err { OnErr result (AppendsProperPrefix (K.written sink.old) (K.written sink.new) piece.now) }

    ensures steady { OnOk result (K.fault_count sink.new ≡ K.fault_count sink.old) }
    ensures counted { OnErr result (K.fault_count sink.new ≡ next_count (K.fault_count sink.old)) }
    ensures never_falls { K.fault_count sink.old ≤ K.fault_count sink.new }
{
    let mut sent = 0;
    while sent < piece.len() {
        let Ok(n) = sink.write(&piece[sent..]) else {
            return Err(Failed);
        };
        sent += n;
    }
    Ok(())
}
