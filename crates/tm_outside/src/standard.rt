ghost use Rattle.std.specs.Prelude.{◌≡◌, ◌<◌, ◌≤◌, length, IfOk, OnOk, OnErr};
ghost use Rattle.std.specs.Io.KnownBytes.{ReadConsumes, WriteAppends};
ghost use Rattle.tm_base.specs.Counters.{next_count};

use crate::faults::one_more;
use crate::{Failed, Sink, Source};
use std::io::{Read, Write};
use std::marker::Model;

/// A source over a reader of std's, as standard input. It tells no bytes. Contracts see the
/// reader, and the count of its faults.
#[derive(Drop)]
pub struct StdSource<R> {
    reader: R,
    raised: u64,
}

impl<R> Model for StdSource<R> {
    ghost use Rattle.std.specs.Prelude.{ℕ};

    ghost Value = { R × ℕ };

    ghost view = { λ s. (s.reader, s.raised) };
}

impl<R> StdSource<R> {
    /// A source over this reader, with no fault yet.
    pub fn make(reader: R) -> StdSource<R>
        ensures { result ≡ (reader, 0) }
    {
        StdSource { reader, raised: 0 }
    }
}

impl<R: Read + Drop> Source for StdSource<R> {
    ghost use Rattle.std.specs.Prelude.{None};

    ghost left = { λ _. None };

    ghost fault_count = { λ s. s.1 };

    fn faults(&self) -> u64 {
        self.raised
    }

    /// One read of the reader, which is a fault where that fails. Nothing is tried again.
    fn read(&mut self, buf: &mut [u8]) -> Result<usize, Failed>
        ensures within { IfOk result (λ n. n ≤ length buf.old) }

        ensures steady { OnOk result (self.new.1 ≡ self.old.1) }
        ensures counted { OnErr result (self.new.1 ≡ next_count self.old.1) }
        ensures never_falls { self.old.1 ≤ self.new.1 }

        // What the reader gave, where std knows.
        ensures given { ReadConsumes (R.remaining self.old.0) (R.remaining self.new.0) result buf.new }
    {
        match self.reader.read(buf) {
            Ok(n) => Ok(n),
            Err(_) => {
                self.raised = one_more(self.raised);
                Err(Failed)
            }
        }
    }
}

/// A sink over a writer of std's, as standard output. It tells no bytes. Contracts see the
/// writer, and the count of its faults.
#[derive(Drop)]
pub struct StdSink<W> {
    writer: W,
    raised: u64,
}

impl<W> Model for StdSink<W> {
    ghost use Rattle.std.specs.Prelude.{ℕ};

    ghost Value = { W × ℕ };

    ghost view = { λ s. (s.writer, s.raised) };
}

impl<W> StdSink<W> {
    /// A sink over this writer, with no fault yet.
    pub fn make(writer: W) -> StdSink<W>
        ensures { result ≡ (writer, 0) }
    {
        StdSink { writer, raised: 0 }
    }
}

impl<W: Write + Drop> Sink for StdSink<W> {
    ghost use Rattle.std.specs.Prelude.{None};

    ghost written = { λ _. None };

    ghost fault_count = { λ s. s.1 };

    fn faults(&self) -> u64 {
        self.raised
    }

    /// One write of the writer, which is a fault where that fails, or takes nothing of a piece that is
    /// not empty. Nothing is tried again.
    fn write(&mut self, piece: &[u8]) -> Result<usize, Failed>
        ensures within { IfOk result (λ n. n ≤ length piece.now) }
        ensures some { IfOk result (λ n. 0 < length piece.now → 0 < n) }

        ensures steady { OnOk result (self.new.1 ≡ self.old.1) }
        ensures counted { OnErr result (self.new.1 ≡ next_count self.old.1) }
        ensures never_falls { self.old.1 ≤ self.new.1 }

        // What the writer took, where std knows.
        ensures taken { WriteAppends (W.contents self.old.0) (W.contents self.new.0) result piece.now }
    {
        match self.writer.write(piece) {
            Ok(n) if n > 0 || piece.is_empty() => Ok(n),
            _ => {
                self.raised = one_more(self.raised);
                Err(Failed)
            }
        }
    }
}
