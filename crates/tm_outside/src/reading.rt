ghost use Rattle.std.specs.Prelude.{◌≡◌, ℕ, ◌+◌, ◌^◌, ◌<◌, ◌≤◌, ◌++◌, List, length, IfOk, OnOk, IsErrOf, vec_len};
ghost use Rattle.tm_base.specs.Counters.{next_count};
ghost use Rattle.tm_outside.specs.Taking.{Takes, TakesAtMost, TakesFirst, IsAtEnd};
ghost use Rattle.tm_outside.specs.ReadSteps.{ReadsMore};

use crate::Source;
use std::alloc::Global;
use tm_base::{Bytes, NoMemory};

/// Why a source was not read.
#[derive(Clone, Copy, Debug, PartialEq, Eq)]
pub enum ReadFault {
    /// The source failed, as its count of faults shows.
    Failed,
    /// Memory ran out.
    NoMemory,
}

/// How many bytes are asked for in one read, at most.
const LONGEST_READ: usize = 65536;

/// How many bytes are copied at once, at most. The C library copies so few by vectors, and more of them by one
/// instruction that goes from byte to byte.
const LONGEST_COPY: usize = 2048;

/// Reads a source to its end, or to `limit + 1` bytes, for a limit below 2^63: so more than `limit`
/// bytes say that the source has more than `limit`. `Failed` at the first read that fails:
/// exactly one did; `NoMemory` only where memory runs out. What was read is lost after a refusal, and
/// is at most `limit + 1` bytes too.
pub fn read_all<S: Source>(alloc: Global, source: &mut S, limit: u64) -> Result<Bytes, ReadFault>
    requires { limit < 2 ^ 63 }

    ensures bounded { IfOk result (λ bytes. length bytes ≤ limit + 1) }
    ensures first { IfOk result (λ bytes. TakesFirst (limit + 1) (S.left source.old) (S.left source.new) bytes) }
    ensures end { IfOk result (λ bytes. length bytes ≤ limit → IsAtEnd (S.left source.new)) }
    ensures prefix { TakesAtMost (limit + 1) (S.left source.old) (S.left source.new) }

    ensures steady { OnOk result (S.fault_count source.new ≡ S.fault_count source.old) }
    ensures counted { IsErrOf result ReadFault.Failed → S.fault_count source.new ≡ next_count (S.fault_count source.old) }
    ensures no_memory { IsErrOf result ReadFault.NoMemory → S.fault_count source.new ≡ S.fault_count source.old }
    ensures never_falls { S.fault_count source.old ≤ S.fault_count source.new }
{
    let most = limit as usize + 1;
    let Ok(mut buf) = vec![in alloc; 0u8; most.min(LONGEST_READ)] else {
        return Err(ReadFault::NoMemory);
    };
    let mut bytes = Vec::new(alloc);
    while bytes.len() < most {
        let wanted = most - bytes.len();
        if read_some(source, &mut buf, wanted, &mut bytes)? == 0 {
            break;
        }
    }
    Ok(Bytes::from_vec(bytes))
}

/// Reads once, at most `wanted` bytes and through this buffer, and appends what came. Answers how many
/// bytes that was: 0 only at the end.
fn read_some<S: Source>(
    source: &mut S,
    buf: &mut [u8],
    wanted: usize,
    bytes: &mut Vec<u8>,
) -> Result<usize, ReadFault>
    requires wants { 0 < wanted }
    requires has_room { 0 < length buf.old }

    ensures within { IfOk result (λ n. n ≤ wanted) }
    ensures more { IfOk result (λ n. ReadsMore (S.left source.old) (S.left source.new) bytes.old.items bytes.new.items n) }
    ensures end { IfOk result (λ n. n ≡ 0 → IsAtEnd (S.left source.new)) }
    ensures prefix { TakesAtMost wanted (S.left source.old) (S.left source.new) }

    ensures steady { OnOk result (S.fault_count source.new ≡ S.fault_count source.old) }
    ensures counted { IsErrOf result ReadFault.Failed → S.fault_count source.new ≡ next_count (S.fault_count source.old) }
    ensures no_memory { IsErrOf result ReadFault.NoMemory → S.fault_count source.new ≡ S.fault_count source.old }
    ensures never_falls { S.fault_count source.old ≤ S.fault_count source.new }
{
    let asked = wanted.min(buf.len());
    let part = &mut buf[..asked];
    let Ok(n) = source.read(part) else {
        return Err(ReadFault::Failed);
    };
    match append(bytes, &part[..n]) {
        Ok(()) => Ok(n),
        Err(NoMemory) => Err(ReadFault::NoMemory),
    }
}

/// Appends the bytes, piece by piece.
fn append(bytes: &mut Vec<u8>, more: &[u8]) -> Result<(), NoMemory>
    ensures { OnOk result (bytes.new.items ≡ bytes.old.items ++ more.now) }
{
    let mut rest = more;
    while !rest.is_empty() {
        let (piece, behind) = rest.split_at(rest.len().min(LONGEST_COPY));
        bytes.extend_from_slice(piece)?;
        rest = behind;
    }
    Ok(())
}
