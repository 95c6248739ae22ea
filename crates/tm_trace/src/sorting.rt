ghost use Rattle.std.specs.Prelude.{IfOk, IsPermutation};
ghost use Rattle.tm_order.specs.StampOrder.{IsInStampOrder};

use std::alloc::Global;
use tm_base::{Entry, NoMemory};

/// The events by rising stamp, and by thread number where stamps are equal (Lamport, CACM 1978). The sort keeps
/// what stands in order or backwards, so that the rows of a run take hardly more than a look.
pub(crate) fn in_stamp_order(alloc: Global, events: &[Entry]) -> Result<Vec<Entry>, NoMemory>
    ensures permutation { IfOk result (λ order. IsPermutation events.now order.items) }
    ensures by_stamp { IfOk result (λ order. IsInStampOrder order.items) }
{
    let mut order = Vec::from_slice(alloc, events)?;
    order.sort_by_key(|event| (event.stamp, event.thread))?;
    Ok(order)
}
