use tm_joint::Illegal;
use tm_merge::Refused;

/// Why a collector shows no more.
#[derive(Clone, Copy, Debug, PartialEq, Eq)]
pub enum Refusal {
    /// The merger refused an event that was handed in; never for want of memory.
    Offer(Refused),
    /// The event that is shown next can't happen in the joint state.
    Apply(Illegal),
}
