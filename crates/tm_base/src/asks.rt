use crate::operations::Op;

/// What a program asks next.
#[derive(Clone, Copy, Debug, PartialEq, Eq)]
pub enum Ask {
    Call { object: u32, op: Op },
    Over,
}
