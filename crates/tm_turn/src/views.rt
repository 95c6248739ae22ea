use std::collections::LinkedList;
use std::marker::Model;
use tm_base::{Entry, Kind};

/// An object's number, its kind and its number of threads, which contracts see as a label. No value of
/// it is made.
pub struct ObjectLabel {
    object: u32,
    kind: Kind,
    threads: u32,
}

impl Model for ObjectLabel {
    ghost use Rattle.tm_base.specs.Histories.{Label};

    ghost Value = { Label };

    ghost view = { λ l. record { object = l.object; kind = l.kind; threads = l.threads } };
}

/// What a seat at a turn's table knows, its local view. No value of it is made: it stands in proofs
/// alone, and costs nothing.
pub struct LocalView {
    /// The label of the turn.
    pub label: ObjectLabel,
    /// Whether it knows anything. A seat that was joined to another doesn't.
    pub knows: bool,
    /// Whether it is a pass.
    pub lives: bool,
    pub number: u32,
    pub seen: LinkedList<Entry>,
    pub given: LinkedList<u32>,
    pub absorbed: LinkedList<u32>,
    /// Whether it holds the turn.
    pub holds: bool,
    /// How often it won the turn.
    pub turns: u64,
    /// How often it lost the turn.
    pub misses: u64,
    /// The word that it read when it last lost.
    pub missed: u64,
    /// Whether it keeps the lists of a join.
    pub keeps: bool,
    /// What it had seen before the join.
    pub first: LinkedList<Entry>,
    /// What the other had seen.
    pub second: LinkedList<Entry>,
    /// The number of the pass that was joined, where it was a pass.
    pub joined: Option<u32>,
}
