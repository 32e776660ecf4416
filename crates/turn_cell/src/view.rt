//! What a cell is made with, and what a seat knows of it. Both exist in proofs alone.
use std::collections::LinkedList;
use std::snapshot::Snapshot;

/// What a cell was made with: the number of turns that it gives at most, and its first value.
pub struct Terms<T> {
    /// The number of turns that the cell gives at most, up to `2^62`.
    pub limit: u64,
    /// The value that the cell was made with.
    pub first: Snapshot<T>,
}

// A derive would ask that `T` be `Drop`.
impl<T> Drop for Terms<T> {
    fn drop(self) {
        let Self { limit: _, first: _ } = self;
    }
}

/// What one seat knows. No value of it is made.
pub struct View<T, E> {
    /// The cell's terms, or nothing where the seat was joined into the first and is spent.
    pub about: Option<Terms<T>>,
    /// The seat's number: 0 for the first, and k for the k-th that was split from it.
    pub number: u64,
    /// The beginning of the history that it has seen.
    pub seen: LinkedList<(u64, E)>,
    /// Its own entries.
    pub mine: LinkedList<(u64, E)>,
    /// It found that the limit was drawn.
    pub worn: bool,
    /// The ticket that it has drawn and that was not served to its end: one or none.
    pub tickets: LinkedList<u64>,
    /// It is served, and the value is out with it.
    pub holds: bool,
    /// 1 from the step that counts its entry to the step that serves the next.
    pub counted: u64,
    /// It is the first seat.
    pub first: bool,
    /// How often the first seat was split.
    pub splits: u64,
    /// Each number that was joined into the first seat, with all its entries.
    pub joined: LinkedList<(u64, LinkedList<(u64, E)>)>,
    /// What the two seats of the last join had seen.
    pub heard: LinkedList<LinkedList<(u64, E)>>,
}
