//! Connections, the five queues of renderd, and the replies to asks that wait.

/// A connection: the front that it came to, and its number there.
#[derive(Clone, Copy, PartialEq, Eq, Hash)]
pub struct Conn {
    pub front: u32,
    pub number: u32,
}

/// An ask that waits for a metatile: its connection and its number.
#[derive(Clone, Copy)]
pub struct Waiter {
    pub conn: Conn,
    pub ask: u64,
}

/// The queues, in the order in which they are taken, as in renderd.
#[derive(Clone, Copy)]
pub enum Queue {
    Prio,
    Request,
    Low,
    Dirty,
    Bulk,
}

/// How a drawing ended for those who waited for it.
#[derive(Clone, Copy, PartialEq, Eq)]
pub enum Outcome {
    /// It was stored.
    Done,
    /// The store refused it.
    NotDone,
    /// There was no memory for it.
    Cut,
}

/// The reply to an ask that waited: its connection, its number and the outcome.
#[derive(Clone, Copy)]
pub struct Reply {
    pub conn: Conn,
    pub ask: u64,
    pub outcome: Outcome,
}

/// The most metatiles that wait in each queue but that of the dirty ones.
pub const MOST_WAITING: u32 = 32;

/// The most metatiles that wait as dirty ones.
pub const MOST_DIRTY: u32 = 1_000;

/// How many metatiles may wait in each queue.
#[derive(Clone, Copy)]
pub struct Limits {
    pub prio: u32,
    pub request: u32,
    pub low: u32,
    pub dirty: u32,
    pub bulk: u32,
}
