//! What is asked of a farm, and what it answers at once.

/// A tile as it is asked for: its map by place, none where no map has the name, and its three numbers,
/// which need not be those of a tile.
#[derive(Clone, Copy)]
pub struct Spot {
    pub map: Option<u32>,
    pub z: u32,
    pub x: u32,
    pub y: u32,
}

/// The commands of renderd's protocol that ask for a metatile.
#[derive(Clone, Copy)]
pub enum Cmd {
    Render,
    Prio,
    Low,
    Bulk,
    /// Marks the metatile dirty; it has no reply.
    Dirty,
}

/// What an ask is answered at once. A number is the ask's own, and its reply comes by `collect`.
#[derive(Clone, Copy, PartialEq, Eq)]
pub enum AskAnswer {
    /// The metatile is clean.
    Done,
    /// It is a new item of the command's own queue.
    Queued(u64),
    /// It waits or is being drawn already, and the ask waits with it.
    Joined(u64),
    /// It waited in the dirty or bulk queue, and was moved to the command's own queue.
    Lifted(u64),
    /// The ask will have no reply.
    NotDone(Why),
    /// The answer to `Cmd::Dirty`.
    Silent,
}

/// Why an ask will have no reply.
#[derive(Clone, Copy, PartialEq, Eq)]
pub enum Why {
    /// The farm was stopped.
    Stopping,
    /// There is no such map, or no such tile of it.
    Unservable,
    /// The connection, or all together, have as many open asks as may be.
    Backlog,
    /// It is being drawn, and was touched since that drawing was claimed.
    Overtaken,
    /// It waits in the dirty queue already.
    InDirty,
    /// The command's own queue is full, and it was put in the dirty queue.
    Deferred,
    /// The dirty queue is full too.
    Dropped,
}
