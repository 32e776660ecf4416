//! What the other events of a farm are answered.
use crate::keys::Key;
use crate::queues::Reply;
use farm_base::{ApplyFault, Bytes, MetaFault};

/// What a claim is answered, as far as a history tells it.
#[derive(Clone, Copy)]
pub enum ClaimAnswer {
    /// A drawing to make: its ticket, its metatile and the data version.
    Job(u64, Key, u64),
    /// Nothing waits.
    Idle,
    /// As many drawings are under way as there are workers.
    Crowded,
    /// The farm was stopped.
    Stopped,
}

/// What the end of a drawing is answered.
#[derive(Clone, Copy)]
pub enum Finished {
    /// It was stored; true where nothing touched the metatile since the claim.
    Stored(bool),
    /// The store refused it.
    PutFailed,
    /// There was no memory, for the drawing or for its end.
    NoMemory,
}

/// What an update is answered.
#[derive(Clone, Copy)]
pub enum Updated {
    /// The new data version.
    Version(u64),
    /// The table has no update of that number.
    NoUpdate,
    /// The update does not fit the data; nothing changed.
    Refused(ApplyFault),
}

/// What a change of style is answered.
#[derive(Clone, Copy)]
pub enum Restyled {
    /// How many clean metatiles it made dirty.
    Styled(u64),
    /// The table has no style of that number.
    NoRestyle,
}

/// What an update that expires what it reaches is answered.
#[derive(Clone, Copy)]
pub enum Renewed {
    /// The new data version, and how many clean metatiles it made dirty.
    Version(u64, u64),
    /// The table has no update of that number.
    NoUpdate,
    /// The update does not fit the data; nothing changed.
    Refused(ApplyFault),
}

/// What a tile is read as. Versions are those at the claim of the drawing that is shown.
#[derive(Drop)]
pub enum Fetched {
    /// Nothing touched its metatile since the claim.
    Clean(u64, Bytes),
    /// Something did.
    Dirty(u64, Bytes),
    /// No drawing of its metatile is shown.
    Missing,
    /// There is no such map, or no such tile of it.
    Unservable,
    /// The store holds nothing there.
    Gone,
    /// What the store holds there is no container of the metatile.
    Spoilt(MetaFault),
    /// The store refused a read.
    GetFailed,
    /// There was no memory for a read.
    NoMemory,
}

/// How a tile's metatile stands, without its bytes.
#[derive(Clone, Copy)]
pub enum Looked {
    Clean(u64),
    Dirty(u64),
    Missing,
    Unservable,
}

/// What a front that collects its replies is answered.
#[derive(Clone, Copy)]
pub enum Collected {
    /// Its first reply.
    Reply(Reply),
    /// It has none, and the farm was stopped.
    Stopped,
    /// It has none.
    Empty,
}

/// What a farm counts: the asks with a render command; the asks that were answered Done or whose reply
/// Done was collected; the drawings stored; the data version.
#[derive(Clone, Copy)]
pub struct Tally {
    pub asks: u64,
    pub done: u64,
    pub stored: u64,
    pub version: u64,
}
