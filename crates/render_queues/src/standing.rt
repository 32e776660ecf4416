//! Where a metatile stands.
use farm_history::Queue;

/// Where a metatile stands.
#[derive(Clone, Copy)]
pub enum Standing {
    /// It waits in that queue.
    Waits(Queue),
    /// It was taken and has not ended.
    Taken,
}
