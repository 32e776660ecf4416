//! What a connection asks for, and what was done for it.
use farm_history::{AskAnswer, Fetched, Looked, Spot};

/// What a connection asks for.
#[derive(Clone, Copy)]
pub enum HttpAsk {
    /// No head of a request came.
    Bad,
    /// Its method is not `GET`.
    NotGet,
    /// Its target is that of no tile.
    NoTarget,
    /// The tile.
    Tile(Spot),
    /// How the tile stands.
    Status(Spot),
    /// That the tile be drawn anew.
    Dirty(Spot),
}

/// An ask that was done, with the answers that it got. No value of it is made.
#[derive(Drop)]
pub enum Act {
    /// Nothing was asked of the farm.
    Refused(HttpAsk),
    /// The tile was asked for, and it has not been fetched.
    Asked(Spot, AskAnswer),
    /// The tile was asked for and fetched at once.
    Served(Spot, AskAnswer, Fetched),
    /// It was looked at.
    Seen(Spot, Looked),
    /// It was made dirty.
    Marked(Spot, AskAnswer),
}
