//! How a call ends.
ghost use Rattle.std.specs.Prelude.{◌≡◌};

use crate::left::Left;
use reactor_ports::FrontDone;
use tile_store::TileStore;

/// How a call ended.
#[derive(Drop)]
pub struct FarmEnd<D: TileStore> {
    /// The exit status.
    pub status: u8,
    pub left: Left<D>,
    /// What the fronts of a farm handed back, by their numbers. None where no front was started.
    pub fronts: Vec<FrontDone>,
}

impl<D: TileStore + Drop> FarmEnd<D> {
    /// The exit status alone; what is left is let go.
    pub fn into_status(self) -> u8
        ensures { result ≡ self.status }
    {
        let status = self.status;
        drop(self);
        status
    }
}
