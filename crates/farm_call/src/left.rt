//! What a command leaves.
ghost use Rattle.std.specs.Prelude.{◌≡◌, [], Err};
ghost use Rattle.farm_call.specs.declared.left.Left.TheVariants.{Store};

use exit_status::Stop;
use farm_shared::Closed;
use reactor_ports::FrontDone;
use std::alloc::Global;
use tile_store::TileStore;

/// What is left of the store that a command was handed.
#[derive(Drop)]
pub enum Left<D: TileStore> {
    /// The store, with what was put into it.
    Store(D),
    /// A farm over it that was shared by threads, with its whole history.
    Farm(Closed<D>),
}

/// How a command ended, and what it leaves.
#[derive(Drop)]
pub struct Done<D: TileStore> {
    /// Why it ended early, if it did.
    pub end: Result<(), Stop>,
    pub left: Left<D>,
    /// What the fronts of a farm answered, by their numbers. None where no front was started.
    pub fronts: Vec<FrontDone>,
}

/// The end of a command that started no front.
pub(crate) fn stop_with<D: TileStore>(alloc: Global, stop: Stop, store: D) -> Done<D>
    ensures end { result.end ≡ Err stop }
    ensures left { result.left ≡ Store store }
    ensures fronts { result.fronts.items ≡ [] }
{
    Done {
        end: Err(stop),
        left: Left::Store(store),
        fronts: Vec::new(alloc),
    }
}
