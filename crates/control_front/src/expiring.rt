//! The tiles of a list are expired.
ghost use Rattle.std.specs.Prelude.{◌≡◌, All, true, OnErr};
ghost use Rattle.front_loop.specs.Calls.{SameSeat};
ghost use Rattle.plain_world.specs.World.{IsTile};
ghost use Rattle.control_front.specs.inner.Doing.{Expired};

use farm_base::Worn;
use farm_shared::Expire;
use front_loop::Farm;
use plain_world::Tile;
use std::sync::Wait;

/// Expires these tiles in order, and answers how many clean metatiles became dirty by them.
pub fn expire_all<R: Wait, M: Farm>(
    rt: &R,
    farm: &M,
    seat: &mut M::Seat,
    tiles: &[Tile],
) -> Result<u64, Worn>
    requires seat { (M.seats farm.now).is_seat seat.old }
    requires tiles { All IsTile tiles.now }
    ensures seat { SameSeat (M.seats farm.now) seat.old seat.new }
    ensures worn { OnErr result ((M.seats farm.now).worn seat.new ≡ true) }
    ensures expired { Expired tiles.now ((M.seats farm.now).mine seat.old)
        ((M.seats farm.now).mine seat.new) result }
{
    let mut total: u64 = 0;
    for tile in tiles {
        let Ok(count) = farm.turn(rt, seat, Expire { tile: *tile }) else {
            return Err(Worn);
        };
        total = total.saturating_add(count);
    }
    Ok(total)
}
