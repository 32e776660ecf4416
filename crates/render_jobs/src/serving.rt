//! Which spots a farm can serve.
ghost use Rattle.std.specs.Prelude.{◌≡◌, is_some, IfSome};
ghost use Rattle.plain_world.specs.World.{IsTile};
ghost use Rattle.farm_history.specs.Plans.{is_servable, key_of, spot_tile};
ghost use Rattle.farm_plan.specs.Plans.{IsPlan};
ghost use Rattle.farm_plan.specs.Drawings.{plan_of};
ghost use Rattle.farm_plan.specs.Spots.{IsKeyOf};

use crate::shares::Setup;
use farm_plan::{Key, Spot};
use merc_fixed::{meta_of, tile};
use plain_world::Tile;

/// The metatile of a spot, and its tile; nothing exactly where the spot cannot be served: its map is not given or
/// not in the plan, its zoom is past the map's greatest, or its column or row past the zoom's.
pub fn serve(setup: &Setup, spot: Spot) -> Option<(Key, Tile)>
    requires { IsPlan setup.now }
    ensures served { is_some result ≡ is_servable (plan_of setup.now) spot }
    ensures key { IfSome result (λ it. (it.0 ≡ key_of spot) × IsKeyOf setup.now it.0) }
    ensures tile { IfSome result (λ it. (it.1 ≡ spot_tile spot) × IsTile it.1) }
{
    let map = spot.map?;
    let plan = setup.map(map)?;
    if spot.z > plan.max_zoom {
        return None;
    }
    let tile = tile(spot.z, spot.x, spot.y)?;
    let key = Key {
        map,
        meta: meta_of(tile),
    };
    Some((key, tile))
}
