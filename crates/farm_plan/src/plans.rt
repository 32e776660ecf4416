//! The plan of a farm.
use arrayvec::ArrayString;
use data_versions::{Dataset, Update};
use farm_history::Limits;
use plain_drawing::MapStyle;
use std::marker::Model;

/// A map: its name, which begins the paths of its metatiles, its style, how many pixels its tiles have side by
/// side, and its greatest zoom.
///
/// In a plan a name has 1 to 40 bytes of `a` to `z`, `0` to `9`, `_` and `-`, a tile has 16, 32, 64, 128, 256
/// or 512 pixels, and the greatest zoom is at most 18.
#[derive(Drop)]
pub struct MapPlan {
    pub name: ArrayString<40>,
    pub style: MapStyle,
    pub tile: u32,
    pub max_zoom: u32,
}

impl Model for MapPlan {
    ghost use Rattle.farm_plan.specs.Plans.{MapPlan};
    ghost use Rattle.plain_filters.specs.inner.FilterCodes.{filter_code};
    ghost use Rattle.std.specs.Coded.{codes};

    ghost Value = { MapPlan };

    ghost coded = { Prim.hlevel (codes, filter_code) };

    ghost view = { λ m. record {
      name = m.name.bytes;
      style = m.style;
      tile = m.tile;
      max_zoom = m.max_zoom;
    } };
}

/// A style that a map may be given later: the map, by its place in the plan, and the style.
#[derive(Drop)]
pub struct Restyle {
    pub map: u32,
    pub style: MapStyle,
}

impl Model for Restyle {
    ghost use Rattle.farm_plan.specs.Plans.{Restyle};
    ghost use Rattle.plain_filters.specs.inner.FilterCodes.{filter_code};
    ghost use Rattle.std.specs.Coded.{codes};

    ghost Value = { Restyle };

    ghost coded = { Prim.hlevel (codes, filter_code) };

    ghost view = { λ r. record { map = r.map; style = r.style } };
}

/// What a farm is started with. Maps, updates and styles go by their places in these lists.
///
/// A farm is started with a plan of 1 to 16 maps of distinct names, 1 to 16 workers, at most 256 updates, and
/// at most 256 styles that maps may be given later, each of a map of the plan. Its limits are 1 to 32 for each
/// queue, and 1 to 1,000 for the dirty one.
#[derive(Drop)]
pub struct FarmPlan {
    pub maps: Vec<MapPlan>,
    pub dataset: Dataset,
    pub updates: Vec<Update>,
    pub workers: u32,
    pub limits: Limits,
    pub restyles: Vec<Restyle>,
}

impl Model for FarmPlan {
    ghost use Rattle.farm_plan.specs.Plans.{FarmPlan};
    ghost use Rattle.plain_filters.specs.inner.FilterCodes.{filter_code};
    ghost use Rattle.std.specs.Coded.{codes};

    ghost Value = { FarmPlan };

    ghost coded = { Prim.hlevel (codes, filter_code) };

    ghost view = { λ p. record {
      maps = p.maps.items;
      dataset = p.dataset;
      updates = p.updates.items;
      workers = p.workers;
      limits = p.limits;
      restyles = p.restyles.items;
    } };
}
