//! Configurations: the maps of a farm, its files, its workers and queues, and where it listens.
use arrayvec::ArrayString;
use farm_base::Text;
use farm_history::Limits;
use std::marker::Model;

/// A map: its name of 1 to 40 bytes of `a` to `z`, `0` to `9`, `_` and `-`, the name of its style's
/// file, the width and height of its tiles, 16, 32, 64, 128, 256 or 512 pixels, and the greatest zoom
/// at which they are drawn, at most 18.
#[derive(Drop)]
pub struct MapEntry {
    pub name: ArrayString<40>,
    pub style: Text,
    pub tile: u32,
    pub max_zoom: u32,
}

impl Model for MapEntry {
    ghost use Rattle.farm_config.specs.Configs.{MapEntry, IsMapEntry};

    ghost Value = { MapEntry };

    ghost view = { λ m. record {
      name = m.name.bytes;
      style = m.style;
      tile = m.tile;
      max_zoom = m.max_zoom;
    } };

    ghost invariant = { λ m. IsMapEntry m.name.bytes m.tile m.max_zoom };
}

/// Another style for a map: the map by its place, and the name of the style's file.
#[derive(Drop)]
pub struct RestyleEntry {
    pub map: u32,
    pub style: Text,
}

/// A configuration: 1 to 16 maps with distinct names, the names of the files of data, updates and
/// expiry lists, at most 256 of each, 1 to 16 workers, the limits of the queues, each from 1 to 32 and
/// that of `dirty` to 1,000, the addresses of the three fronts, at most 256 restyles of maps that are
/// there, and whether a saved farm is resumed.
#[derive(Drop)]
pub struct Config {
    pub maps: Vec<MapEntry>,
    pub dataset: Text,
    pub updates: Vec<Text>,
    pub expiries: Vec<Text>,
    pub workers: u32,
    pub limits: Limits,
    pub renderd: Option<Text>,
    pub tiles: Option<Text>,
    pub control: Option<Text>,
    pub restyles: Vec<RestyleEntry>,
    pub resume: bool,
}

impl Model for Config {
    ghost use Rattle.farm_config.specs.Configs.{Config, IsConfig};

    ghost Value = { Config };

    ghost view = { λ c. record {
      maps = c.maps.items;
      dataset = c.dataset;
      updates = c.updates.items;
      expiries = c.expiries.items;
      workers = c.workers;
      limits = c.limits;
      renderd = c.renderd;
      tiles = c.tiles;
      control = c.control;
      restyles = c.restyles.items;
      resume = c.resume;
    } };

    ghost invariant = { λ c. IsConfig c.maps.items c.updates.items c.expiries.items c.workers c.limits c.restyles.items };
}
