//! Drawings to be made.
ghost use Rattle.std.specs.Prelude.{◌≡◌, ◌<◌, length, slice_get, option_map, Some};
ghost use Rattle.farm_plan.specs.Jobs.{job_key, job_style};

use crate::shares::Share;
use data_versions::Snapshot;
use farm_plan::Key;
use plain_drawing::MapStyle;
use plain_world::Meta;
use std::marker::Model;

/// A drawing to be made: its ticket, the worker that claimed it, the map by its place, the metatile, how many
/// pixels its tiles have side by side, and the version of the data. It shares the map's style and the data as
/// they were at the claim.
#[derive(Drop)]
pub struct Job {
    pub ticket: u64,
    pub worker: u32,
    pub map: u32,
    pub meta: Meta,
    pub tile: u32,
    pub version: u64,
    styled: Option<u32>,
    share: Share,
}

impl Model for Job {
    ghost use Rattle.std.specs.Prelude.{◌<◌, length};
    ghost use Rattle.farm_plan.specs.Jobs.{JobSeen};
    ghost use Rattle.plain_filters.specs.inner.FilterCodes.{filter_code};
    ghost use Rattle.std.specs.Coded.{codes};

    ghost Value = { JobSeen };

    ghost coded = { Prim.hlevel (codes, filter_code) };

    ghost view = { λ j. record {
      ticket = j.ticket;
      worker = j.worker;
      map = j.map;
      meta = j.meta;
      tile = j.tile;
      version = j.version;
      styled = j.styled;
      plan = j.share.plan;
      data_now = j.share.data_now;
    } };

    ghost invariant = { λ j. j.map < length j.share.plan.maps };
}

impl Job {
    /// The job of a metatile, over the data of a share, in the style of the number or else the map's own.
    pub fn new(
        share: Share,
        ticket: u64,
        worker: u32,
        key: Key,
        version: u64,
        styled: Option<u32>,
    ) -> Job
        requires { key.map < length share.plan.maps }
        ensures job { result ≡ record {
          ticket = ticket;
          worker = worker;
          map = key.map;
          meta = key.meta;
          tile = result.tile;
          version = version;
          styled = styled;
          plan = share.plan;
          data_now = share.data_now;
        } }
        ensures tile { Some result.tile
            ≡ option_map (λ mp. mp.tile) (slice_get share.plan.maps key.map) }
    {
        let tile = share.setup().tile_size(key.map);
        Job {
            ticket,
            worker,
            map: key.map,
            meta: key.meta,
            tile,
            version,
            styled,
            share,
        }
    }

    /// The metatile, with its map.
    pub fn key(&self) -> Key
        ensures { result ≡ job_key self.now }
    {
        Key {
            map: self.map,
            meta: self.meta,
        }
    }

    /// What it shares of its farm; the job is over.
    pub fn into_share(self) -> Share
        ensures { result ≡ record { plan = self.plan; data_now = self.data_now } }
    {
        self.share
    }

    /// The map's style as it was at the claim.
    pub fn style(&self) -> &MapStyle
        ensures { Some result.now ≡ job_style self.now }
    {
        self.share.setup().style(self.map, self.styled)
    }

    /// The data as they were at the claim.
    pub fn snapshot(&self) -> &Snapshot
        ensures { result.now ≡ self.now.data_now }
    {
        self.share.snapshot()
    }
}
