//! Shares of a farm's plan and of its data, so that a drawing keeps both while the farm goes on.
ghost use Rattle.std.specs.Prelude.{◌≡◌, ◌≤◌, ◌<◌, All, length, position, replicate, slice_get, option_map, Some, None, IfOk};
ghost use Rattle.std.specs.Option.{option_copied};
ghost use Rattle.std.specs.Str.{bytes_eq};
ghost use Rattle.farm_plan.specs.Plans.{AreRanged, IsPlan, IsRanged, maps_in};
ghost use Rattle.std.specs.Vec.{vec_capacity};
ghost use Rattle.farm_plan.specs.Drawings.{key_path, styled_as};
ghost use Rattle.farm_plan.specs.Spots.{IsKeyOf};
ghost use Rattle.render_jobs.specs.Shared.{ShareSeen};

use arrayvec::ArrayString;
use data_versions::{Snapshot, Update};
use farm_base::NoMemory;
use farm_plan::{FarmPlan, Key, Limits, MapPlan, Restyle};
use plain_drawing::MapStyle;
use std::alloc::Global;
use std::marker::Model;
use std::sync::Arc;
use tile_paths::path;

// Makes known what the styles of the maps keep.
fn know_maps(maps: &[MapPlan])
    ensures { All (λ m. IsRanged m.style) maps.now }
{
    for map in maps {
        map.style.know();
    }
}

// Makes known what the styles that may come keep.
fn know_restyles(restyles: &[Restyle])
    ensures { All (λ r. IsRanged r.style) restyles.now }
{
    for restyle in restyles {
        restyle.style.know();
    }
}

/// Makes known to a proof that the symbolizers of all styles of a plan are within their ranges, as those of every
/// style are. Nothing else happens.
pub fn know_plan(plan: &FarmPlan)
    ensures { AreRanged plan.now }
{
    know_maps(plan.maps.as_slice());
    know_restyles(plan.restyles.as_slice());
}

fn place_of(maps: &[MapPlan], name: &[u8]) -> Option<usize>
    ensures { result ≡ position (λ m. bytes_eq m.name name.now) maps.now }
{
    maps.iter()
        .position(|plan| plan.name.as_str().as_bytes() == name)
}

/// A farm's plan as it is kept for good: the data to begin with are its first snapshot.
#[derive(Drop)]
pub struct Setup {
    maps: Vec<MapPlan>,
    first: Snapshot,
    updates: Vec<Update>,
    workers: u32,
    limits: Limits,
    restyles: Vec<Restyle>,
}

impl Model for Setup {
    ghost use Rattle.farm_plan.specs.Plans.{FarmPlan};
    ghost use Rattle.plain_filters.specs.inner.FilterCodes.{filter_code};
    ghost use Rattle.std.specs.Coded.{codes};

    ghost Value = { FarmPlan };

    ghost coded = { Prim.hlevel (codes, filter_code) };

    ghost view = { λ s. record {
      maps = s.maps.items;
      dataset = s.first;
      updates = s.updates.items;
      workers = s.workers;
      limits = s.limits;
      restyles = s.restyles.items;
    } };
}

impl Setup {
    /// The plan, to be kept.
    pub fn of(alloc: Global, plan: FarmPlan) -> Result<Setup, NoMemory>
        ensures { IfOk result (λ s. s ≡ plan) }
    {
        let FarmPlan {
            maps,
            dataset,
            updates,
            workers,
            limits,
            restyles,
        } = plan;
        let first = Snapshot::first(alloc, dataset)?;
        Ok(Setup {
            maps,
            first,
            updates,
            workers,
            limits,
            restyles,
        })
    }

    /// What is true of the styles: the symbolizers of each are within their ranges.
    pub fn law_ranged(&self)
        ensures { AreRanged self.now }
    {
        know_maps(self.maps.as_slice());
        know_restyles(self.restyles.as_slice());
    }

    /// The maps, by their places.
    pub fn maps(&self) -> &[MapPlan]
        ensures { result.now ≡ self.now.maps }
    {
        self.maps.as_slice()
    }

    /// The map at the place.
    pub fn map(&self, map: u32) -> Option<&MapPlan>
        ensures { option_copied result ≡ slice_get self.now.maps map }
    {
        self.maps.get(map as usize)
    }

    /// The place of the map of the name.
    pub fn map_of(&self, name: &[u8]) -> Option<u32>
        requires { IsPlan self.now }
        ensures { result ≡ maps_in self.now name.now }
    {
        match place_of(self.maps.as_slice(), name) {
            Some(place) => Some(place as u32),
            None => None,
        }
    }

    /// The name of the map.
    pub fn map_name(&self, map: u32) -> &str
        requires { map < length self.now.maps }
        ensures { Some result.now ≡ option_map (λ m. m.name) (slice_get self.now.maps map) }
    {
        let plan = &self.maps[map as usize];
        plan.name.as_str()
    }

    /// How many pixels the tiles of the map have side by side.
    pub fn tile_size(&self, map: u32) -> u32
        requires { map < length self.now.maps }
        ensures { Some result ≡ option_map (λ mp. mp.tile) (slice_get self.now.maps map) }
    {
        let plan = &self.maps[map as usize];
        plan.tile
    }

    /// The path at which the metatile is stored.
    pub fn path(&self, key: Key) -> ArrayString<80>
        requires { IsKeyOf self.now key }
        ensures { result.bytes ≡ key_path self.now key }
    {
        let plan = &self.maps[key.map as usize];
        path(plan.name.as_str(), key.meta)
    }

    /// The update of the number.
    pub fn update(&self, number: u32) -> Option<&Update>
        ensures { option_copied result ≡ slice_get self.now.updates number }
    {
        self.updates.get(number as usize)
    }

    /// The style of the number.
    pub fn restyle(&self, number: u32) -> Option<&Restyle>
        ensures { option_copied result ≡ slice_get self.now.restyles number }
    {
        self.restyles.get(number as usize)
    }

    /// How many workers draw.
    pub fn workers(&self) -> u32
        ensures { result ≡ self.now.workers }
    {
        self.workers
    }

    /// The style that the map was last given, by its number, or else its own.
    pub fn style(&self, map: u32, styled: Option<u32>) -> &MapStyle
        requires { map < length self.now.maps }
        ensures { Some result.now
            ≡ option_map (λ mp. styled_as self.now mp styled) (slice_get self.now.maps map) }
    {
        let own = &self.maps[map as usize];
        let Some(number) = styled else {
            return &own.style;
        };
        match self.restyle(number) {
            Some(restyle) => &restyle.style,
            None => &own.style,
        }
    }
}

/// A share of the plan and of one version of the data.
#[derive(Drop)]
pub struct Share {
    setup: Arc<Setup>,
    snapshot: Snapshot,
}

impl Model for Share {
    ghost use Rattle.render_jobs.specs.Shared.{ShareSeen};
    ghost use Rattle.plain_filters.specs.inner.FilterCodes.{filter_code};
    ghost use Rattle.std.specs.Coded.{codes};

    ghost Value = { ShareSeen };

    ghost coded = { Prim.hlevel (codes, filter_code) };

    ghost view = { λ s. record { plan = s.setup.value; data_now = s.snapshot } };
}

impl Share {
    /// The first share of a plan: that of the data to begin with.
    pub fn first(alloc: Global, plan: FarmPlan) -> Result<Share, NoMemory>
        ensures { IfOk result (λ s. s ≡ record { plan = plan; data_now = plan.dataset }) }
    {
        let setup = Arc::new(alloc, Setup::of(alloc, plan)?)?;
        let snapshot = setup.first.share()?;
        Ok(Share { setup, snapshot })
    }

    /// One more share of the same.
    pub fn share(&self) -> Result<Share, NoMemory>
        ensures { IfOk result (λ s. s ≡ self.now) }
    {
        Ok(Share {
            setup: Arc::try_clone(&self.setup)?,
            snapshot: self.snapshot.share()?,
        })
    }

    /// A share of the same plan with other data.
    pub fn with(&self, snapshot: Snapshot) -> Result<Share, NoMemory>
        ensures { IfOk result (λ s. s ≡ record { plan = self.now.plan; data_now = snapshot }) }
    {
        Ok(Share {
            setup: Arc::try_clone(&self.setup)?,
            snapshot,
        })
    }

    /// The plan.
    pub fn setup(&self) -> &Setup
        ensures { result.now ≡ self.now.plan }
    {
        &self.setup
    }

    /// The data.
    pub fn snapshot(&self) -> &Snapshot
        ensures { result.now ≡ self.now.data_now }
    {
        &self.snapshot
    }
}

/// So many shares of the same, in a vector that has room for as many.
#[tactic(auto, using(crate::proofs::Replicas::replicate_push))]
pub fn make_shares(alloc: Global, share: &Share, count: u32) -> Result<Vec<Share>, NoMemory>
    ensures { IfOk result
        (λ made. (made.items ≡ replicate count share.now) × (count ≤ vec_capacity made)) }
{
    let mut made = Vec::with_capacity(alloc, count as usize)?;
    for _n in 0..count {
        made.push_reserved(share.share()?);
    }
    Ok(made)
}
