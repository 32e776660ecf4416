//! Tiles that are read, and metatiles that are looked at.
ghost use Rattle.std.specs.Prelude.{◌≡◌, ◌<◌, ◌^◌, Bool, List, ◌∷◌};
ghost use Rattle.farm_history.specs.Entries.{Entry, Fetch, Look};
ghost use Rattle.farm_history.specs.Plans.{is_servable, key_of};
ghost use Rattle.farm_plan.specs.Drawings.{plan_of};
ghost use Rattle.expiry_lists.specs.Marks.{mark_of};
ghost use Rattle.farm_core.specs.Answers.{Lasts, Reads};
ghost use Rattle.farm_refinement.specs.Stands.{StandsFor};
ghost use Rattle.plain_world.specs.World.{IsTile, meta_of, index_place};
ghost use Rattle.farm_plan.specs.Spots.{IsKeyOf};
ghost use Rattle.farm_core.specs.inner.Effects.{Fetches, refused_by};
ghost use Rattle.farm_refinement.specs.Reads.{ReadsTile};
ghost use Rattle.farm_refinement.specs.inner.Events.{look_at, looked_by};

use crate::farm::Farm;
use farm_base::{Bytes, MetaFault};
use farm_plan::{Fetched, Key, Looked, Mark, Spot};
use merc_fixed::index_place;
use meta_container::{HEAD_BYTES, entry_in};
use plain_world::{Meta, Tile};
use render_jobs::serve;
use std::alloc::Global;
use tile_store::{StoreFault, TileStore};

fn refused(fault: StoreFault) -> Fetched
    ensures { result ≡ refused_by fault }
{
    match fault {
        StoreFault::Failed => Fetched::GetFailed,
        StoreFault::NoMemory => Fetched::NoMemory,
    }
}

// How long the head of an answer over HTTP is at least, with a length and a version of one digit.
const LEAST_HEAD: u32 = 125;

// Before the tile's bytes room is left for the head of an answer with them, as far as the container has bytes there, so that
// they need not be copied behind it. No clause hangs on how much.
fn read_tile<D: TileStore>(
    alloc: Global,
    store: &mut D,
    path: &str,
    meta: Meta,
    tile: Tile,
    version: u64,
) -> Result<Bytes, Fetched>
    requires tile { IsTile tile }
    requires place { meta_of tile ≡ meta }
    ensures { ReadsTile (D.state store.old) (D.state store.new)
        path.now meta (index_place tile) result }
{
    let head = match store.get_part(alloc, path, 0, HEAD_BYTES as u32) {
        Ok(Some(head)) => head,
        Ok(None) => return Err(Fetched::Gone),
        Err(fault) => return Err(refused(fault)),
    };
    let entry = match entry_in(head.as_slice(), meta, tile) {
        Ok(entry) => entry,
        Err(fault) => return Err(Fetched::Spoilt(fault)),
    };
    let more = version.checked_ilog10().unwrap_or(0);
    let much = entry.size.checked_ilog10().unwrap_or(0);
    let head = LEAST_HEAD.saturating_add(more).saturating_add(much);
    let room = head.min(entry.offset).min(u32::MAX - entry.size);
    let offset = u64::from(entry.offset - room);
    match store.get_part(alloc, path, offset, room + entry.size) {
        Ok(Some(part)) => {
            let before = (room as usize).min(part.len());
            let left = part.len() - before;
            if left < entry.size as usize {
                Err(Fetched::Spoilt(MetaFault::Index(index_place(tile))))
            } else {
                Ok(Bytes::behind_room(part, before))
            }
        }
        Ok(None) => Err(Fetched::Gone),
        Err(fault) => Err(refused(fault)),
    }
}

fn looked_by(mark: Option<Mark>) -> Looked
    ensures { result ≡ looked_by mark }
{
    match mark {
        None => Looked::Missing,
        Some(mark) => {
            if mark.clean {
                Looked::Clean(mark.version)
            } else {
                Looked::Dirty(mark.version)
            }
        }
    }
}

impl<D> Farm<D> {
    fn standing(&self, spot: Spot) -> Looked
        ensures { result ≡ look_at self.now spot }
    {
        match serve(self.own.setup(), spot) {
            Some((key, _)) => looked_by(self.marks.of(key)),
            None => Looked::Unservable,
        }
    }
}

impl<D: TileStore> Farm<D> {
    fn read(&mut self, alloc: Global, key: Key, tile: Tile, mark: Mark) -> Fetched
        requires key { IsKeyOf self.old.plan key }
        requires tile { IsTile tile }
        requires place { meta_of tile ≡ key.meta }
        ensures { Fetches D.state self.old self.new key (index_place tile) mark result }
    {
        let path = self.own.setup().path(key);
        let version = mark.version;
        match read_tile(
            alloc,
            &mut self.store,
            path.as_str(),
            key.meta,
            tile,
            version,
        ) {
            Ok(bytes) if mark.clean => Fetched::Clean(mark.version, bytes),
            Ok(bytes) => Fetched::Dirty(mark.version, bytes),
            Err(answer) => answer,
        }
    }
}

impl<D: TileStore> Farm<D> {
    /// How a spot's metatile stands: Unservable where its map is not given or not in the plan, its zoom is past
    /// the map's greatest, or its column or row past the zoom's; Missing where it is not shown; else Clean or
    /// Dirty with the data version of what is shown.
    pub fn look(&mut self, spot: Spot) -> Looked
        requires { self.old.counts.turns < 2 ^ 63 }
        ensures step { (store_tells : Bool) (h : List Entry)
            → StandsFor D.state store_tells self.old h
            → StandsFor D.state store_tells self.new (Look spot result ∷ h) }
        ensures kept { Lasts D.state self.old self.new }
        ensures store { self.new.store ≡ self.old.store }
    {
        self.count_turn();
        self.standing(spot)
    }

    /// The bytes of a spot's tile, as the store holds them, with how its metatile stands. It reads the head of
    /// the metatile's container and, by it, the tile's part. Unservable and Missing as `look`; GetFailed where a
    /// read Failed; NoMemory where one found none; Gone where one found nothing; Spoilt where the head is none,
    /// with its first fault, or where the part is cut off: each, where the store tells what it holds, exactly as
    /// that says. Where the store has told it since the start neither Gone nor Spoilt comes, and the bytes are
    /// the plain drawing in the style and over the data of the claim of what is shown.
    pub fn fetch(&mut self, alloc: Global, spot: Spot) -> Fetched
        requires { self.old.counts.turns < 2 ^ 63 }
        ensures step { (store_tells : Bool) (h : List Entry)
            → StandsFor D.state store_tells self.old h
            → StandsFor D.state store_tells self.new (Fetch spot result ∷ h) }
        ensures kept { Lasts D.state self.old self.new }
        ensures reads { Reads D.state self.old self.new spot result
            (is_servable (plan_of self.old.plan) spot)
            (mark_of self.old.marks.shown (key_of spot)) }
    {
        self.count_turn();
        let Some((key, tile)) = serve(self.own.setup(), spot) else {
            return Fetched::Unservable;
        };
        let Some(mark) = self.marks.of(key) else {
            return Fetched::Missing;
        };
        self.read(alloc, key, tile, mark)
    }
}
