//! The bounding boxes of the features that an update names.
ghost use Rattle.std.specs.Prelude.{◌≡◌, ◌≤◌, ◌∷◌, ◌++◌, [], flat_map, position, OnOk, IfOk, IsPermutation};
ghost use Rattle.std.specs.Str.{bytes_eq};
ghost use Rattle.plain_world.specs.World.{IsMeta, IsTileSize, meta_square};
ghost use Rattle.plain_shapes.specs.Data.{ids_of};
ghost use Rattle.farm_history.specs.Lists.{Each};
ghost use Rattle.reach_box.specs.Boxes.{IsBox};
ghost use Rattle.farm_plan.specs.Drawings.{features_in, named};
ghost use Rattle.reach_box.specs.NamedBoxes.{AreBoxesOf, boxes_reach};
ghost use Rattle.reach_box.specs.inner.Lookups.{Adds, at_id, met_by};

use crate::box_of;
use data_versions::{Change, Feature, LayerFinder, Snapshot, Update};
use expiry_lists::{margin_of, some_comes_near};
use farm_base::NoMemory;
use geo_model::Bounds;
use merc_fixed::meta_square;
use plain_world::Meta;
use std::alloc::Global;

fn add_box(boxes: &mut Vec<Bounds>, f: &Feature) -> Result<(), NoMemory>
    ensures { OnOk result (Adds (f.now ∷ []) boxes.old.items boxes.new.items) }
{
    boxes.push(box_of(f))?;
    Ok(())
}

fn add_old(boxes: &mut Vec<Bounds>, layer: &LayerFinder<'_>, id: u64) -> Result<(), NoMemory>
    ensures { OnOk result (Adds (at_id layer.now.features id) boxes.old.items boxes.new.items) }
{
    match layer.place_of(id) {
        Some(place) => add_box(boxes, layer.get(place).unwrap()),
        None => Ok(()),
    }
}

fn add_by_ids(boxes: &mut Vec<Bounds>, layer: &LayerFinder<'_>, ids: &[u64]) -> Result<(), NoMemory>
    ensures { OnOk result
        (Adds (flat_map (at_id layer.now.features) ids.now) boxes.old.items boxes.new.items) }
{
    for id in ids {
        add_old(boxes, layer, *id)?;
    }
    Ok(())
}

// The ids that a change removes or puts, in order: features that stand side by side are then looked for one after
// another, in memory that is still at hand.
fn named_ids(alloc: Global, removed: &[u64], puts: &[Feature]) -> Result<Vec<u64>, NoMemory>
    ensures { IfOk result (λ ids. IsPermutation (removed.now ++ ids_of puts.now) ids.items) }
{
    let mut ids = Vec::new(alloc);
    ids.extend_from_slice(removed)?;
    for f in puts {
        ids.push(f.id())?;
    }
    ids.sort_unstable();
    Ok(ids)
}

fn add_new(boxes: &mut Vec<Bounds>, puts: &[Feature]) -> Result<(), NoMemory>
    ensures { OnOk result (Adds puts.now boxes.old.items boxes.new.items) }
{
    for f in puts {
        add_box(boxes, f)?;
    }
    Ok(())
}

fn add_changed(
    alloc: Global,
    boxes: &mut Vec<Bounds>,
    layer: &LayerFinder<'_>,
    change: &Change,
) -> Result<(), NoMemory>
    ensures { OnOk result
        (Adds (met_by layer.now.features change.now) boxes.old.items boxes.new.items) }
{
    let puts = change.put.as_slice();
    let ids = named_ids(alloc, change.remove.as_slice(), puts)?;
    add_by_ids(boxes, layer, ids.as_slice())?;
    add_new(boxes, puts)
}

fn place_named(layers: &[LayerFinder<'_>], name: &str) -> Option<usize>
    ensures { result ≡ position (λ l. bytes_eq l.name name.now) layers.now }
{
    layers.iter().position(|layer| layer.is_named(name))
}

fn add_named(
    alloc: Global,
    boxes: &mut Vec<Bounds>,
    layers: &mut [LayerFinder<'_>],
    change: &Change,
) -> Result<(), NoMemory>
    ensures same { layers.new ≡ layers.old }
    ensures added { OnOk result (Adds (met_by (features_in layers.old change.now.layer) change.now)
        boxes.old.items boxes.new.items) }
{
    match place_named(layers, change.layer.as_str()) {
        Some(at) => {
            let layer = &mut layers[at];
            layer.expect(alloc, change.remove.len().saturating_add(change.put.len()))?;
            add_changed(alloc, boxes, layer, change)
        }
        None => add_new(boxes, change.put.as_slice()),
    }
}

/// The boxes of the features that the update names over the data of the snapshot: of the old features whose
/// ids it removes or puts, and of those that it puts. Together they reach what these features reach.
pub fn named_boxes(
    alloc: Global,
    snapshot: &Snapshot,
    update: &Update,
) -> Result<Vec<Bounds>, NoMemory>
    ensures sound { IfOk result (λ v. Each IsBox v.items) }
    ensures named { IfOk result (λ v. AreBoxesOf (named snapshot.now update.now) v.items) }
{
    let mut boxes = Vec::new(alloc);
    let mut layers = snapshot.finders(alloc)?;
    for change in update.changes() {
        add_named(alloc, &mut boxes, layers.as_mut_slice(), change)?;
    }
    Ok(boxes)
}

/// Whether some of the boxes reaches the metatile, for tiles of `size` by `size` pixels.
pub fn boxes_reach(boxes: &[Bounds], size: u32, m: Meta) -> bool
    requires size { IsTileSize size }
    requires meta { IsMeta m }
    ensures { result ≡ boxes_reach boxes.now size m.z (meta_square m) }
{
    some_comes_near(boxes, margin_of(size, m.z), meta_square(m))
}
