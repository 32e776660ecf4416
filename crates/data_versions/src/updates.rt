//! An update gives the next snapshot.
ghost use Rattle.std.specs.Prelude.{◌≡◌, ◌≢◌, ◌≤◌, length, position, IfOk, OnOk, IfErr, Some, None, Ok, Err};
ghost use Rattle.std.specs.Str.{bytes_eq};
ghost use Rattle.std.specs.List.{IsDistinct};
ghost use Rattle.plain_shapes.specs.Data.{names_of, layers_after, change_fault, update_result};
ghost use Rattle.plain_shapes.specs.Limits.{most_features, most_data_layers};

use crate::dataset::{Change, Update};
use crate::edited::{EditedLayer, no_memory};
use crate::snapshot::Snapshot;
use farm_base::{ApplyFault, NoMemory};
use std::alloc::Global;

fn place_named(edited_layers: &[EditedLayer<'_>], name: &str) -> Option<usize>
    ensures { result ≡ position (λ l. bytes_eq l.name name.now) edited_layers.now }
{
    edited_layers
        .iter()
        .position(|edited| edited.is_named(name))
}

#[tactic(auto, using(crate::proofs::Named::named_place, crate::proofs::Named::changed_place, crate::proofs::Named::unnamed))]
fn change_one<'a>(
    alloc: Global,
    edited_layers: &mut [EditedLayer<'a>],
    place: u32,
    change: &'a Change,
) -> Result<(), ApplyFault>
    ensures done { OnOk result (edited_layers.new ≡ layers_after change.now edited_layers.old) }
    ensures right { OnOk result (change_fault place change.now edited_layers.old ≡ None) }
    ensures refused { IfErr result
        (λ e. e ≢ ApplyFault.NoMemory → change_fault place change.now edited_layers.old ≡ Some e) }
{
    match place_named(edited_layers, change.layer.as_str()) {
        Some(at) => {
            let edited = &mut edited_layers[at];
            edited.change(alloc, place, change)
        }
        None => Err(ApplyFault::NoLayer(place)),
    }
}

#[tactic(auto, using(crate::proofs::Named::changed_more, crate::proofs::Named::changed_stops, crate::proofs::Named::changed_end, crate::proofs::Named::names_changed))]
fn change_all<'a>(
    alloc: Global,
    edited_layers: &mut [EditedLayer<'a>],
    changes: &'a [Change],
) -> Result<(), ApplyFault>
    requires { length changes.now ≤ most_features }
    ensures done { OnOk result
        (update_result changes.now edited_layers.old ≡ Ok edited_layers.new) }
    ensures names { OnOk result (names_of edited_layers.new ≡ names_of edited_layers.old) }
    ensures refused { IfErr result
        (λ e. e ≢ ApplyFault.NoMemory → update_result changes.now edited_layers.old ≡ Err e) }
{
    for (place, change) in changes.iter().enumerate() {
        change_one(alloc, edited_layers, place as u32, change)?;
    }
    Ok(())
}

fn finish(alloc: Global, edited_layers: &[EditedLayer<'_>]) -> Result<Snapshot, NoMemory>
    requires few { length edited_layers.now ≤ most_data_layers }
    requires distinct { IsDistinct bytes_eq (names_of edited_layers.now) }
    ensures { IfOk result (λ next. next ≡ edited_layers.now) }
{
    let mut shared = Vec::with_capacity(alloc, edited_layers.len())?;
    for edited in edited_layers {
        shared.push(edited.finish(alloc)?)?;
    }
    Snapshot::of(alloc, shared)
}

/// The snapshot after the update's changes in order, within each the removals in order and then the puts in
/// order: a put with a known id replaces in place, and one with a new id goes last. Else the first fault in
/// order: a change of a layer that there is not, a removal of an id that its layer does not hold (any more),
/// a put that would give its layer more than 1,000,000 features. The old snapshot stays as it is, and the two
/// share the layers, and in a changed layer the segments and chunks, in which nothing changed.
#[tactic(auto, using(crate::proofs::Named::dataset_kept))]
pub fn apply(alloc: Global, old: &Snapshot, update: &Update) -> Result<Snapshot, ApplyFault>
    ensures done { IfOk result (λ next. update_result update.now old.now ≡ Ok next) }
    ensures refused { IfErr result
        (λ e. e ≢ ApplyFault.NoMemory → update_result update.now old.now ≡ Err e) }
{
    let mut edited_layers = EditedLayer::all(alloc, old.shared()).map_err(no_memory)?;
    change_all(alloc, edited_layers.as_mut_slice(), update.changes())?;
    finish(alloc, edited_layers.as_slice()).map_err(no_memory)
}
