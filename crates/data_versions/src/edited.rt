//! The layers of a snapshot while an update changes them.
ghost use Rattle.std.specs.Prelude.{◌≡◌, ◌≢◌, ◌≤◌, true, false, length, All, IfOk, OnOk, IfErr, Some, None, option_map, unwrap_or};
ghost use Rattle.std.specs.Arc.{arc_value};
ghost use Rattle.std.specs.Str.{bytes_eq};
ghost use Rattle.plain_shapes.specs.Data.{ids_of, without_ids, first_missing, is_too_many, with_puts, with_change, features_fault, changed_layer, IsLayer};
ghost use Rattle.plain_shapes.specs.Limits.{most_features};
ghost use Rattle.data_versions.specs.Shared.{shared_layers};

use crate::chunked::ChunkedLayer;
use crate::dataset::Change;
use crate::edit::LayerEdit;
use farm_base::{ApplyFault, NoMemory};
use geo_model::Feature;
use std::alloc::Global;
use std::marker::Model;
use std::sync::Arc;

pub(crate) fn no_memory(_refused: NoMemory) -> ApplyFault
    ensures { result ≡ ApplyFault.NoMemory }
{
    ApplyFault::NoMemory
}

#[tactic(auto, using(crate::proofs::Changes::kept_more, crate::proofs::Changes::missing_more, crate::proofs::Changes::missing_now, crate::proofs::Changes::kept_end, crate::proofs::Changes::missing_end))]
fn remove_all(edit: &mut LayerEdit<'_>, place: u32, ids: &[u64]) -> Result<(), ApplyFault>
    ensures found { OnOk result (first_missing (ids_of edit.old) ids.now ≡ None) }
    ensures gone { OnOk result (edit.new ≡ without_ids ids.now edit.old) }
    ensures missing { IfErr result (λ e. e ≢ ApplyFault.NoMemory → option_map
        (λ id. ApplyFault.NoFeature place id) (first_missing (ids_of edit.old) ids.now) ≡ Some e) }
{
    for id in ids {
        if !edit.remove(*id).map_err(no_memory)? {
            return Err(ApplyFault::NoFeature(place, *id));
        }
    }
    Ok(())
}

#[tactic(auto, using(crate::proofs::Changes::puts_more, crate::proofs::Changes::puts_end, crate::proofs::Changes::puts_full))]
fn put_all<'a>(edit: &mut LayerEdit<'a>, place: u32, puts: &'a [Feature]) -> Result<(), ApplyFault>
    ensures done { OnOk result (edit.new ≡ with_puts puts.now edit.old) }
    ensures fits { OnOk result (is_too_many (with_puts puts.now edit.old) ≡ false) }
    ensures cause { IfErr result (λ e. e ≢ ApplyFault.NoMemory → e ≡ ApplyFault.TooMany place) }
    ensures full { IfErr result
        (λ e. e ≢ ApplyFault.NoMemory → is_too_many (with_puts puts.now edit.old) ≡ true) }
{
    for feature in puts {
        if !edit.put(feature).map_err(no_memory)? {
            return Err(ApplyFault::TooMany(place));
        }
    }
    // Read for what `len` ensures: the edit holds at most 1,000,000 features.
    let _count = edit.len();
    Ok(())
}

fn make_change<'a>(
    alloc: Global,
    edit: &mut LayerEdit<'a>,
    place: u32,
    change: &'a Change,
) -> Result<(), ApplyFault>
    ensures done { OnOk result (edit.new ≡ with_change change.now edit.old) }
    ensures right { OnOk result (features_fault place change.now edit.old ≡ None) }
    ensures refused { IfErr result
        (λ e. e ≢ ApplyFault.NoMemory → features_fault place change.now edit.old ≡ Some e) }
{
    let ids = change.remove.len().saturating_add(change.put.len());
    edit.expect(alloc, ids).map_err(no_memory)?;
    remove_all(edit, place, change.remove.as_slice())?;
    put_all(edit, place, change.put.as_slice())
}

fn begun_edit<'a>(
    alloc: Global,
    layer: &'a ChunkedLayer,
    edit: Option<LayerEdit<'a>>,
) -> LayerEdit<'a>
    requires { IsLayer layer.now }
    ensures { result ≡ unwrap_or edit.entry layer.now.features }
{
    match edit {
        Some(edit) => edit,
        None => LayerEdit::of(alloc, layer),
    }
}

/// A layer of a snapshot, and its features under edit from its first change on. Contracts see it as the
/// layer that it is now.
#[derive(Drop)]
pub(crate) struct EditedLayer<'a> {
    shared: &'a Arc<ChunkedLayer>,
    edit: Option<LayerEdit<'a>>,
}

impl<'a> Model for EditedLayer<'a> {
    ghost use Rattle.std.specs.Prelude.{unwrap_or};
    ghost use Rattle.plain_shapes.specs.Features.{Layer};
    ghost use Rattle.plain_shapes.specs.Data.{IsLayer};

    ghost Value = { Layer };

    ghost view = { λ d. record {
      name = d.shared.now.value.name;
      features = unwrap_or d.edit d.shared.now.value.features;
    } };

    ghost invariant = { λ d. IsLayer d.shared.now.value };
}

impl<'a> EditedLayer<'a> {
    /// The layers, unchanged so far.
    pub(crate) fn all(
        alloc: Global,
        layers: &'a [Arc<ChunkedLayer>],
    ) -> Result<Vec<EditedLayer<'a>>, NoMemory>
        requires { All IsLayer (shared_layers layers.now) }
        ensures { IfOk result (λ edited_layers. edited_layers.items ≡ shared_layers layers.now) }
    {
        let mut edited_layers = Vec::with_capacity(alloc, layers.len())?;
        for shared in layers {
            edited_layers.push(EditedLayer { shared, edit: None })?;
        }
        Ok(edited_layers)
    }

    /// Whether the layer has the name.
    pub(crate) fn is_named(&self, name: &str) -> bool
        ensures { result ≡ bytes_eq self.now.name name.now }
    {
        let layer: &ChunkedLayer = self.shared;
        layer.name() == name
    }

    /// Does the change, which stands at this place of its update. After a refusal the layer is of no more
    /// use.
    pub(crate) fn change(
        &mut self,
        alloc: Global,
        place: u32,
        change: &'a Change,
    ) -> Result<(), ApplyFault>
        ensures done { OnOk result (self.new ≡ changed_layer change.now self.old) }
        ensures right { OnOk result (features_fault place change.now self.old.features ≡ None) }
        ensures refused { IfErr result (λ e. e ≢ ApplyFault.NoMemory
            → features_fault place change.now self.old.features ≡ Some e) }
    {
        let layer: &'a ChunkedLayer = self.shared;
        let mut edit = begun_edit(alloc, layer, self.edit.take());
        let made = make_change(alloc, &mut edit, place, change);
        self.edit = Some(edit);
        made
    }

    /// The layer as it is now, which shares all with the old one where nothing changed it.
    pub(crate) fn finish(&self, alloc: Global) -> Result<Arc<ChunkedLayer>, NoMemory>
        ensures layer { IfOk result (λ shared. arc_value shared ≡ self.now) }
        ensures valid { OnOk result (IsLayer self.now) }
    {
        let layer: &ChunkedLayer = self.shared;
        match &self.edit {
            None => Ok(Arc::try_clone(self.shared)?),
            Some(edit) => {
                // Read for what `len` ensures: the ids are distinct, and there are at most 1,000,000 features.
                let _count = edit.len();
                edit.shared(alloc, layer.name())
            }
        }
    }
}
