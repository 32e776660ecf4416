//! A layer while an update changes it.
ghost use Rattle.std.specs.Prelude.{◌≡◌, ◌≤◌, ◌<◌, ◌∷◌, ◌++◌, [], true, false, nat_eq, length, IfOk, OnOk};
ghost use Rattle.std.specs.List.{IsDistinct};
ghost use Rattle.std.specs.Arc.{arc_value};
ghost use Rattle.plain_shapes.specs.Limits.{most_features};
ghost use Rattle.plain_shapes.specs.Data.{has_id, ids_of, IsLayer};
ghost use Rattle.data_versions.specs.inner.Slots.{without, replaced_by, with_put};

use crate::chunked::ChunkedLayer;
use crate::finder::LayerFinder;
use crate::slot::slot_of;
use crate::slots::Slots;
use farm_base::{NoMemory, Text};
use geo_model::Feature;
use plain_shapes::MOST_FEATURES;
use std::alloc::Global;
use std::collections::BTreeMap;
use std::marker::Model;
use std::sync::Arc;

/// The features of a layer by reference, each in a slot that stays its own, so that a removal moves no other
/// feature. The first slots are those of the features from the start. The places are those of
/// the ids that were added; the others are found in the layer. Contracts see it as the list of its features.
#[derive(Drop)]
pub(crate) struct LayerEdit<'a> {
    finder: LayerFinder<'a>,
    slots: Slots<'a>,
    places: BTreeMap<u64, u32>,
    count: usize,
}

impl<'a> Model for LayerEdit<'a> {
    ghost use Rattle.std.specs.Prelude.{◌≡◌, ◌≤◌, List, length};
    ghost use Rattle.plain_shapes.specs.Features.{Feature};
    ghost use Rattle.plain_shapes.specs.Limits.{most_features};
    ghost use Rattle.data_versions.specs.inner.Slots.{standing, KnowsPlaces};

    ghost Value = { List Feature };

    ghost view = { λ b. standing b.slots.slots };

    ghost invariant = { λ b. KnowsPlaces b.places b.finder.features b.slots.slots
        × (b.count ≡ length (standing b.slots.slots)) × (b.count ≤ most_features)
        × (b.slots.first ≡ b.finder.features) };
}

impl<'a> LayerEdit<'a> {
    /// The features of a layer.
    pub(crate) fn of(alloc: Global, layer: &'a ChunkedLayer) -> LayerEdit<'a>
        requires { IsLayer layer.now }
        ensures { result ≡ layer.now.features }
    {
        LayerEdit {
            finder: LayerFinder::of(layer),
            slots: Slots::of(alloc, layer),
            places: BTreeMap::new(alloc),
            count: layer.len() as usize,
        }
    }

    /// Makes ready for so many more ids to be found.
    pub(crate) fn expect(&mut self, alloc: Global, ids: usize) -> Result<(), NoMemory>
        ensures { self.new ≡ self.old }
    {
        self.finder.expect(alloc, ids)
    }

    /// How many features there are: at most 1,000,000, of distinct ids.
    #[tactic(auto, using(crate::proofs::Standing::standing_distinct))]
    pub(crate) fn len(&self) -> usize
        ensures count { result ≡ length self.now }
        ensures few { length self.now ≤ most_features }
        ensures distinct { IsDistinct nat_eq (ids_of self.now) }
    {
        self.count
    }

    /// Takes the feature of the id out, or answers false where there is none.
    pub(crate) fn remove(&mut self, id: u64) -> Result<bool, NoMemory>
        ensures found { IfOk result (λ found. found ≡ has_id (ids_of self.old) id) }
        ensures gone { IfOk result (λ found. found ≡ true → self.new ≡ without id self.old) }
        ensures absent { IfOk result (λ found. found ≡ false → self.new ≡ self.old) }
    {
        match slot_of(&self.places, &self.finder, &self.slots, id) {
            Some(place) => {
                self.slots.set(place, None)?;
                self.places.remove(&id);
                self.count -= 1;
                Ok(true)
            }
            None => Ok(false),
        }
    }

    fn add(&mut self, feature: &'a Feature) -> Result<(), NoMemory>
        requires fresh { has_id (ids_of self.old) feature.now.id ≡ false }
        requires room { length self.old < most_features }
        ensures { OnOk result (self.new ≡ self.old ++ feature.now ∷ []) }
    {
        let id = feature.id();
        let place = self.slots.next_number();
        self.places.insert(id, place)?;
        match self.slots.push(Some(feature)) {
            Ok(()) => {
                self.count += 1;
                Ok(())
            }
            Err(refused) => {
                self.places.remove(&id);
                Err(refused)
            }
        }
    }

    // Puts a feature in place of the one of its id, if there is one.
    fn replace(&mut self, feature: &'a Feature) -> Result<bool, NoMemory>
        ensures found { IfOk result (λ found. found ≡ has_id (ids_of self.old) feature.now.id) }
        ensures done { IfOk result
            (λ found. found ≡ true → self.new ≡ replaced_by feature.now self.old) }
        ensures absent { IfOk result (λ found. found ≡ false → self.new ≡ self.old) }
    {
        match slot_of(&self.places, &self.finder, &self.slots, feature.id()) {
            Some(place) => {
                self.slots.set(place, Some(feature))?;
                Ok(true)
            }
            None => Ok(false),
        }
    }

    #[tactic(auto, using(crate::proofs::Standing::put_known, crate::proofs::Standing::put_new))]
    /// Puts a feature, in place of the one of its id or last. False where it is new and the layer is full.
    pub(crate) fn put(&mut self, feature: &'a Feature) -> Result<bool, NoMemory>
        ensures done { IfOk result
            (λ fits. fits ≡ true → self.new ≡ with_put feature.now self.old) }
        ensures full { IfOk result (λ fits. fits ≡ false → (has_id (ids_of self.old) feature.now.id
            ≡ false) × (most_features ≤ length self.old)) }
    {
        if self.replace(feature)? {
            return Ok(true);
        }
        if self.len() >= MOST_FEATURES {
            return Ok(false);
        }
        self.add(feature)?;
        Ok(true)
    }

    /// A layer of the name and the features. A segment in which nothing changed is shared, but for the last one,
    /// which is filled up where new features follow.
    pub(crate) fn shared(&self, alloc: Global, name: &str) -> Result<Arc<ChunkedLayer>, NoMemory>
        ensures { IfOk result
            (λ shared. arc_value shared ≡ record { name = name.now; features = self.now }) }
    {
        let name = Text::of(alloc, name)?;
        let segments = self.slots.segments(alloc)?;
        ChunkedLayer::shared(alloc, name, segments)
    }
}
