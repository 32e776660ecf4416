//! In which slot of a layer an id stands, while an update changes it.
ghost use Rattle.std.specs.Prelude.{◌≡◌, ℕ, get_or, Some, None, IfSome};
ghost use Rattle.data_versions.specs.Near.{place_of};
ghost use Rattle.data_versions.specs.inner.Slots.{slot_id, KnowsPlaces, StandsNowhere};

use crate::finder::LayerFinder;
use crate::slots::Slots;
use std::collections::BTreeMap;

// The slot of the layer's feature of the id, if the id still stands there.
fn first_slot(finder: &LayerFinder<'_>, slots: &Slots<'_>, id: u64) -> Option<u32>
    requires { slots.now.first ≡ finder.now.features }
    ensures found { IfSome result (λ k. slot_id (get_or slots.now.slots k None) ≡ Some id) }
    ensures none { result ≡ None → (k : ℕ) → place_of finder.now.features id ≡ Some k
        → slot_id (get_or slots.now.slots k None) ≡ Some id → ⊥ }
{
    let place = finder.place_of(id)?;
    if slots.holds(place, id) {
        Some(place)
    } else {
        None
    }
}

/// In which slot the id stands: the places tell it, or else the layer from the start.
pub(crate) fn slot_of(
    places: &BTreeMap<u64, u32>,
    finder: &LayerFinder<'_>,
    slots: &Slots<'_>,
    id: u64,
) -> Option<u32>
    requires knows { KnowsPlaces places.now finder.now.features slots.now.slots }
    requires first { slots.now.first ≡ finder.now.features }
    ensures found { IfSome result (λ k. slot_id (get_or slots.now.slots k None) ≡ Some id) }
    ensures none { result ≡ None → StandsNowhere slots.now.slots id }
{
    if let Some(place) = places.get(&id).copied() {
        return Some(place);
    }
    first_slot(finder, slots, id)
}
