//! The slots of a layer while an update changes it.
ghost use Rattle.std.specs.Prelude.{◌≡◌, ◌<◌, ◌∷◌, ◌++◌, [], length, map, set, get_or, slice_get, true, false, Some, None, IfOk, OnOk, OnErr};
ghost use Rattle.std.specs.Option.{option_copied};
ghost use Rattle.std.specs.Ordering.{nat_cmp};
ghost use Rattle.std.specs.BTreeMap.{Updates};
ghost use Rattle.data_versions.specs.inner.Parts.{laid};
ghost use Rattle.data_versions.specs.inner.Slots.{standing, slot_id};

use crate::chunked::ChunkedLayer;
use crate::edits::{Edits, edited_segments};
use crate::segment::Segment;
use farm_base::NoMemory;
use geo_model::Feature;
use std::alloc::Global;
use std::collections::BTreeMap;
use std::marker::Model;

/// The slots of a layer's features, and of those that were added: in each stands what was put there, or else, from
/// the start, a feature of the layer. Contracts see them as the list of what stands in them, beside the layer's features.
#[derive(Drop)]
pub(crate) struct Slots<'a> {
    layer: &'a ChunkedLayer,
    put: BTreeMap<u32, Option<&'a Feature>>,
    count: u32,
}

impl<'a> Model for Slots<'a> {
    ghost use Rattle.data_versions.specs.inner.Slots.{overlaid, base_slots, IsPutWithin, SlotsSeen};

    ghost Value = { SlotsSeen };

    ghost view = { λ s. record { slots = overlaid 0 s.put.entries (base_slots s.layer.now.features s.count); first = s.layer.now.features } };

    ghost invariant = { λ s. IsPutWithin s.put.entries s.layer.now.features s.count };
}

fn put_in<'a>(
    put: &mut BTreeMap<u32, Option<&'a Feature>>,
    number: u32,
    feature: Option<&'a Feature>,
) -> Result<(), NoMemory>
    ensures done { OnOk result (Updates nat_cmp put.old put.new number (Some feature.entry)) }
    ensures same { OnErr result (put.new.entries ≡ put.old.entries) }
{
    put.insert(number, feature)?;
    Ok(())
}

impl<'a> Slots<'a> {
    /// A slot for each feature of the layer, which stands there.
    pub(crate) fn of(alloc: Global, layer: &'a ChunkedLayer) -> Slots<'a>
        ensures slots { result.slots ≡ map Some layer.now.features }
        ensures first { result.first ≡ layer.now.features }
    {
        Slots {
            layer,
            put: BTreeMap::new(alloc),
            count: layer.len(),
        }
    }

    /// Whether the feature of the id, which is that of the layer's feature of the number, still stands in that slot, or
    /// another of its id. No feature is looked at where nothing was put.
    pub(crate) fn holds(&self, i: u32, id: u64) -> bool
        requires { slot_id (slice_get self.now.first i) ≡ Some id }
        ensures there { result ≡ true → slot_id (get_or self.now.slots i None) ≡ Some id }
        ensures gone { result ≡ false → slot_id (get_or self.now.slots i None) ≡ Some id → ⊥ }
    {
        match self.put.get(&i).copied() {
            Some(Some(put)) => put.id() == id,
            Some(None) => false,
            None => true,
        }
    }

    /// Puts this into the slot of the number.
    pub(crate) fn set(&mut self, i: u32, feature: Option<&'a Feature>) -> Result<(), NoMemory>
        requires { i < length self.old.slots }
        ensures done { OnOk result (self.new
            ≡ record self.old { slots = set self.old.slots i (option_copied feature.entry) }) }
        ensures same { OnErr result (self.new ≡ self.old) }
    {
        put_in(&mut self.put, i, feature)?;
        Ok(())
    }

    /// The number of the slot that is added next.
    pub(crate) fn next_number(&self) -> u32
        ensures { result ≡ length self.now.slots }
    {
        self.count
    }

    /// Adds a slot with this.
    pub(crate) fn push(&mut self, feature: Option<&'a Feature>) -> Result<(), NoMemory>
        ensures done { OnOk result (self.new
            ≡ record self.old { slots = self.old.slots ++ option_copied feature.entry ∷ [] }) }
        ensures same { OnErr result (self.new ≡ self.old) }
    {
        if self.count == u32::MAX {
            return Err(NoMemory);
        }
        put_in(&mut self.put, self.count, feature)?;
        self.count += 1;
        Ok(())
    }

    /// What stands in the slots, in segments. One in which nothing changed is shared.
    pub(crate) fn segments(&self, alloc: Global) -> Result<Vec<Segment>, NoMemory>
        ensures { IfOk result (λ segments. laid segments.items ≡ standing self.now.slots) }
    {
        let edits = Edits::of(alloc, &self.put)?;
        edited_segments(alloc, self.layer.segments(), edits)
    }
}
