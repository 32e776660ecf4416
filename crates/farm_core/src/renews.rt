//! Renews: updates that expire what they reach.
ghost use Rattle.std.specs.Prelude.{◌≡◌, ◌≢◌, ◌<◌, ◌^◌, Bool, List, ◌∷◌, length, map as map_list, slice_get, IfErr, IfOk, Err};
ghost use Rattle.farm_base.specs.declared.faults.ApplyFault.{ApplyFault};
ghost use Rattle.plain_shapes.specs.Data.{update_result};
ghost use Rattle.farm_history.specs.Entries.{Entry, Renew};
ghost use Rattle.farm_history.specs.Lists.{Each};
ghost use Rattle.farm_history.specs.Seen.{overtaken_by};
ghost use Rattle.farm_plan.specs.Plans.{IsPlan};
ghost use Rattle.farm_plan.specs.Drawings.{named, update_of};
ghost use Rattle.farm_plan.specs.Spots.{IsKeyOf};
ghost use Rattle.reach_box.specs.NamedBoxes.{AreBoxesOf, boxes_reach_map};
ghost use Rattle.farm_refinement.specs.Stands.{StandsFor};
ghost use Rattle.farm_core.specs.Answers.{Lasts};
ghost use Rattle.farm_core.specs.inner.Renews.{Reaches, Renews};

use crate::farm::Farm;
use farm_base::{ApplyFault, NoMemory};
use farm_plan::{Key, Past, Renewed};
use geo_model::Bounds;
use reach_box::{boxes_reach, mark_maps_dirty, named_boxes};
use render_jobs::{Setup, Taken, overtaken};
use std::alloc::Global;
use tile_store::TileStore;

fn is_reached(setup: &Setup, boxes: &[Bounds], key: Key) -> bool
    requires plan { IsPlan setup.now }
    requires key { IsKeyOf setup.now key }
    ensures { result ≡ boxes_reach_map boxes.now (slice_get setup.now.maps key.map) key.meta }
{
    let size = setup.tile_size(key.map);
    boxes_reach(boxes, size, key.meta)
}

fn touch_reached(taken: &mut [Taken], setup: &Setup, boxes: &[Bounds])
    requires plan { IsPlan setup.now }
    requires keys { Each (λ t. IsKeyOf setup.now t.key) taken.old }
    ensures { taken.new ≡ map_list
        (overtaken_by (λ k. boxes_reach_map boxes.now (slice_get setup.now.maps k.map) k.meta))
        taken.old }
{
    for one in taken.iter_mut() {
        *one = overtaken(*one, is_reached(setup, boxes, one.key));
    }
}

impl<D> Farm<D> {
    fn named(&self, alloc: Global, number: u32) -> Result<Vec<Bounds>, NoMemory>
        requires { number < length self.now.plan.updates }
        ensures { IfOk result
            (λ boxes. AreBoxesOf
            (named self.now.data_now (update_of self.now.plan number)) boxes.items) }
    {
        let update = self.own.setup().update(number).unwrap();
        named_boxes(alloc, self.own.snapshot(), update)
    }

    // Touches what the boxes reach, and counts what was clean of it. The boxes end in another order.
    fn mark_reached_dirty(&mut self, boxes: &mut [Bounds]) -> u64
        ensures { Reaches boxes.old self.old self.new result }
    {
        touch_reached(self.taken.as_mut_slice(), self.own.setup(), boxes);
        mark_maps_dirty(&mut self.marks, self.own.setup().maps(), boxes)
    }

    /// Applies the update of the number, notes it as a renew, and touches what it reaches; tells how many
    /// metatiles of that were clean. After a refusal all is as before.
    pub(crate) fn renew_data(&mut self, alloc: Global, number: u32) -> Result<u64, ApplyFault>
        requires known { number < length self.old.plan.updates }
        requires more { self.old.counts.version < self.old.counts.turns }
        ensures done { IfOk result (Renews self.old self.new number) }
        ensures refused { IfErr result
            (λ e. e ≢ ApplyFault.NoMemory
            → update_result (update_of self.old.plan number) self.old.data_now ≡ Err e) }
        ensures same { IfErr result (λ e. self.new ≡ self.old) }
    {
        let Ok(mut boxes) = self.named(alloc, number) else {
            return Err(ApplyFault::NoMemory);
        };
        self.advance(alloc, number, Past::Renew(number))?;
        Ok(self.mark_reached_dirty(boxes.as_mut_slice()))
    }
}

impl<D: TileStore> Farm<D> {
    /// Applies the update of the number as `update` does, and expires every metatile that a feature reaches
    /// which the update names: an old one whose id it removes or puts, or one that it puts. Version tells the
    /// new version, and how many of those metatiles were clean before. NoUpdate and Refused come as in
    /// `update`, and then nothing has changed.
    pub fn renew(&mut self, alloc: Global, number: u32) -> Renewed
        requires { self.old.counts.turns < 2 ^ 63 }
        ensures step { (store_tells : Bool) (h : List Entry)
            → StandsFor D.state store_tells self.old h
            → StandsFor D.state store_tells self.new (Renew number result ∷ h) }
        ensures kept { Lasts D.state self.old self.new }
        ensures store { self.new.store ≡ self.old.store }
    {
        self.count_turn();
        if !self.has_update(number) {
            return Renewed::NoUpdate;
        }
        match self.renew_data(alloc, number) {
            Ok(count) => Renewed::Version(self.version(), count),
            Err(fault) => Renewed::Refused(fault),
        }
    }
}
