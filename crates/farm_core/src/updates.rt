//! Updates: the next version of the data.
ghost use Rattle.std.specs.Prelude.{◌≡◌, ◌≢◌, ◌<◌, ◌≤◌, ◌+◌, ◌++◌, ◌∷◌, [], Bool, List, ◌^◌, nat_lt, length, IfErr, IfOk, OnOk, Err};
ghost use Rattle.farm_history.specs.Entries.{Entry, Update as Changed};
ghost use Rattle.farm_core.specs.Answers.{Lasts};
ghost use Rattle.farm_refinement.specs.Stands.{StandsFor};
ghost use Rattle.std.specs.Vec.{vec_capacity};
ghost use Rattle.farm_base.specs.declared.faults.ApplyFault.{ApplyFault};
ghost use Rattle.plain_shapes.specs.Data.{update_result};
ghost use Rattle.farm_plan.specs.Drawings.{update_of};
ghost use Rattle.farm_core.specs.inner.Effects.{Advances, IsNext, Nexts, own_of};

use crate::farm::Farm;
use data_versions::{Snapshot, Update, apply};
use farm_base::{ApplyFault, NoMemory};
use farm_plan::{Past, Updated};
use render_jobs::{Share, make_shares};
use std::alloc::Global;
use tile_store::TileStore;

/// A share of the next data, and one for each worker, in a vector that has room for as many.
#[derive(Drop)]
struct Next {
    own: Share,
    spares: Vec<Share>,
}

fn next_of(alloc: Global, own: &Share, snapshot: Snapshot) -> Result<Next, NoMemory>
    ensures { IfOk result
        (λ next. IsNext own.now snapshot next.own next.spares.items (vec_capacity next.spares)) }
{
    let next = own.with(snapshot)?;
    let spares = make_shares(alloc, &next, own.setup().workers())?;
    Ok(Next { own: next, spares })
}

fn next_data(alloc: Global, own: &Share, update: &Update) -> Result<Next, ApplyFault>
    ensures done { IfOk result
        (λ next. Nexts own.now update.now next.own next.spares.items (vec_capacity next.spares)) }
    ensures refused { IfErr result
        (λ e. e ≢ ApplyFault.NoMemory → update_result update.now own.now.data_now ≡ Err e) }
{
    let snapshot = apply(alloc, own.snapshot(), update)?;
    match next_of(alloc, own, snapshot) {
        Ok(next) => Ok(next),
        Err(_) => Err(ApplyFault::NoMemory),
    }
}

impl<D> Farm<D> {
    fn next(&self, alloc: Global, number: u32) -> Result<Next, ApplyFault>
        requires { number < length self.now.plan.updates }
        ensures done { IfOk result
            (λ next. Nexts (own_of self.now) (update_of self.now.plan number) next.own
            next.spares.items (vec_capacity next.spares)) }
        ensures refused { IfErr result
            (λ e. e ≢ ApplyFault.NoMemory
            → update_result (update_of self.now.plan number) self.now.data_now ≡ Err e) }
    {
        let update = self.own.setup().update(number).unwrap();
        next_data(alloc, &self.own, update)
    }

    fn go_on(&mut self, next: Next, past: Past) -> Result<(), NoMemory>
        requires next { IsNext (own_of self.old) next.own.data_now next.own
            next.spares.items (vec_capacity next.spares) }
        requires more { self.old.counts.version < self.old.counts.turns }
        ensures done { OnOk result
            (self.new ≡ record self.old {
              data_now = next.own.data_now;
              changes = self.old.changes ++ past ∷ [];
              counts = record self.old.counts { version = self.old.counts.version + 1 };
            }) }
        ensures same { IfErr result (λ e. self.new ≡ self.old) }
    {
        self.changes.push(past)?;
        let Next { own, spares } = next;
        self.own = own;
        self.spares = spares;
        self.counts.version += 1;
        Ok(())
    }

    /// Applies the update of the number, and notes it. After a refusal all is as before.
    pub(crate) fn advance(
        &mut self,
        alloc: Global,
        number: u32,
        past: Past,
    ) -> Result<(), ApplyFault>
        requires known { number < length self.old.plan.updates }
        requires more { self.old.counts.version < self.old.counts.turns }
        ensures done { OnOk result (Advances self.old self.new number past) }
        ensures refused { IfErr result
            (λ e. e ≢ ApplyFault.NoMemory
            → update_result (update_of self.old.plan number) self.old.data_now ≡ Err e) }
        ensures same { IfErr result (λ e. self.new ≡ self.old) }
    {
        match self.next(alloc, number) {
            Ok(next) => match self.go_on(next, past) {
                Ok(()) => Ok(()),
                Err(_) => Err(ApplyFault::NoMemory),
            },
            Err(fault) => Err(fault),
        }
    }

    /// Whether the table has an update of the number.
    pub(crate) fn has_update(&self, number: u32) -> bool
        ensures { result ≡ nat_lt number (length self.now.plan.updates) }
    {
        self.own.setup().update(number).is_some()
    }

    /// The data version.
    pub(crate) fn version(&self) -> u64
        ensures { result ≡ self.now.counts.version }
    {
        self.counts.version
    }
}

impl<D: TileStore> Farm<D> {
    /// Applies the update of the number to the newest data: Version with the new version; NoUpdate exactly where
    /// the table has none of that number; Refused with the first fault of its changes, or for want of memory.
    /// After NoUpdate and Refused nothing has changed. What is shown stays as it is.
    pub fn update(&mut self, alloc: Global, number: u32) -> Updated
        requires { self.old.counts.turns < 2 ^ 63 }
        ensures step { (store_tells : Bool) (h : List Entry)
            → StandsFor D.state store_tells self.old h
            → StandsFor D.state store_tells self.new (Changed number result ∷ h) }
        ensures kept { Lasts D.state self.old self.new }
        ensures store { self.new.store ≡ self.old.store }
    {
        self.count_turn();
        if !self.has_update(number) {
            return Updated::NoUpdate;
        }
        match self.advance(alloc, number, Past::Update(number)) {
            Ok(()) => Updated::Version(self.version()),
            Err(fault) => Updated::Refused(fault),
        }
    }
}
