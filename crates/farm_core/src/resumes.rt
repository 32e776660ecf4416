//! How a farm begins anew from what was saved of it.
ghost use Rattle.std.specs.Prelude.{◌≡◌, ◌≢◌, ◌<◌, ◌+◌, ◌-◌, ◌*◌, ◌^◌, List, true, Some, None, Err, length, IfErr, IfOk, OnErr, OnOk};
ghost use Rattle.farm_base.specs.Limits.{most_turns};
ghost use Rattle.farm_base.specs.declared.faults.ApplyFault.{ApplyFault};
ghost use Rattle.plain_world.specs.World.{IsMeta};
ghost use Rattle.plain_shapes.specs.Data.{update_result};
ghost use Rattle.farm_history.specs.Entries.{Entry};
ghost use Rattle.farm_history.specs.Lists.{Each};
ghost use Rattle.farm_history.specs.Replays.{are_rising, past_number, replay, replay_from, replay_keys};
ghost use Rattle.farm_plan.specs.Plans.{AreRanged, IsPlan};
ghost use Rattle.farm_plan.specs.Drawings.{plan_of, update_of};
ghost use Rattle.farm_saved.specs.Savings.{IsSaving};
ghost use Rattle.render_jobs.specs.declared.faults.ResumeFault.{ResumeFault};
ghost use Rattle.farm_core.specs.inner.Starts.{IsStarted};
ghost use Rattle.render_jobs.specs.Faults.{apply_fault, resume_fault, form_fault};
ghost use Rattle.farm_core.specs.Begins.{Begins, BeginsWell};
ghost use Rattle.farm_core.specs.inner.Replays.{CanReplay, IsAnew, IsFresh, IsReplaying, RefusesAt, ReplaysAt, ReplaysChange, ReplaysVersion, Stays, how_many_of};

use crate::farm::Farm;
use crate::starts::first_farm;
use farm_base::{ApplyFault, NoMemory};
use farm_history::Saved;
use farm_plan::{FarmPlan, Kept, Past};
use render_jobs::{ResumeFault, check, copied, know_plan, refused_at, styles_given};
use std::alloc::Global;
use tile_store::TileStore;

impl<D> Farm<D> {
    // The maps of a farm that begins are given these styles, and it keeps what was saved.
    fn keep_saved(&mut self, styled: Vec<Option<u32>>, saved: Saved)
        requires started { IsStarted self.old.plan self.old.store self.old }
        requires styled { styled.items ≡ saved.styles }
        requires maps { length saved.styles ≡ length self.old.plan.maps }
        ensures { IsAnew self.old.plan saved self.old.store self.new }
    {
        self.counts.turns = styles_given(styled.as_slice());
        self.styled = styled;
        self.saved = Some(saved);
    }

    // The maps of a farm that begins are given the styles that were saved, and it keeps what was saved.
    fn give_saved(&mut self, alloc: Global, saved: &Saved) -> Result<(), NoMemory>
        requires started { IsStarted self.old.plan self.old.store self.old }
        requires maps { length saved.now.styles ≡ length self.old.plan.maps }
        ensures anew { OnOk result (IsAnew self.old.plan saved.now self.old.store self.new) }
        ensures same { OnErr result (self.new ≡ self.old) }
    {
        let styled = Vec::from_slice(alloc, saved.styles.as_slice())?;
        let kept = copied(alloc, saved)?;
        self.keep_saved(styled, kept);
        Ok(())
    }
}

impl<D> Farm<D> {
    // Shows a clean metatile again, where it is of that version.
    fn replay_at(&mut self, version: u64, kept: Kept) -> Result<(), NoMemory>
        requires meta { IsMeta kept.key.meta }
        requires turns { self.old.counts.turns < 2 ^ 63 }
        ensures done { OnOk result (ReplaysAt version self.old self.new kept) }
        ensures stays { Stays self.old self.new }
    {
        if kept.version != version {
            return Ok(());
        }
        self.marks.reserve_one()?;
        self.marks.show(kept.key, self.counts.version, true);
        let counts = &mut self.counts;
        counts.turns += 4;
        counts.numbers += 1;
        counts.jobs += 1;
        counts.asks += 1;
        counts.done += 1;
        counts.stored += 1;
        Ok(())
    }

    // Makes an update again.
    fn replay_change(&mut self, alloc: Global, past: Past) -> Result<(), ApplyFault>
        requires known { past_number past < length self.old.plan.updates }
        requires turns { self.old.counts.turns < 2 ^ 63 }
        ensures done { OnOk result (ReplaysChange self.old self.new past) }
        ensures refused { IfErr result
            (λ e. e ≢ ApplyFault.NoMemory
            → update_result (update_of self.old.plan (past_number past)) self.old.data_now
            ≡ Err e) }
        ensures stays { Stays self.old self.new }
    {
        self.count_turn();
        match past {
            Past::Update(number) => self.advance(alloc, number, past),
            Past::Renew(number) => {
                let _clean = self.renew_data(alloc, number)?;
                Ok(())
            }
        }
    }
}

impl<D: TileStore> Farm<D> {
    // Shows the clean metatiles of that version again, in order.
    fn replay_keys(&mut self, version: u64, clean: &[Kept]) -> Result<(), NoMemory>
        requires version { version ≡ self.old.counts.version }
        requires keys { Each (CanReplay self.old.plan) clean.now }
        requires rise { are_rising clean.now ≡ true }
        requires fresh { IsFresh version 0 clean.now self.old.marks.shown }
        requires turns { self.old.counts.turns + 4 * how_many_of version clean.now < 2 ^ 63 }
        ensures replayed { OnOk result
            ((g : List Entry) → IsReplaying D.state self.old g
            → IsReplaying D.state self.new (replay_keys version clean.now g)) }
        ensures fresh { OnOk result (IsFresh (version + 1) 0 clean.now self.new.marks.shown) }
        ensures turns { OnOk result
            (self.new.counts.turns ≡ self.old.counts.turns + 4 * how_many_of version clean.now) }
        ensures same { OnOk result
            ((self.new.counts.version ≡ self.old.counts.version)
            × (self.new.data_now ≡ self.old.data_now)) }
        ensures stays { Stays self.old self.new }
    {
        for kept in clean {
            self.replay_at(version, *kept)?;
        }
        Ok(())
    }
}

impl<D: TileStore> Farm<D> {
    // Shows the clean metatiles of a version again, and then makes the update again that ended it.
    fn replay_version(
        &mut self,
        alloc: Global,
        version: u64,
        past: Past,
        clean: &[Kept],
    ) -> Result<(), ResumeFault>
        requires version { version ≡ self.old.counts.version }
        requires keys { Each (CanReplay self.old.plan) clean.now }
        requires rise { are_rising clean.now ≡ true }
        requires fresh { IsFresh version 0 clean.now self.old.marks.shown }
        requires known { past_number past < length self.old.plan.updates }
        requires turns { self.old.counts.turns + 4 * how_many_of version clean.now < most_turns }
        ensures done { OnOk result
            (ReplaysVersion D.state self.old self.new version past clean.now) }
        ensures refused { IfErr result (RefusesAt self.old version past) }
        ensures stays { Stays self.old self.new }
    {
        self.replay_keys(version, clean)?;
        match self.replay_change(alloc, past) {
            Ok(()) => Ok(()),
            Err(fault) => Err(refused_at(version, fault)),
        }
    }

    // Replays what was saved: for each version in turn its clean metatiles, and then the update that ended it.
    fn replay(&mut self, alloc: Global, updates: &[Past], clean: &[Kept]) -> Result<(), ResumeFault>
        requires version { self.old.counts.version ≡ 0 }
        requires known { Each (λ c. past_number c < length self.old.plan.updates) updates.now }
        requires keys { Each (CanReplay self.old.plan) clean.now }
        requires rise { are_rising clean.now ≡ true }
        requires fresh { IsFresh 0 0 clean.now self.old.marks.shown }
        requires turns { self.old.counts.turns + length updates.now + 4 * length clean.now
            < most_turns }
        ensures replayed { OnOk result
            ((g : List Entry) → IsReplaying D.state self.old g
            → IsReplaying D.state self.new
            (replay_from (plan_of self.old.plan) clean.now 0 updates.now g)) }
        ensures fits { OnOk result
            (apply_fault self.old.plan self.old.data_now 0 updates.now ≡ None) }
        ensures refused { IfErr result
            (λ e. e ≢ ResumeFault.NoMemory
            → apply_fault self.old.plan self.old.data_now 0 updates.now ≡ Some e) }
        ensures stays { Stays self.old self.new }
    {
        for (place, past) in updates.iter().enumerate() {
            self.replay_version(alloc, place as u64, *past, clean)?;
        }
        let version = self.counts.version;
        self.replay_keys(version, clean)?;
        Ok(())
    }

    // Replays what was saved, which is of such a plan but for the faults of its updates.
    fn replay_saved(&mut self, alloc: Global, saved: &Saved) -> Result<(), ResumeFault>
        requires plan { IsPlan self.old.plan }
        requires anew { IsAnew self.old.plan saved.now self.old.store self.old }
        requires saved { IsSaving saved.now }
        requires shape { form_fault self.old.plan saved.now ≡ None }
        requires short { length saved.now.updates + 4 * length saved.now.clean < most_turns - 16 }
        ensures begins { OnOk result
            (Begins D.state self.old.plan (Some saved.now) self.old.store self.new) }
        ensures fits { OnOk result (resume_fault self.old.plan saved.now ≡ None) }
        ensures refused { IfErr result
            (λ e. e ≢ ResumeFault.NoMemory → resume_fault self.old.plan saved.now ≡ Some e) }
        ensures store { self.new.store ≡ self.old.store }
    {
        self.replay(alloc, saved.updates.as_slice(), saved.clean.as_slice())
    }

    // A farm that begins is brought to where another was saved, which is of such a plan but for the faults of
    // its updates.
    fn take_checked(&mut self, alloc: Global, saved: &Saved) -> Result<(), ResumeFault>
        requires plan { IsPlan self.old.plan }
        requires started { IsStarted self.old.plan self.old.store self.old }
        requires saved { IsSaving saved.now }
        requires shape { form_fault self.old.plan saved.now ≡ None }
        requires short { length saved.now.updates + 4 * length saved.now.clean < most_turns - 16 }
        ensures begins { OnOk result
            (Begins D.state self.old.plan (Some saved.now) self.old.store self.new) }
        ensures fits { OnOk result (resume_fault self.old.plan saved.now ≡ None) }
        ensures refused { IfErr result
            (λ e. e ≢ ResumeFault.NoMemory → resume_fault self.old.plan saved.now ≡ Some e) }
        ensures store { self.new.store ≡ self.old.store }
    {
        match self.give_saved(alloc, saved) {
            Ok(()) => self.replay_saved(alloc, saved),
            Err(_) => Err(ResumeFault::NoMemory),
        }
    }

    // A farm that begins is brought to where another was saved. Err is the first fault of what was saved, or
    // want of memory.
    fn take_up(&mut self, alloc: Global, saved: &Saved) -> Result<(), ResumeFault>
        requires plan { IsPlan self.old.plan }
        requires started { IsStarted self.old.plan self.old.store self.old }
        requires saved { IsSaving saved.now }
        requires short { length saved.now.updates + 4 * length saved.now.clean < most_turns - 16 }
        ensures begins { OnOk result
            (Begins D.state self.old.plan (Some saved.now) self.old.store self.new) }
        ensures fits { OnOk result (resume_fault self.old.plan saved.now ≡ None) }
        ensures refused { IfErr result
            (λ e. e ≢ ResumeFault.NoMemory → resume_fault self.old.plan saved.now ≡ Some e) }
        ensures store { self.new.store ≡ self.old.store }
    {
        match check(self.own.setup(), saved) {
            Ok(()) => self.take_checked(alloc, saved),
            Err(fault) => Err(fault),
        }
    }

    /// A farm of the plan over the store that begins where another was saved: its maps have their last styles,
    /// the updates are made again, and the clean metatiles are shown again, without a drawing. It stands for the
    /// replay of what was saved; that the store holds what is shown is for the caller to know. Like `start` it
    /// takes all the memory that later calls need which take none, and keeps for good the plan, the store as it
    /// is now, and what was saved. Err is the first fault of what was saved, or want of memory, and hands the
    /// store back.
    pub fn resume(
        alloc: Global,
        plan: FarmPlan,
        store: D,
        saved: &Saved,
    ) -> Result<Farm<D>, (D, ResumeFault)>
        requires plan { IsPlan plan }
        requires saved { IsSaving saved.now }
        requires short { length saved.now.updates + 4 * length saved.now.clean < most_turns - 16 }
        ensures begins { IfOk result (Begins D.state plan (Some saved.now) store) }
        ensures well { IfOk result (λ f. BeginsWell (replay (plan_of plan) saved.now)) }
        ensures ranged { AreRanged plan }
        ensures fits { IfOk result (λ f. resume_fault plan saved.now ≡ None) }
        ensures refused { IfErr result
            (λ e. e.1 ≢ ResumeFault.NoMemory → resume_fault plan saved.now ≡ Some e.1) }
        ensures store { IfErr result (λ e. e.0 ≡ store) }
    {
        know_plan(&plan);
        let mut farm = match first_farm(alloc, plan, store) {
            Ok(farm) => farm,
            Err(store) => return Err((store, ResumeFault::NoMemory)),
        };
        match farm.take_up(alloc, saved) {
            Ok(()) => Ok(farm),
            Err(fault) => Err((farm.into_store(), fault)),
        }
    }
}
