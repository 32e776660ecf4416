//! Claims: a worker takes what waits first.
ghost use Rattle.std.specs.Prelude.{◌≡◌, ◌<◌, ◌≤◌, ◌+◌, ◌^◌, Bool, List, ◌∷◌, length, option_map, IfSome};
ghost use Rattle.farm_plan.specs.Spots.{IsKeyOf};
ghost use Rattle.farm_history.specs.Entries.{Entry, Claim};
ghost use Rattle.farm_core.specs.Answers.{IfJob, Lasts, claim_answer};
ghost use Rattle.farm_plan.specs.Jobs.{Carries, IsValidJob, job_key};
ghost use Rattle.farm_refinement.specs.Stands.{StandsFor};
ghost use Rattle.farm_core.specs.inner.Rooms.{AreCounted};
ghost use Rattle.farm_core.specs.inner.Effects.{Claims, IsJobFor, begins, is_crowded, turn};
ghost use Rattle.render_queues.specs.Tables.{AreSound, after_take, next_of};

use crate::farm::Farm;
use farm_plan::Key;
use render_jobs::{Job, Taken};
use tile_store::TileStore;

/// What a claim is answered.
#[derive(Drop)]
pub enum Claimed {
    /// A drawing to make.
    Job(Job),
    /// Nothing waits.
    Idle,
    /// As many drawings are under way as there are workers.
    Crowded,
    /// The farm was stopped.
    Stopped,
}

impl<D> Farm<D> {
    /// Counts the event.
    pub(crate) fn count_turn(&mut self)
        requires { self.old.counts.turns < 2 ^ 63 }
        ensures turned { self.new ≡ turn self.old }
        ensures counted { AreCounted self.old.counts }
    {
        self.counts.turns += 1;
    }

    fn is_crowded(&self) -> bool
        ensures crowded { result ≡ is_crowded self.now }
        ensures sound { AreSound self.now.queues }
    {
        self.queues.law_sound();
        !self.queues.can_take() || self.own.setup().workers() as usize <= self.taken.len()
    }

    fn next_key(&mut self) -> Option<Key>
        requires { length self.old.queues.taken < self.old.queues.workers }
        ensures key { result ≡ option_map (λ w. w.key) (next_of self.old.queues.lines) }
        ensures farm { self.new ≡ record self.old {
          queues = after_take self.old.queues (next_of self.old.queues.lines);
        } }
        ensures valid { IfSome result (IsKeyOf self.old.plan) }
    {
        self.queues.take()
    }

    fn begin(&mut self, worker: u32, key: Key) -> Job
        requires key { IsKeyOf self.old.plan key }
        requires free { length self.old.taken < self.old.plan.workers }
        requires more { self.old.counts.jobs < self.old.counts.turns }
        ensures job { IsJobFor self.old worker result }
        ensures key { job_key result ≡ key }
        ensures farm { self.new ≡ begins self.old key }
    {
        let share = self.spares.pop().unwrap();
        let styled = self.styled[key.map as usize];
        let ticket = self.counts.jobs;
        let version = self.counts.version;
        self.taken.push_reserved(Taken {
            ticket,
            key,
            version,
            touched: false,
        });
        self.counts.jobs += 1;
        Job::new(share, ticket, worker, key, version, styled)
    }

    fn take_job(&mut self, worker: u32) -> Option<Job>
        requires free { length self.old.taken < self.old.plan.workers }
        requires places { length self.old.queues.taken < self.old.queues.workers }
        requires more { self.old.counts.jobs < self.old.counts.turns }
        ensures { Claims self.old self.new worker result }
    {
        match self.next_key() {
            Some(key) => Some(self.begin(worker, key)),
            None => None,
        }
    }
}

impl<D: TileStore> Farm<D> {
    /// A worker, by its number, asks for a drawing to make: the first that waits in the first queue that is
    /// not empty, in renderd's order. It is over the newest data and in the map's style as it is now. Crowded
    /// where as many drawings are under way as there are workers, Stopped after a stop.
    pub fn claim(&mut self, worker: u32) -> Claimed
        requires { self.old.counts.turns < 2 ^ 63 }
        ensures step { (store_tells : Bool) (h : List Entry)
            → StandsFor D.state store_tells self.old h
            → StandsFor D.state store_tells self.new (Claim worker (claim_answer result) ∷ h) }
        ensures carries { (store_tells : Bool) (h : List Entry)
            → StandsFor D.state store_tells self.old h → IfJob result (Carries self.old.plan h) }
        ensures job { IfJob result (λ job. IsValidJob job × (job.worker ≡ worker)) }
        ensures kept { Lasts D.state self.old self.new }
        ensures store { self.new.store ≡ self.old.store }
    {
        self.count_turn();
        if self.counts.stopped {
            return Claimed::Stopped;
        }
        if self.is_crowded() {
            return Claimed::Crowded;
        }
        match self.take_job(worker) {
            Some(job) => Claimed::Job(job),
            None => Claimed::Idle,
        }
    }
}
