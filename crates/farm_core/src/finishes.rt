//! The ends of drawings.
ghost use Rattle.std.specs.Prelude.{◌≡◌, ◌≤◌, ◌<◌, ◌++◌, ◌∷◌, [], Bool, List, ◌+◌, ◌^◌, true, false, not, length, vec_capacity, if◌then◌else◌, None, Some, OnOk, option_map};
ghost use Rattle.farm_history.specs.declared.queues.Outcome.{Outcome};
ghost use Rattle.farm_history.specs.Plans.{is_in};
ghost use Rattle.farm_plan.specs.Spots.{IsKeyOf};
ghost use Rattle.farm_plan.specs.Drawings.{key_path};
ghost use Rattle.tile_store.specs.Stores.{StorePuts};
ghost use Rattle.render_queues.specs.Tables.{after_end};
ghost use Rattle.render_jobs.specs.Shared.{ShareSeen};
ghost use Rattle.farm_core.specs.inner.Effects.{EndsPut, IsTaken, EndsDrawing, MarksBut, finished_by, one_stored};
ghost use Rattle.farm_refinement.specs.inner.Events.{stale_tables, taken_at, untaken};
ghost use Rattle.farm_history.specs.Entries.{Entry, Finish};
ghost use Rattle.farm_core.specs.Answers.{IsDrawingOf, Lasts, PutsBytes, PutsDrawing, drawn_bytes, is_drawn};
ghost use Rattle.farm_plan.specs.Jobs.{IsFlight, job_text};
ghost use Rattle.farm_refinement.specs.Stands.{StandsFor};

use crate::farm::Farm;
use farm_base::NoMemory;
use farm_plan::{Finished, Key, Outcome, Queue};
use render_jobs::{Job, Share, drop_taken, taken_of};
use render_queues::Queues;
use std::alloc::Global;
use tile_store::{Staged, StoreFault, TileStore};

/// What a worker hands back of a job.
#[derive(Drop)]
pub enum Drawn {
    /// The metatile's container.
    Bytes(Vec<u8>),
    /// The metatile's container, which was staged for the store under the drawing's ticket.
    Staged(Staged),
    /// There was no memory for it.
    NoMemory,
}

fn is_drawn(drawn: &Drawn) -> bool
    ensures { result ≡ is_drawn drawn.now }
{
    match drawn {
        Drawn::Bytes(_) => true,
        Drawn::Staged(_) => true,
        Drawn::NoMemory => false,
    }
}

// Puts a share back, where it is of the newest data, and lets it go otherwise.
fn give_back(spares: &mut Vec<Share>, share: Share, is_newest: bool)
    requires { is_newest ≡ true → length spares.old.items < vec_capacity spares.old }
    ensures items { spares.new.items
        ≡ (if is_newest then spares.old.items ++ share ∷ [] else spares.old.items) }
    ensures capacity { vec_capacity spares.new ≡ vec_capacity spares.old }
{
    if is_newest {
        spares.push_reserved(share);
    }
}

// Ends the drawing of a metatile that was stored; one that was touched goes to the dirty queue.
fn end_stored(queues: &mut Queues, key: Key, touched: bool)
    requires { is_in key queues.old.taken ≡ true }
    ensures { queues.new ≡ stale_tables (not touched) (after_end queues.old key Outcome.Done) key }
{
    queues.law_sound();
    queues.end(key, Outcome::Done);
    if touched {
        queues.place(key, Queue::Dirty, None);
    }
}

impl<D> Farm<D> {
    // Takes a drawing out of those under way, and its share back; answers whether its metatile was touched.
    fn release(&mut self, job: Job) -> bool
        requires { IsTaken self.old job }
        ensures touched { option_map (λ t. t.touched) (taken_at self.old.taken job.ticket)
            ≡ Some result }
        ensures farm { self.new ≡ record self.old { taken = untaken job.ticket self.old.taken } }
    {
        let touched = taken_of(self.taken.as_slice(), job.ticket).unwrap().touched;
        let is_newest = job.version == self.counts.version;
        drop_taken(&mut self.taken, job.ticket);
        give_back(&mut self.spares, job.into_share(), is_newest);
        touched
    }

    fn reserve(&mut self) -> Result<(), NoMemory>
        ensures farm { self.new ≡ record self.old { marks = self.new.marks } }
        ensures shown { self.new.marks.shown ≡ self.old.marks.shown }
        ensures room { OnOk result (1 ≤ self.new.marks.room) }
    {
        self.marks.reserve_one()
    }

    fn show(&mut self, key: Key, version: u64, touched: bool)
        requires key { IsKeyOf self.old.plan key }
        requires room { 1 ≤ self.old.marks.room }
        requires taken { is_in key self.old.queues.taken ≡ true }
        requires more { self.old.counts.stored < self.old.counts.turns }
        ensures marks { MarksBut self.old.marks self.new.marks key
            (Some (record { version = version; clean = not touched })) }
        ensures farm { self.new ≡ record self.old {
          marks = self.new.marks;
          queues = stale_tables (not touched)
              (after_end self.old.queues key Outcome.Done) key;
          counts = one_stored self.old.counts;
        } }
    {
        self.marks.show(key, version, !touched);
        end_stored(&mut self.queues, key, touched);
        self.counts.stored += 1;
    }

    fn lose(&mut self, key: Key)
        ensures marks { MarksBut self.old.marks self.new.marks key None }
        ensures farm { self.new ≡ record self.old {
          marks = self.new.marks;
          queues = after_end self.old.queues key Outcome.NotDone;
        } }
    {
        self.marks.hide(key);
        self.queues.end(key, Outcome::NotDone);
    }

    // Ends a drawing for want of memory.
    fn cut(&mut self, key: Key)
        ensures { self.new
            ≡ record self.old { queues = after_end self.old.queues key Outcome.Cut } }
    {
        self.queues.end(key, Outcome::Cut);
    }
}

impl<D> Farm<D> {
    fn end_put(
        &mut self,
        key: Key,
        version: u64,
        touched: bool,
        put: Result<(), StoreFault>,
    ) -> Finished
        requires key { IsKeyOf self.old.plan key }
        requires room { 1 ≤ self.old.marks.room }
        requires taken { is_in key self.old.queues.taken ≡ true }
        requires more { self.old.counts.stored < self.old.counts.turns }
        ensures answer { result ≡ finished_by touched put }
        ensures ends { EndsPut self.old self.new key version touched put }
    {
        match put {
            Ok(()) => {
                self.show(key, version, touched);
                Finished::Stored(!touched)
            }
            Err(StoreFault::Failed) => {
                self.lose(key);
                Finished::PutFailed
            }
            Err(StoreFault::NoMemory) => {
                self.cut(key);
                Finished::NoMemory
            }
        }
    }
}

impl<D: TileStore> Farm<D> {
    // Puts what was drawn at its metatile's path; without a drawing there was no memory.
    fn put(&mut self, alloc: Global, key: Key, drawn: &Drawn) -> Result<(), StoreFault>
        requires { IsKeyOf self.old.plan key }
        ensures store { StorePuts (D.state self.old.store) (D.state self.new.store)
            (key_path self.old.plan key) (drawn_bytes drawn.now) result }
        ensures farm { self.new ≡ record self.old { store = self.new.store } }
    {
        let path = self.own.setup().path(key);
        match drawn {
            Drawn::Bytes(bytes) => self.store.put(alloc, path.as_str(), bytes.as_slice()),
            Drawn::Staged(staged) => self.store.put_staged(alloc, path.as_str(), staged),
            Drawn::NoMemory => Err(StoreFault::NoMemory),
        }
    }

    fn keep(
        &mut self,
        alloc: Global,
        key: Key,
        version: u64,
        touched: bool,
        drawn: &Drawn,
    ) -> Finished
        requires key { IsKeyOf self.old.plan key }
        requires taken { is_in key self.old.queues.taken ≡ true }
        requires more { self.old.counts.stored < self.old.counts.turns }
        ensures { EndsDrawing D.state self.old self.new
            key version touched (drawn_bytes drawn.now) result }
    {
        if self.reserve().is_err() {
            self.cut(key);
            return Finished::NoMemory;
        }
        let put = self.put(alloc, key, drawn);
        self.end_put(key, version, touched, put)
    }
}

impl<D: TileStore> Farm<D> {
    fn finish_drawn(&mut self, alloc: Global, job: Job, drawn: &Drawn) -> Finished
        requires turns { self.old.counts.turns < 2 ^ 63 }
        requires flight { (store_tells : Bool)
            × (h : List Entry)
            × StandsFor D.state store_tells self.old h
            × IsFlight self.old.plan h job }
        requires drawing { drawn_bytes drawn.now ≡ job_text job }
        ensures step { (store_tells : Bool) (h : List Entry)
            → StandsFor D.state store_tells self.old h
            → IsFlight self.old.plan h job
            → StandsFor D.state store_tells self.new (Finish job.ticket true result ∷ h) }
        ensures kept { Lasts D.state self.old self.new }
        ensures puts { PutsBytes D.state self.old self.new job (drawn_bytes drawn.now) result }
    {
        self.count_turn();
        let key = job.key();
        let version = job.version;
        let touched = self.release(job);
        self.keep(alloc, key, version, touched, drawn)
    }

    fn finish_none(&mut self, job: Job) -> Finished
        requires turns { self.old.counts.turns < 2 ^ 63 }
        requires flight { (store_tells : Bool)
            × (h : List Entry)
            × StandsFor D.state store_tells self.old h
            × IsFlight self.old.plan h job }
        ensures step { (store_tells : Bool) (h : List Entry)
            → StandsFor D.state store_tells self.old h
            → IsFlight self.old.plan h job
            → StandsFor D.state store_tells self.new (Finish job.ticket false result ∷ h) }
        ensures kept { Lasts D.state self.old self.new }
        ensures puts { D.state self.new.store ≡ D.state self.old.store }
    {
        self.count_turn();
        let key = job.key();
        self.release(job);
        self.cut(key);
        Finished::NoMemory
    }
}

impl<D: TileStore> Farm<D> {
    /// A worker hands back its drawing. Its memory is taken first; then it is put at the path of its map and
    /// metatile. Stored: the metatile is shown, clean where nothing touched it since the claim, and its waiters
    /// are Done; one that is dirty goes to the dirty queue where that has room. PutFailed exactly where that put
    /// Failed: nothing of it is shown, and its waiters are NotDone. NoMemory where the worker had none, or there
    /// is none here: what was shown stays, and its waiters are Cut. In every case the drawing is over.
    ///
    /// The job is one that a claim of this farm gave and that did not end yet, and its bytes are the container
    /// of the plain drawings of its metatile's tiles, in its style and over its data.
    pub fn finish(&mut self, alloc: Global, job: Job, drawn: Drawn) -> Finished
        requires turns { self.old.counts.turns < 2 ^ 63 }
        requires flight { (store_tells : Bool)
            × (h : List Entry)
            × StandsFor D.state store_tells self.old h
            × IsFlight self.old.plan h job }
        requires drawing { IsDrawingOf job drawn }
        ensures step { (store_tells : Bool) (h : List Entry)
            → StandsFor D.state store_tells self.old h
            → IsFlight self.old.plan h job
            → StandsFor D.state store_tells self.new
            (Finish job.ticket (is_drawn drawn) result ∷ h) }
        ensures kept { Lasts D.state self.old self.new }
        ensures puts { PutsDrawing D.state self.old self.new job drawn result }
    {
        if is_drawn(&drawn) {
            self.finish_drawn(alloc, job, &drawn)
        } else {
            self.finish_none(job)
        }
    }
}
